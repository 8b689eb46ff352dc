//! The command `draw`: reads its words, draws the numbers, and writes a line for each.
ghost use Rattle.std.specs.Prelude.{◌≡◌, ◌≤◌, ◌+◌, ◌++◌, ◌∷◌, [], ℕ, Some, IfOk, IfSome, length};
ghost use Rattle.draw_below.specs.TableDraws.{ends_of};
ghost use Rattle.rng_tool.specs.DrawOutcome.{AskDraw, DrawEnds, DrawOf, IsDraw, IsSmallDraw, draw_line, draw_text};
ghost use Rattle.tool_ends.specs.Ends.{CountsWriteFault};

use arrayvec::ArrayString;
use draw_below::{Drawn, MOST_DRAWS, draw_on_new_table};
use io_edges::{NoMemory, Sink};
use itoa::Buffer;
use std::alloc::Global;
use std::sync::Wait;
use tool_ends::numbers::number_in;
use tool_ends::{Status, put_answer};

/// The most bytes that the lines of a run can have: 11 for each number drawn, and 6 for the line `spent`.
const MOST_BYTES: usize = 11_006;

/// The lines of all draws of a run, as one text.
type DrawText = ArrayString<MOST_BYTES>;

/// How many numbers are drawn, and their bound. If the bound is 0, whole 32-bit words are drawn.
#[derive(Clone, Copy, Debug, PartialEq, Eq)]
pub(crate) struct DrawRequest {
    pub(crate) bound: u32,
    pub(crate) count: u32,
}

/// The request that these three words make, if they are `draw C K`.
fn draw_by(command: &str, bound: &str, count: &str) -> Option<DrawRequest>
    ensures found { IfSome result (λ draw.
        AskDraw (command.now ∷ bound.now ∷ count.now ∷ []) draw.bound draw.count) }
    ensures only { (below many : ℕ) → AskDraw (command.now ∷ bound.now ∷ count.now ∷ []) below many
        → result ≡ Some (record { bound = below; count = many }) }
{
    if command != "draw" {
        return None;
    }
    let bound = number_in(0, u32::MAX, bound)?;
    let count = number_in(1, MOST_DRAWS as u32, count)?;
    Some(DrawRequest { bound, count })
}

/// The request that the words make, if they are `draw C K`.
pub(crate) fn draw_of(words: &[String]) -> Option<DrawRequest>
    ensures found { IfSome result (λ draw. IsDraw words.now draw.bound draw.count) }
    ensures only { (bound count : ℕ) → IsDraw words.now bound count
        → result ≡ Some (record { bound = bound; count = count }) }
{
    match words {
        [command, bound, count] => draw_by(command.as_str(), bound.as_str(), count.as_str()),
        _ => None,
    }
}

// Adds the line of a number that was drawn.
fn add_answer(text: &mut DrawText, answer: u32)
    requires { length text.old.bytes + 11 ≤ 11006 }
    ensures text { text.new.bytes ≡ text.old.bytes ++ draw_line (Some answer) }
    ensures short { length text.new.bytes ≤ length text.old.bytes + 11 }
{
    let mut digits = Buffer::new();
    text.push_str(digits.format(answer));
    text.push_str("\n");
}

// The lines of all draws, as one text.
fn draw_text(drawn: &Drawn) -> DrawText
    ensures { result.bytes ≡ draw_text (ends_of drawn.now) }
{
    let mut text = ArrayString::new();
    for answer in drawn.answers.as_slice() {
        add_answer(&mut text, *answer);
    }
    if drawn.spent {
        text.push_str("spent\n");
        return text;
    }
    text
}

// Draws the numbers on a new table, and returns their lines.
fn lines_of<R: Wait>(rt: &R, alloc: Global, draw: DrawRequest) -> Result<DrawText, NoMemory>
    requires { IsSmallDraw draw }
    ensures { IfOk result (λ text. DrawOf draw.bound draw.count text.bytes) }
{
    let Ok(drawn) = draw_on_new_table(rt, alloc, draw.bound, draw.count) else {
        return Err(NoMemory);
    };
    Ok(draw_text(&drawn))
}

/// Draws the numbers on a new table, and writes a line for each.
pub(crate) fn run_draw<R: Wait, K: Sink>(
    rt: &R,
    alloc: Global,
    draw: DrawRequest,
    sink: &mut K,
) -> Status
    requires { IsSmallDraw draw }
    ensures ends { DrawEnds draw.bound draw.count result (K.held sink.old) (K.held sink.new) }
    ensures counted { CountsWriteFault result (K.faults sink.old) (K.faults sink.new) }
    ensures silent { result ≡ Status.NoMemory → sink.new ≡ sink.old }
{
    let Ok(text) = lines_of(rt, alloc, draw) else {
        return Status::NoMemory;
    };
    put_answer(Status::Done, text.as_str().as_bytes(), sink)
}
