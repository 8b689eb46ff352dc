//! The command `vfork`: reads its words, forks inside a vgetrandom call, and writes a line for the parent and for the
//! child.
ghost use Rattle.std.specs.Prelude.{◌≡◌, ◌≤◌, ◌+◌, ◌*◌, ◌^◌, ◌++◌, ◌∷◌, [], ℕ, Some, IfOk, IfSome, length};
ghost use Rattle.hex.specs.Hex.{encode_lower};
ghost use Rattle.key_names.specs.declared.point.Point.{Point};
ghost use Rattle.vdso_state.specs.declared.place.Turn.{Turn};
ghost use Rattle.vdso_state.specs.Turns.{turn_number};
ghost use Rattle.rng_tool.specs.VforkOutcome.{IsSmallVfork, IsVfork, VforkEnds, VforkOf, end_line, vfork_text};
ghost use Rattle.tool_ends.specs.Ends.{CountsWriteFault};

use fork_runs::{Point, Turn, fork_on_new_table};
use hex::encode_to_slice;
use io_edges::{NoMemory, Sink};
use std::alloc::Global;
use std::sync::Wait;
use tool_ends::numbers::CommandForm;
use tool_ends::{Status, put_answer};

/// The most bytes that the parent or the child gives out.
const MOST_BYTES: u32 = 1 << 20;

const PARENT: &[u8] = b"parent ";

const CHILD: &[u8] = b"child ";

/// A vgetrandom call for `len` bytes, whose caller forks at this point of this attempt.
#[derive(Clone, Copy, Debug, PartialEq, Eq)]
pub(crate) struct Vfork {
    pub(crate) point: Point,
    pub(crate) attempt: Turn,
    pub(crate) len: u32,
}

/// The attempt with this number.
fn attempt_of(number: u32) -> Turn
    requires { (1 ≤ number) × (number ≤ 2) }
    ensures { turn_number result ≡ number }
{
    match number {
        1 => Turn::First,
        _ => Turn::Second,
    }
}

/// The request that the words make, if they are `vfork POINT ATTEMPT N`.
#[tactic(auto, using(crate::proofs::VforkWords::point_range, crate::proofs::VforkWords::turn_range, key_names::proofs::Points::numbered, key_names::proofs::Points::point_again))]
pub(crate) fn vfork_of(words: &[String]) -> Option<Vfork>
    ensures found { IfSome result (λ vfork. IsVfork words.now vfork.point vfork.attempt vfork.len) }
    ensures only { (point : Point) (attempt : Turn) (n : ℕ) → IsVfork words.now point attempt n
        → result ≡ Some (record { point = point; attempt = attempt; len = n }) }
{
    let form = CommandForm {
        name: "vfork",
        first: (1, 4),
        second: (1, 2),
        third: (1, MOST_BYTES),
    };
    let (number, attempt, len) = form.numbers(words)?;
    let point = Point::of_number(u64::from(number))?;
    Some(Vfork {
        point,
        attempt: attempt_of(attempt),
        len,
    })
}

// Writes the line of the parent or of the child: its name, and its bytes in hex.
fn write_end(out: &mut [u8], name: &[u8], bytes: &[u8])
    requires fits { length out.old ≡ length name.now + 2 * length bytes.now + 1 }
    requires short { length bytes.now ≤ 2 ^ 20 }
    ensures { out.new ≡ end_line name.now bytes.now }
{
    let (front, rest) = out.split_at_mut(name.len());
    front.copy_from_slice(name);
    let (digits, end) = rest.split_at_mut(2 * bytes.len());
    end.copy_from_slice(b"\n");
    let Ok(()) = encode_to_slice(bytes, digits) else {
        unreachable!()
    };
}

// Forks inside a vgetrandom call, and returns the lines of the parent and of the child. Memory for both lines is taken
// before the fork.
fn lines_of<R: Wait>(rt: &R, alloc: Global, vfork: Vfork) -> Result<Vec<u8>, NoMemory>
    requires { IsSmallVfork vfork }
    ensures { IfOk result (λ text. VforkOf vfork.point vfork.attempt vfork.len text.items) }
{
    let digits = 2 * vfork.len as usize;
    let first = PARENT.len() + digits + 1;
    let mut text = vec![in alloc; 0; first + CHILD.len() + digits + 1]?;
    let forked = fork_on_new_table(rt, alloc, vfork.attempt, vfork.point, vfork.len)?;
    let (parent, child) = text.split_at_mut(first);
    write_end(parent, PARENT, &forked.parent);
    write_end(child, CHILD, &forked.child);
    Ok(text)
}

/// Forks inside a vgetrandom call on a new table, and writes a line for the parent and for the child.
pub(crate) fn run_vfork<R: Wait, K: Sink>(
    rt: &R,
    alloc: Global,
    vfork: Vfork,
    sink: &mut K,
) -> Status
    requires { IsSmallVfork vfork }
    ensures ends { VforkEnds vfork.point vfork.attempt vfork.len result (K.held sink.old) (K.held sink.new) }
    ensures counted { CountsWriteFault result (K.faults sink.old) (K.faults sink.new) }
    ensures silent { result ≡ Status.NoMemory → sink.new ≡ sink.old }
{
    let Ok(text) = lines_of(rt, alloc, vfork) else {
        return Status::NoMemory;
    };
    put_answer(Status::Done, &text, sink)
}
