//! Appends a line's text up to its data.
ghost use Rattle.std.specs.Prelude.{◌≡◌, ◌+◌, ◌≤◌, ◌++◌, [], codes, length};
ghost use Rattle.key_names.specs.Texts.TranscriptGrammar.{answer_text, lane_text, step_text, steps_text};
ghost use Rattle.transcript_text.specs.Heads.{head_text};

use crate::parsing::names::answer_name;
use crate::printing::line_buffer::Piece;
use crate::view::LineView;
use key_names::{Answer, LaneId, Step};

/// Appends the text of a lane, and a colon.
#[inline(always)]
#[tactic(auto, unfolding(key_names::specs::Texts::TranscriptGrammar::lane_text))]
fn append_lane(piece: &mut Piece, lane: LaneId)
    requires { length piece.old + 22 ≤ 4096 }
    ensures text { piece.new ≡ piece.old ++ (lane_text lane ++ codes ":") }
    ensures short { length piece.new ≤ length piece.old + 22 }
{
    match lane {
        LaneId::Pool => piece.append(b"p:"),
        LaneId::Base => piece.append(b"b:"),
        LaneId::Cpu(cpu) => {
            piece.push(b'c');
            piece.append_number(cpu as u64);
            piece.push(b':');
        }
    }
}

#[inline(always)]
#[tactic(auto, unfolding(key_names::specs::Texts::TranscriptGrammar::step_text))]
fn append_step(piece: &mut Piece, step: &Step)
    requires { length piece.old + 63 ≤ 4096 }
    ensures text { piece.new ≡ piece.old ++ step_text step.now }
    ensures short { length piece.new ≤ length piece.old + 63 }
{
    match *step {
        Step::Look(generation) => {
            piece.push(b'~');
            piece.append_number(generation);
        }
        Step::Visit(mark) => {
            append_lane(piece, mark.lane);
            piece.append_number(mark.place);
            piece.push(b'@');
            piece.append_number(mark.stamp);
        }
    }
}

/// Appends a space and an answer.
#[inline(always)]
#[tactic(auto, unfolding(key_names::specs::Texts::TranscriptGrammar::answer_text))]
fn append_answer(piece: &mut Piece, answer: Answer)
    requires { length piece.old + 9 ≤ 4096 }
    ensures text { piece.new ≡ piece.old ++ (codes " " ++ answer_text answer) }
    ensures short { length piece.new ≤ length piece.old + 9 }
{
    piece.push(b' ');
    // Most lines have the answer `ok`.
    if let Answer::Ok = answer {
        piece.push(b'o');
        piece.push(b'k');
        return;
    }
    piece.append_word(answer_name(answer));
}

/// Appends a space and the steps, with commas between them.
// The code for a step occurs once, so this function stays small enough to be inlined.
#[inline(always)]
fn append_steps(piece: &mut Piece, steps: &[Step])
    requires room { length piece.old ≤ 1024 }
    requires few { length steps.now ≤ 20 }
    ensures text { piece.new ≡ piece.old ++ (codes " " ++ steps_text steps.now) }
    ensures short { length piece.new ≤ length piece.old + 1280 }
{
    if steps.is_empty() {
        piece.append(b" -");
        return;
    }
    let mut before = b' ';
    for step in steps {
        piece.push(before);
        append_step(piece, step);
        before = b',';
    }
}

/// Appends the line up to the space before its data.
// Without the hint to inline, a program that writes to two kinds of sinks makes a call for each line.
#[inline(always)]
#[tactic(auto, unfolding(crate::specs::Heads::head_text))]
pub(crate) fn append_head(piece: &mut Piece, line: LineView<'_>)
    requires room { piece.old ≡ [] }
    requires few { length line.steps.now ≤ 20 }
    ensures text { piece.new ≡ head_text line.entry.caller line.entry.event line.entry.word line.entry.answer
        line.entry.steps.now }
    ensures short { length piece.new ≤ 1400 }
{
    piece.append_number(line.caller as u64);
    piece.push(b'.');
    piece.append_number(line.event as u64);
    piece.push(b' ');
    piece.append_word(line.word.text());
    append_answer(piece, line.answer);
    append_steps(piece, line.steps);
    piece.push(b' ');
}
