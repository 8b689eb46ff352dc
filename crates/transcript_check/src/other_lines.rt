//! Finds the first line with an answer, or with data, that its steps do not give.
ghost use Rattle.std.specs.Prelude.{◌≡◌, ◌↔◌, IsTrue, IfOk, IfSome, length};
ghost use Rattle.key_names.specs.Lanes.Book.{list_at};
ghost use Rattle.key_names.specs.Transcripts.SeenLine.{SeenLine};
ghost use Rattle.judge_log.specs.declared.said.MadeLine.{MadeLine as SaidOfLine};
ghost use Rattle.serial_replay.specs.Agreement.{SameAnswer, SameShown};
ghost use Rattle.serial_replay.specs.Remade.{said_lists};
ghost use Rattle.transcript_text.specs.Views.{seen};
ghost use Rattle.transcript_check.specs.Others.{HasOther, IsOther, IsOtherAt};

use crate::compare::{ComparedAnswer, ComparedData, compared};
use crate::place::{Expected, FailedLine};
use event_script::Script;
use judge_log::said::{MadeLine, ShownRecipe, Whole};
use serial_replay::remake::{Remade, remake};
use std::alloc::{AllocError, Global};
use transcript_text::{CallerLines, LineView, Transcript};

/// A part of a line, its answer or its data, which is compared with what the line's steps give.
pub(crate) trait SaidPart {
    /// Whether this part of a line agrees with what was made from the line's steps.
    ghost IsSaid: { Self → SeenLine → SaidOfLine → Type 0 };

    fn is_said(&self, line: LineView<'_>, said: &MadeLine) -> bool
        ensures { IsTrue result ↔ IsSaid self.now (seen line.entry) said.now };

    /// This part as it was made from the line's steps.
    fn expected(&self, alloc: Global, said: &MadeLine) -> Result<Expected, AllocError>;
}

impl SaidPart for ComparedAnswer {
    ghost IsSaid = { λ _ line said. SameAnswer line said };

    fn is_said(&self, line: LineView<'_>, said: &MadeLine) -> bool {
        compared(line, said).answer
    }

    fn expected(&self, _alloc: Global, said: &MadeLine) -> Result<Expected, AllocError> {
        Ok(Expected::Answer(said.answer))
    }
}

impl SaidPart for ComparedData {
    ghost IsSaid = { λ _ line said. SameShown line said };

    fn is_said(&self, line: LineView<'_>, said: &MadeLine) -> bool {
        compared(line, said).shown
    }

    fn expected(&self, alloc: Global, said: &MadeLine) -> Result<Expected, AllocError> {
        match &said.shows {
            ShownRecipe::Nothing => Ok(Expected::NoData),
            ShownRecipe::Count(number) => Ok(Expected::Count(*number)),
            ShownRecipe::Served(served) => {
                let mut bytes = Vec::new(alloc);
                served.put(&mut bytes)?;
                Ok(Expected::Bytes(bytes))
            }
        }
    }
}

fn is_other<P: SaidPart>(part: &P, line: LineView<'_>, said: &[MadeLine]) -> bool
    ensures { IsTrue result → IsOther (P.IsSaid part.now) said.now (seen line.entry) }
{
    match said.get(line.event as usize) {
        Some(one) => !part.is_said(line, one),
        None => false,
    }
}

// The number of a caller's first line that differs from the answer or data made for the line's event.
fn first_of_caller<P: SaidPart>(part: &P, lines: &CallerLines, said: &[MadeLine]) -> Option<usize>
    ensures { IfSome result (IsOtherAt (P.IsSaid part.now) said.now lines.now.lines) }
{
    for number in 0..lines.len() {
        if is_other(part, lines.line(number), said) {
            return Some(number);
        }
    }
    None
}

// What was expected for this part of a line: the answer or data made from the line's steps.
fn expected_of<P: SaidPart>(
    alloc: Global,
    part: &P,
    line: LineView<'_>,
    said: &[MadeLine],
) -> Result<Expected, AllocError> {
    match said.get(line.event as usize) {
        Some(one) => part.expected(alloc, one),
        None => Ok(Expected::NoLine),
    }
}

fn first_of_all<P: SaidPart>(
    alloc: Global,
    part: &P,
    t: &Transcript,
    said: &[Vec<MadeLine>],
) -> Result<Option<FailedLine>, AllocError>
    requires { length said.now ≡ length t.now }
    ensures { IfOk result (λ o. IfSome o (λ p. IsOtherAt (P.IsSaid part.now) (list_at (said_lists said.now) p.caller)
        (list_at t.now p.caller) p.line)) }
{
    for caller in 0..t.callers() {
        let lines = t.caller(caller);
        let said = &said[caller as usize];
        if let Some(line) = first_of_caller(part, lines, said) {
            let expected = expected_of(alloc, part, lines.line(line), said)?;
            return Ok(Some(FailedLine {
                caller,
                line,
                expected,
            }));
        }
    }
    Ok(None)
}

/// The first line with an answer, or with data, that its steps do not give. `None` if there is no such line, or if the
/// clause on lines, marks or forms fails. Tests cover that no earlier line differs.
///
/// # Errors
///
/// `AllocError` if there is no memory to find the line.
pub(crate) fn first_other<P: SaidPart>(
    alloc: Global,
    script: &Script,
    t: &Transcript,
    part: &P,
) -> Result<Option<FailedLine>, AllocError>
    ensures { IfOk result (λ o. IfSome o (λ p. HasOther (P.IsSaid part.now) script.now t.now p.caller p.line)) }
{
    match remake(alloc, script, t, &Whole)? {
        Remade::Made(made) => first_of_all(alloc, part, t, &made.callers),
        Remade::No(_) => Ok(None),
    }
}
