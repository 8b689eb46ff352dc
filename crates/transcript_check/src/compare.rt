//! Compares each line with the answer and data that its steps give, as soon as this answer and these data are made.
//! Notes whether the line's answer agrees, and whether its data agree.
ghost use Rattle.std.specs.Prelude.{◌≡◌, ◌↔◌, IsTrue, Some, length, slice_get, MatchOption};
ghost use Rattle.std.specs.List.{AllByRecursion};
ghost use Rattle.key_names.specs.Lanes.Book.{list_at};
ghost use Rattle.key_names.specs.Transcripts.SeenLine.{SeenLine, no_data, count, bytes_or_none};
ghost use Rattle.transcript_text.specs.Views.{seen, seen_shown};
ghost use Rattle.judge_vread.specs.Recipe.{bytes_made};
ghost use Rattle.judge_log.specs.Said.{shown_by};
ghost use Rattle.serial_replay.specs.Agreement.{Agrees, SameAnswer, SameShown, AllAgree};
ghost use Rattle.serial_replay.specs.Remade.{said_lists};
ghost use Rattle.transcript_check.specs.declared.compare.Same.{Same as IsLineSame};
ghost use Rattle.transcript_check.specs.Compared.{IsCompared};

use judge_log::said::{MadeLine, Note, ShownRecipe};
use judge_vread::served::Served;
use transcript_text::{CallerLines, LineView, Shown, Transcript};

/// Whether a line's answer agrees with the answer that its steps give, and whether the line's data agree with the data
/// that its steps give.
#[derive(Clone, Copy, Drop)]
pub(crate) struct Same {
    pub answer: bool,
    pub shown: bool,
}

/// For each line of the transcript `t`, notes whether the line's answer and data agree with those that its steps give.
#[derive(Drop)]
pub(crate) struct Compare<'a> {
    pub t: &'a Transcript,
}

/// The part of a line that is compared: its answer, or its data.
pub(crate) trait Part {
    /// Whether a note records that this part of the line agrees.
    ghost IsSame: { Self → IsLineSame → Type 0 };

    fn is_same(&self, same: Same) -> bool
        ensures { IsTrue result ↔ IsSame self.now same };
}

/// A line's answer.
pub(crate) struct ComparedAnswer;

/// The data of a line.
pub(crate) struct ComparedData;

fn shows_nothing(shown: Shown<'_>) -> bool
    ensures { IsTrue result ↔ (seen_shown shown.entry ≡ no_data) }
{
    match shown {
        Shown::None => true,
        Shown::Bytes(bytes) => bytes.is_empty(),
        Shown::Count(_) => false,
    }
}

fn shows_count(shown: Shown<'_>, number: u32) -> bool
    ensures { IsTrue result ↔ (seen_shown shown.entry ≡ count number) }
{
    match shown {
        Shown::Count(found) => found == number,
        Shown::None | Shown::Bytes(_) => false,
    }
}

fn shows_bytes(shown: Shown<'_>, served: &Served) -> bool
    ensures { IsTrue result ↔ (seen_shown shown.entry ≡ bytes_or_none (bytes_made served.now)) }
{
    match shown {
        Shown::None => served.is(&[]),
        Shown::Bytes(bytes) => served.is(bytes),
        Shown::Count(_) => false,
    }
}

fn is_shown(shown: Shown<'_>, shows: &ShownRecipe) -> bool
    ensures { IsTrue result ↔ (seen_shown shown.entry ≡ shown_by shows.now) }
{
    match shows {
        ShownRecipe::Nothing => shows_nothing(shown),
        ShownRecipe::Count(number) => shows_count(shown, *number),
        ShownRecipe::Served(served) => shows_bytes(shown, served),
    }
}

pub(crate) fn compared(line: LineView<'_>, said: &MadeLine) -> Same
    ensures answer { IsTrue result.answer ↔ SameAnswer (seen line.entry) said.now }
    ensures shown { IsTrue result.shown ↔ SameShown (seen line.entry) said.now }
{
    Same {
        answer: line.answer == said.answer,
        shown: is_shown(line.shown, &said.shows),
    }
}

impl Compare<'_> {
    // The line of an event of a caller, if the transcript has it.
    fn line(&self, caller: u32, event: u32) -> Option<LineView<'_>>
        ensures { MatchOption result
            ((line : SeenLine) → slice_get (list_at self.now.t.now caller) event ≡ Some line → ⊥)
            (λ line. slice_get (list_at self.now.t.now caller) event ≡ Some (seen line)) }
    {
        if caller >= self.t.callers() {
            return None;
        }
        let lines = self.t.caller(caller);
        if event as usize >= lines.len() {
            return None;
        }
        Some(lines.line(event as usize))
    }
}

impl Note for Compare<'_> {
    type Noted = Same;

    ghost IsNoted = { λ compare caller event said same. IsCompared compare.t.now caller event said same };

    #[inline(always)]
    fn note(&self, caller: u32, event: u32, said: MadeLine) -> Same {
        match self.line(caller, event) {
            Some(line) => compared(line, &said),
            None => Same {
                answer: true,
                shown: true,
            },
        }
    }
}

impl Part for ComparedAnswer {
    ghost IsSame = { λ _ same. IsTrue same.answer };

    fn is_same(&self, same: Same) -> bool {
        same.answer
    }
}

impl Part for ComparedData {
    ghost IsSame = { λ _ same. IsTrue same.shown };

    fn is_same(&self, same: Same) -> bool {
        same.shown
    }
}

fn agrees<P: Part>(part: &P, line: LineView<'_>, noted: &[Same]) -> bool
    ensures { IsTrue result ↔ Agrees (λ _. P.IsSame part.now) noted.now (seen line.entry) }
{
    match noted.get(line.event as usize) {
        Some(same) => part.is_same(*same),
        None => false,
    }
}

fn lines_agree<P: Part>(part: &P, lines: &CallerLines, noted: &[Same]) -> bool
    ensures { IsTrue result ↔ AllByRecursion (Agrees (λ _. P.IsSame part.now) noted.now) lines.now.lines }
{
    for number in 0..lines.len() {
        if !agrees(part, lines.line(number), noted) {
            return false;
        }
    }
    true
}

/// Whether this part of every line agrees with the part that the line's steps give.
pub(crate) fn all_agree<P: Part>(part: &P, t: &Transcript, noted: &[Vec<Same>]) -> bool
    requires { length noted.now ≡ length t.now }
    ensures { IsTrue result ↔ AllAgree (λ _. P.IsSame part.now) (said_lists noted.now) t.now }
{
    for caller in 0..t.callers() {
        if !lines_agree(part, t.caller(caller), &noted[caller as usize]) {
            return false;
        }
    }
    true
}
