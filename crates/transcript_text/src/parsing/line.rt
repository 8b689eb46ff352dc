//! Reading one line.
ghost use Rattle.std.specs.Prelude.{◌≢◌, List, ℕ, MatchOption};
ghost use Rattle.key_names.specs.Transcripts.SeenLine.{SeenLine};
ghost use Rattle.key_names.specs.Texts.TranscriptGrammar.{line_text, LineFits};
ghost use Rattle.transcript_text.specs.ReadLines.{IsRead, IsSplit, numbers_text, NumbersFit};
ghost use Rattle.transcript_text.specs.Reading.{Reads};

use crate::parsing::lexing::{MOST_U32, cut, cut_near};
use crate::parsing::names::{answer_of, word_of};
use crate::parsing::steps::steps_of;
use event_script::numbers::number_front;
use key_names::{Answer, Step, Trace, Word};

/// The first field of a line: the caller's number and the event's number.
#[derive(Clone, Copy)]
struct LineNumbers {
    caller: u32,
    event: u32,
}

/// The five fields of a line.
#[derive(Clone, Copy)]
struct Fields<'a> {
    numbers: &'a [u8],
    word: &'a [u8],
    answer: &'a [u8],
    steps: &'a [u8],
    shown: &'a [u8],
}

/// A line that was read; its last field is kept as text and not decoded yet.
#[derive(Clone, Copy)]
pub(crate) struct ReadLine<'a> {
    pub(crate) caller: u32,
    pub(crate) event: u32,
    pub(crate) word: Word,
    pub(crate) answer: Answer,
    pub(crate) steps: &'a [Step],
    pub(crate) shown: &'a [u8],
}

fn numbers_of(text: &[u8]) -> Option<LineNumbers>
    ensures { Reads numbers_text NumbersFit text.now result }
{
    let (caller, following) = number_front(MOST_U32, text)?;
    let [b'.', digits @ ..] = following else {
        return None;
    };
    let (event, rest) = number_front(MOST_U32, digits)?;
    if !rest.is_empty() {
        return None;
    }
    Some(LineNumbers {
        caller: caller as u32,
        event: event as u32,
    })
}

fn fields_of(line: &[u8]) -> Option<Fields<'_>>
    ensures { MatchOption result ((a b c d e : List ℕ) → IsSplit line.now a b c d e → ⊥)
        (λ f. IsSplit line.now f.numbers.now f.word.now f.answer.now f.steps.now f.shown.now) }
{
    let (numbers, rest) = cut_near(b' ', line)?;
    let (word, rest) = cut_near(b' ', rest)?;
    let (answer, rest) = cut_near(b' ', rest)?;
    let (steps, shown) = cut(b' ', rest)?;
    Some(Fields {
        numbers,
        word,
        answer,
        steps,
        shown,
    })
}

/// Reads a line, given without its line feed. The last field is kept as text, and may spell no data. The line's steps
/// are put in `trace`.
pub(crate) fn line_of<'a>(text: &'a [u8], trace: &'a mut Trace) -> Option<ReadLine<'a>>
    ensures { MatchOption result ((line : SeenLine) → LineFits line → text.now ≢ line_text line)
        (IsRead text.now) }
{
    let fields = fields_of(text)?;
    let numbers = numbers_of(fields.numbers)?;
    Some(ReadLine {
        caller: numbers.caller,
        event: numbers.event,
        word: word_of(fields.word)?,
        answer: answer_of(fields.answer)?,
        steps: steps_of(fields.steps, trace)?,
        shown: fields.shown,
    })
}
