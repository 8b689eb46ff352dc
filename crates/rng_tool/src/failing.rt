//! The message on standard error for a transcript that is not lawful: the first line at which the failed clause does
//! not hold, and what was expected there. No function here has a contract, so all of it is only tested.

use crate::messages::{MOST_SHOWN, shown_line};
use event_script::{Script, read_front};
use hex::encode;
use judge_lines::clause::Clause;
use key_names::{Answer, LaneId, Mark, Word};
use std::alloc::{AllocError, Global};
use transcript_check::failing::first_failing_line;
use transcript_check::place::{Expected, FailedLine};
use transcript_text::{LineView, TextError, Transcript, read};

/// The most bytes that the text of a transcript may have.
const MOST_TEXT: usize = 2_147_483_648;

/// The most bytes of a line's data that a message shows.
const MOST_BYTES: usize = 32;

const CLAUSES: [Clause; 6] = [
    Clause::Lines,
    Clause::Marks,
    Clause::Forms,
    Clause::Answers,
    Clause::Data,
    Clause::Looks,
];

/// The number of a line in a transcript's text, counted from 1, and what was expected there.
#[derive(Drop)]
struct Failing {
    number: usize,
    expected: String,
}

fn clause_of(number: u8) -> Option<Clause> {
    for clause in CLAUSES {
        if clause.number() == number {
            return Some(clause);
        }
    }
    None
}

/// The name of the clause with this number (tested).
pub(crate) fn clause_name(clause: u8) -> &'static str {
    match clause {
        1 => "text",
        2 => "lines",
        3 => "marks",
        4 => "forms",
        5 => "answers",
        6 => "data",
        _ => "looks",
    }
}

fn answer_name(answer: Answer) -> &'static str {
    match answer {
        Answer::Ok => "ok",
        Answer::Again => "EAGAIN",
        Answer::Invalid => "EINVAL",
        Answer::NoData => "ENODATA",
        Answer::Interrupted => "EINTR",
        Answer::Fired => "fired",
        Answer::Idle => "idle",
        Answer::Unused => "unused",
    }
}

fn mark_text(alloc: Global, mark: Mark) -> Result<String, AllocError> {
    let Mark { lane, place, stamp } = mark;
    match lane {
        LaneId::Pool => format!(in alloc; "p:{place}@{stamp}"),
        LaneId::Base => format!(in alloc; "b:{place}@{stamp}"),
        LaneId::Cpu(cpu) => format!(in alloc; "c{cpu}:{place}@{stamp}"),
    }
}

// The number of bytes before the first difference between `left` and `right`.
fn same_front(left: &[u8], right: &[u8]) -> usize {
    for (count, (one, other)) in left.iter().zip(right).enumerate() {
        if one != other {
            return count;
        }
    }
    left.len().min(right.len())
}

// The text of the data `bytes`, which were expected instead of `shown`. The text has at most 32 bytes of them. If there
// are more, the text begins with the first byte that differs.
fn bytes_text(alloc: Global, bytes: &[u8], shown: &[u8]) -> Result<String, AllocError> {
    if bytes.is_empty() {
        return format!(in alloc; "data -");
    }
    if bytes.len() <= MOST_BYTES {
        let digits = encode(alloc, bytes)?;
        return format!(in alloc; "data {digits}");
    }
    let from = same_front(bytes, shown).min(bytes.len() - 1);
    let (_, rest) = bytes.split_at(from);
    let (front, _) = rest.split_at(rest.len().min(MOST_BYTES));
    let digits = encode(alloc, front)?;
    format!(in alloc; "data {digits} from byte {from} on")
}

fn event_text(alloc: Global, caller: u32, event: usize, word: Word) -> Result<String, AllocError> {
    let Ok(word) = str::from_utf8(word.text()) else {
        return format!(in alloc; "line {caller}.{event}");
    };
    format!(in alloc; "line {caller}.{event} {word}")
}

// What was expected, as a text. `line` is the line that the transcript has there, if it has one.
fn expected_text(
    alloc: Global,
    expected: &Expected,
    line: Option<LineView<'_>>,
) -> Result<String, AllocError> {
    match expected {
        Expected::Event {
            caller,
            event,
            word,
        } => event_text(alloc, *caller, *event, *word),
        Expected::NoLine => format!(in alloc; "no such line"),
        Expected::Place(mark) => mark_text(alloc, *mark),
        Expected::StampAbove(stamp) => format!(in alloc; "a stamp above {stamp}"),
        Expected::CpuBelow(cpus) => format!(in alloc; "a CPU below {cpus}"),
        Expected::Entry(mark) => {
            let mark = mark_text(alloc, *mark)?;
            format!(in alloc; "other steps around {mark}")
        }
        Expected::Steps => format!(in alloc; "other steps"),
        Expected::Answer(answer) => {
            let answer = answer_name(*answer);
            format!(in alloc; "answer {answer}")
        }
        Expected::NoData => format!(in alloc; "data -"),
        Expected::Count(bits) => format!(in alloc; "data {bits}"),
        Expected::Bytes(bytes) => match line {
            Some(line) => bytes_text(alloc, bytes, line.shown.bytes()),
            None => bytes_text(alloc, bytes, &[]),
        },
        Expected::Look { least, most } => format!(in alloc; "a look from ~{least} to ~{most}"),
    }
}

// The number of a failing line in the text, counted from 1. After the first line of the text come the callers' lines,
// one caller after the other.
fn number_of(t: &Transcript, place: &FailedLine) -> usize {
    let mut number = place.line.saturating_add(2);
    for caller in 0..t.callers() {
        if caller < place.caller {
            number = number.saturating_add(t.caller(caller).len());
        }
    }
    number
}

fn line_of<'a>(t: &'a Transcript, place: &FailedLine) -> Option<LineView<'a>> {
    if place.caller >= t.callers() {
        return None;
    }
    let lines = t.caller(place.caller);
    if place.line >= lines.len() {
        return None;
    }
    Some(lines.line(place.line))
}

// The faulty line of a text that is no transcript, and what was expected there.
fn of_text(alloc: Global, line: u32) -> Result<Failing, AllocError> {
    let expected = match line {
        1 => format!(in alloc; "rngtranscript 1")?,
        _ => {
            format!(in alloc;
                "a line CALLER.EVENT WORD ANSWER STEPS DATA, or end, with its line feed"
            )?
        }
    };
    Ok(Failing {
        number: line as usize,
        expected,
    })
}

// The first line of a transcript at which this clause fails, and what was expected there.
fn of_transcript(
    alloc: Global,
    script: &Script,
    t: &Transcript,
    clause: u8,
) -> Result<Option<Failing>, AllocError> {
    let Some(clause) = clause_of(clause) else {
        return Ok(None);
    };
    let Some(place) = first_failing_line(alloc, script, t, clause)? else {
        return Ok(None);
    };
    Ok(Some(Failing {
        number: number_of(t, &place),
        expected: expected_text(alloc, &place.expected, line_of(t, &place))?,
    }))
}

// The text to show for the line with this number: the line's first bytes, if they are printable.
fn shown_of(text: &[u8], number: usize) -> Option<&str> {
    let before = number.checked_sub(1)?;
    let line = text.split(|byte| *byte == b'\n').nth(before)?;
    let (front, _) = line.split_at(line.len().min(MOST_SHOWN));
    shown_line(front)
}

fn emitted(
    alloc: Global,
    clause: u8,
    failing: &Failing,
    text: &[u8],
) -> Result<String, AllocError> {
    let number = failing.number;
    let expected = &failing.expected;
    let name = clause_name(clause);
    match shown_of(text, number) {
        Some(line) => format!(in alloc;
            "transcript line {number}, clause {clause}, {name}: expected {expected}: {line}"
        ),
        None => format!(in alloc;
            "transcript line {number}, clause {clause}, {name}: expected {expected}"
        ),
    }
}

/// The message for the first line of a script's transcript at which this clause fails, with what was expected there
/// (tested). `None` if no such line is found in the input. The clause must be the first that fails.
///
/// # Errors
///
/// `AllocError` if there is no memory to find the line or to make the message.
pub(crate) fn failing_line(
    alloc: Global,
    clause: u8,
    input: &[u8],
) -> Result<Option<String>, AllocError> {
    let Ok((script, len)) = read_front(alloc, input) else {
        return Ok(None);
    };
    let (_, text) = input.split_at(len as usize);
    if text.len() > MOST_TEXT {
        return Ok(None);
    }
    let found = match read(alloc, text) {
        Ok(t) => of_transcript(alloc, &script, &t, clause)?,
        Err(TextError::Fault { line }) => Some(of_text(alloc, line)?),
        Err(TextError::TooManyLines) => None,
        Err(TextError::NoMemory) => return Err(AllocError),
    };
    match found {
        Some(failing) => Ok(Some(emitted(alloc, clause, &failing, text)?)),
        None => Ok(None),
    }
}
