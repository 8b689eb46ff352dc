//! One line as a statement: an event, a caller or the end.

ghost use Rattle.std.specs.Prelude.{◌≡◌, ◌<◌, ◌≤◌, ◌∷◌, IfOk};
ghost use Rattle.std.specs.List.{list_any};
ghost use Rattle.event_script.specs.Views.{Gives, fields_of};
ghost use Rattle.event_script.specs.Says.{said_as};
ghost use Rattle.key_names.specs.Texts.ScriptFaults.{said, said_by, said_by_word, SaidInRange, is_unprintable};

use crate::numbers::number;
use crate::statements::events::event_of;
use crate::statements::fields::{cut, none, one, spells, two};
use crate::statements::head::Head;
use crate::whole::error::LineError;
use crate::words::word_of;
use key_names::{Event, FaultKind, Word};
use std::alloc::Global;

/// The statement of a line after the first two: an event, the start of a caller's block, or the end.
#[derive(Drop)]
pub(crate) enum ScriptLine {
    Event(Event),
    Caller(u32),
    End,
}

/// Whether a line has a byte outside printable ASCII.
pub(crate) fn has_bad_byte(line: &[u8]) -> bool
    ensures { result ≡ list_any is_unprintable line.now }
{
    let mut bad = false;
    for byte in line {
        bad |= *byte < 0x20 || *byte > 0x7e;
    }
    bad
}

fn said_by_word(
    alloc: Global,
    head: Head,
    word: Word,
    rest: Option<&[u8]>,
) -> Result<ScriptLine, LineError>
    ensures value { Gives said_as result (said_by_word head.version head.cpus (fields_of rest.entry) word) }
    ensures range { IfOk result (λ what. SaidInRange head.version head.cpus (said_as what)) }
{
    match word {
        Word::End => {
            none(rest)?;
            Ok(ScriptLine::End)
        }
        _ => {
            let event = event_of(alloc, head, word, rest)?;
            Ok(ScriptLine::Event(event))
        }
    }
}

fn said_by(
    alloc: Global,
    head: Head,
    first: &[u8],
    rest: Option<&[u8]>,
) -> Result<ScriptLine, LineError>
    ensures value { Gives said_as result (said_by head.version head.cpus (first.now ∷ fields_of rest.entry)) }
    ensures range { IfOk result (λ what. SaidInRange head.version head.cpus (said_as what)) }
{
    if let Some(word) = word_of(first) {
        return said_by_word(alloc, head, word, rest);
    }
    if !spells(first, b"caller") {
        return Err(LineError::Kind(FaultKind::UnknownWord));
    }
    let number = number(63, one(rest)?)?;
    Ok(ScriptLine::Caller(number as u32))
}

/// The statement of a line, or the first fault of its word and its fields.
pub(crate) fn line_says(alloc: Global, head: Head, line: &[u8]) -> Result<ScriptLine, LineError>
    ensures value { Gives said_as result (said head.version head.cpus line.now) }
    ensures range { IfOk result (λ what. SaidInRange head.version head.cpus (said_as what)) }
{
    match cut(b' ', line) {
        Some((first, rest)) => said_by(alloc, head, first, Some(rest)),
        None => said_by(alloc, head, line, None),
    }
}
