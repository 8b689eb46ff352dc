//! The event of a line.

ghost use Rattle.std.specs.Prelude.{◌<◌, ◌≤◌, ◌^◌, ◌≡◌, MatchResult, false};
ghost use Rattle.event_script.specs.ByteWords.{has_bytes};
ghost use Rattle.event_script.specs.Views.{Gives, Tells, fields_of};
ghost use Rattle.key_names.specs.Texts.ScriptFaults.{binary, bytes, event_of, hardware_words, input_of};
ghost use Rattle.key_names.specs.Texts.ScriptFaults.{number, number_in, plain, since, unary};

use crate::numbers::{number, number_from, one_below, one_number, two_numbers};
use crate::statements::acts::inside;
use crate::statements::amounts::{MOST_BITS, MOST_FLAGS, MOST_LEN, bits, text};
use crate::statements::fields::{four, none, one, two};
use crate::statements::head::Head;
use crate::statements::hexes::hardware_words;
use crate::whole::error::LineError;
use crate::words::alone;
use key_names::{Event, FaultKind, HardwareWords, Word};
use std::alloc::Global;

/// The last moment that a line can set, in milliseconds.
pub(crate) const LAST_MOMENT: u64 = (1 << 40) - 1;

/// An event without fields.
fn plain(event: Event, rest: Option<&[u8]>) -> Result<Event, FaultKind>
    ensures { Tells (λ found. found) result (plain event (fields_of rest.entry)) }
{
    none(rest)?;
    Ok(event)
}

fn at(rest: Option<&[u8]>) -> Result<Event, FaultKind>
    ensures { Tells (λ event. event) result (unary (number (2 ^ 40)) Event.At (fields_of rest.entry)) }
{
    let moment = one_number(LAST_MOMENT, rest)?;
    Ok(Event::At { moment })
}

fn on(head: Head, rest: Option<&[u8]>) -> Result<Event, FaultKind>
    ensures { Tells (λ event. event) result (unary (number head.cpus) Event.On (fields_of rest.entry)) }
{
    let cpu = one_below(head.cpus, rest)?;
    Ok(Event::On { cpu })
}

fn hw(alloc: Global, rest: Option<&[u8]>) -> Result<Event, LineError>
    ensures { Gives (λ event. event) result (unary hardware_words Event.Hw (fields_of rest.entry)) }
{
    let words = hardware_words(alloc, one(rest)?)?;
    let bytes = HardwareWords::of(alloc, words)?;
    Ok(Event::Hw { bytes })
}

fn device(alloc: Global, rest: Option<&[u8]>) -> Result<Event, LineError>
    ensures { Gives (λ event. event) result (binary (number (2 ^ 64)) bytes Event.Device (fields_of rest.entry)) }
{
    let (first, second) = two(rest)?;
    let word = number(u64::MAX, first)?;
    let text = text(alloc, second)?;
    Ok(Event::Device { word, text })
}

fn write(alloc: Global, rest: Option<&[u8]>) -> Result<Event, LineError>
    ensures { Gives (λ event. event) result (unary bytes Event.Write (fields_of rest.entry)) }
{
    let text = text(alloc, one(rest)?)?;
    Ok(Event::Write { text })
}

fn add(alloc: Global, rest: Option<&[u8]>) -> Result<Event, LineError>
    ensures { Gives (λ event. event) result (binary bytes (number (2 ^ 31)) Event.Add (fields_of rest.entry)) }
{
    let (first, second) = two(rest)?;
    let text = text(alloc, first)?;
    let bits = bits(second)?;
    Ok(Event::Add { text, bits })
}

fn credit(rest: Option<&[u8]>) -> Result<Event, FaultKind>
    ensures { Tells (λ event. event) result (unary (number (2 ^ 31)) Event.Credit (fields_of rest.entry)) }
{
    let bits = one_number(MOST_BITS, rest)?;
    Ok(Event::Credit { bits: bits as u32 })
}

fn irq(rest: Option<&[u8]>) -> Result<Event, FaultKind>
    ensures { Tells (λ event. event) result (binary (number (2 ^ 64)) (number (2 ^ 64)) Event.Irq
        (fields_of rest.entry)) }
{
    let (v1, v2) = two_numbers(u64::MAX, u64::MAX, rest)?;
    Ok(Event::Irq { v1, v2 })
}

fn input(rest: Option<&[u8]>) -> Result<Event, FaultKind>
    ensures { Tells (λ event. event) result (input_of (fields_of rest.entry)) }
{
    let ((word, kind), (code, value)) = four(rest)?;
    let word = number(u64::MAX, word)?;
    let kind = number(65_535, kind)?;
    let code = number(65_535, code)?;
    let value = number(255, value)?;
    Ok(Event::Input {
        word,
        kind: kind as u16,
        code: code as u16,
        value: value as u8,
    })
}

fn read(rest: Option<&[u8]>) -> Result<Event, FaultKind>
    ensures { Tells (λ event. event) result (binary (number 1048577) (number (2 ^ 32)) Event.Read
        (fields_of rest.entry)) }
{
    let (len, flags) = two_numbers(MOST_LEN, MOST_FLAGS, rest)?;
    Ok(Event::Read {
        len: len as u32,
        flags: flags as u32,
    })
}

fn vread(rest: Option<&[u8]>) -> Result<Event, FaultKind>
    ensures { Tells (λ event. event) result (binary (number 1048577) (number (2 ^ 32)) Event.Vread
        (fields_of rest.entry)) }
{
    let (len, flags) = two_numbers(MOST_LEN, MOST_FLAGS, rest)?;
    Ok(Event::Vread {
        len: len as u32,
        flags: flags as u32,
    })
}

fn kread(rest: Option<&[u8]>) -> Result<Event, FaultKind>
    ensures { Tells (λ event. event) result (unary (number 1048577) Event.Kread (fields_of rest.entry)) }
{
    let len = one_number(MOST_LEN, rest)?;
    Ok(Event::Kread { len: len as u32 })
}

fn dread(rest: Option<&[u8]>) -> Result<Event, FaultKind>
    ensures { Tells (λ event. event) result (binary (number 1048577) (number 2) Event.Dread (fields_of rest.entry)) }
{
    let (len, flag) = two_numbers(MOST_LEN, 1, rest)?;
    Ok(Event::Dread {
        len: len as u32,
        flag: flag as u32,
    })
}

fn uread(rest: Option<&[u8]>) -> Result<Event, FaultKind>
    ensures { Tells (λ event. event) result (unary (number 1048577) Event.Uread (fields_of rest.entry)) }
{
    let len = one_number(MOST_LEN, rest)?;
    Ok(Event::Uread { len: len as u32 })
}

fn fork(rest: Option<&[u8]>) -> Result<Event, FaultKind>
    ensures { Tells (λ event. event) result (unary (number_in 1 64) Event.Fork (fields_of rest.entry)) }
{
    let child = number_from(1, 63, one(rest)?)?;
    Ok(Event::Fork {
        child: child as u32,
    })
}

/// Refuses an event whose script has a version before `first`, the version that introduced the event.
fn known_since(first: u32, version: u32) -> Result<(), FaultKind>
    ensures { MatchResult result (λ _. first ≤ version) (λ kind. (version < first) × (kind ≡ FaultKind.UnknownWord)) }
{
    if version < first {
        return Err(FaultKind::UnknownWord);
    }
    Ok(())
}

fn prepare(head: Head, rest: Option<&[u8]>) -> Result<Event, FaultKind>
    ensures { Tells (λ event. event) result (since 2 head.version
        (unary (number head.cpus) Event.Prepare (fields_of rest.entry))) }
{
    known_since(2, head.version)?;
    let cpu = one_below(head.cpus, rest)?;
    Ok(Event::Prepare { cpu })
}

fn online(head: Head, rest: Option<&[u8]>) -> Result<Event, FaultKind>
    ensures { Tells (λ event. event) result (since 2 head.version
        (unary (number head.cpus) Event.Online (fields_of rest.entry))) }
{
    known_since(2, head.version)?;
    let cpu = one_below(head.cpus, rest)?;
    Ok(Event::Online { cpu })
}

fn vmfork(alloc: Global, version: u32, rest: Option<&[u8]>) -> Result<Event, LineError>
    ensures { Gives (λ event. event) result (since 2 version
        (binary (number (2 ^ 64)) bytes Event.Vmfork (fields_of rest.entry))) }
{
    known_since(2, version)?;
    let (first, second) = two(rest)?;
    let word = number(u64::MAX, first)?;
    let text = text(alloc, second)?;
    Ok(Event::Vmfork { word, text })
}

fn state(version: u32, rest: Option<&[u8]>) -> Result<Event, FaultKind>
    ensures { Tells (λ event. event) result (since 3 version (unary (number 16) Event.State (fields_of rest.entry))) }
{
    known_since(3, version)?;
    let number = one_below(16, rest)?;
    Ok(Event::State { number })
}

/// The event that a word and the fields after it spell. No event with this word has a field of bytes.
fn event_without_bytes(head: Head, word: Word, rest: Option<&[u8]>) -> Result<Event, FaultKind>
    requires { has_bytes word ≡ false }
    ensures { Tells (λ event. event) result (event_of head.version head.cpus word (fields_of rest.entry)) }
{
    match word {
        Word::At => at(rest),
        Word::On => on(head, rest),
        Word::Credit => credit(rest),
        Word::Irq => irq(rest),
        Word::Input => input(rest),
        Word::Read => read(rest),
        Word::Vread => vread(rest),
        Word::Kread => kread(rest),
        Word::Dread => dread(rest),
        Word::Uread => uread(rest),
        Word::Fork => fork(rest),
        Word::Inside => inside(rest),
        Word::Prepare => prepare(head, rest),
        Word::Online => online(head, rest),
        Word::State => state(head.version, rest),
        Word::End => Err(FaultKind::UnknownWord),
        _ => plain(alone(word), rest),
    }
}

/// The event of a word and the fields after it.
pub(crate) fn event_of(
    alloc: Global,
    head: Head,
    word: Word,
    rest: Option<&[u8]>,
) -> Result<Event, LineError>
    ensures { Gives (λ event. event) result (event_of head.version head.cpus word (fields_of rest.entry)) }
{
    match word {
        Word::Hw => hw(alloc, rest),
        Word::Device => device(alloc, rest),
        Word::Write => write(alloc, rest),
        Word::Add => add(alloc, rest),
        Word::Vmfork => vmfork(alloc, head.version, rest),
        _ => Ok(event_without_bytes(head, word, rest)?),
    }
}
