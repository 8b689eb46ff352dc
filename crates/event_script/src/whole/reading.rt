//! A script's text, line by line.

ghost use Rattle.std.specs.Prelude.{◌≡◌, ℕ, ◌<◌, ◌≤◌, ◌++◌, List, IfOk, length};
ghost use Rattle.std.specs.Bool.{OnFalse};
ghost use Rattle.key_names.specs.Texts.ScriptFaults.{SaidInRange, after, following, after_first, cpus_by, cpus_in, line_of, nothing_after, parts, start_in, version_in, version_of};
ghost use Rattle.key_names.specs.Texts.ScriptGrammar.{most_cpus};
ghost use Rattle.event_script.specs.Drafts.{draft_as};
ghost use Rattle.event_script.specs.Feeding.{IsWhole};
ghost use Rattle.event_script.specs.Says.{said_as, said_first};
ghost use Rattle.event_script.specs.ScriptViews.{next_as, script_error};
ghost use Rattle.event_script.specs.Views.{Gives, Tells};

use crate::numbers::number_up_to;
use crate::script_error::ScriptError;
use crate::statements::fields::{cut, spells, two};
use crate::statements::head::Head;
use crate::statements::line::{ScriptLine, has_bad_byte, line_says};
use crate::statements::short::{irq_in_front, short_event, short_line};
use crate::whole::draft::Draft;
use crate::whole::error::LineError;
use key_names::{Event, FaultKind, ScriptFault};
use std::alloc::Global;

/// The first line of a text, and the text after this line.
fn first_line(text: &[u8]) -> Result<(&[u8], &[u8]), FaultKind>
    ensures line { Tells (λ both. both.0.now) result (line_of (parts 10 text.now)) }
    ensures rest { IfOk result (λ both. parts 10 both.1.now ≡ following (parts 10 text.now)) }
    ensures shorter { IfOk result (λ both. length both.1.now < length text.now) }
{
    let Some((line, rest)) = cut(b'\n', text) else {
        return Err(FaultKind::Unfinished);
    };
    if has_bad_byte(line) {
        return Err(FaultKind::BadByte);
    }
    Ok((line, rest))
}

fn version_of(line: &[u8]) -> Result<u32, FaultKind>
    ensures { Tells (λ version. version) result (version_of line.now) }
{
    if spells(line, b"rngscript 1") {
        return Ok(1);
    }
    if spells(line, b"rngscript 2") {
        return Ok(2);
    }
    if spells(line, b"rngscript 3") {
        return Ok(3);
    }
    Err(FaultKind::BadHead)
}

/// The most CPUs that a script of this version may have.
fn most_cpus(version: u32) -> u64
    ensures { result ≡ most_cpus version }
{
    if version < 3 { 64 } else { 256 }
}

fn cpus_of(version: u32, line: &[u8]) -> Result<u32, FaultKind>
    ensures cpus { Tells (λ cpus. cpus) result (cpus_by version (parts 32 line.now)) }
    ensures range { IfOk result (λ cpus. (0 < cpus) × (cpus ≤ 256)) }
{
    let Ok((first, count)) = two(Some(line)) else {
        return Err(FaultKind::BadCpus);
    };
    if !spells(first, b"cpus") {
        return Err(FaultKind::BadCpus);
    }
    match number_up_to(most_cpus(version), count) {
        None | Some(0) => Err(FaultKind::BadCpus),
        Some(cpus) => Ok(cpus as u32),
    }
}

/// The statement of a text's first line, read field by field, and the text after the line.
// A separate function, so that the loop over the lines keeps their text in registers.
#[inline(never)]
fn said_by_fields(alloc: Global, head: Head, text: &[u8]) -> Result<(ScriptLine, &[u8]), LineError>
    ensures value { Gives (λ both. said_as both.0) result (said_first head.version head.cpus (parts 10 text.now)) }
    ensures range { IfOk result (λ both. SaidInRange head.version head.cpus (said_as both.0)) }
    ensures rest { IfOk result (λ both. parts 10 both.1.now ≡ following (parts 10 text.now)) }
    ensures shorter { IfOk result (λ both. length both.1.now < length text.now) }
{
    let (line, rest) = first_line(text)?;
    Ok((line_says(alloc, head, line)?, rest))
}

/// The statement of a text's first line, and the text after the line.
fn next_said(alloc: Global, head: Head, text: &[u8]) -> Result<(ScriptLine, &[u8]), LineError>
    ensures value { Gives (λ both. said_as both.0) result (said_first head.version head.cpus (parts 10 text.now)) }
    ensures range { IfOk result (λ both. SaidInRange head.version head.cpus (said_as both.0)) }
    ensures rest { IfOk result (λ both. parts 10 both.1.now ≡ following (parts 10 text.now)) }
    ensures shorter { IfOk result (λ both. length both.1.now < length text.now) }
{
    if let Some((word, numbers, rest)) = short_line(text) {
        return Ok((ScriptLine::Event(short_event(word, numbers)), rest));
    }
    said_by_fields(alloc, head, text)
}

/// Adds the statement of a line to a script. Returns whether more lines may follow.
fn add_said(alloc: Global, draft: &mut Draft, said: ScriptLine) -> Result<bool, LineError>
    requires { SaidInRange draft.old.head.version draft.old.head.cpus (said_as said) }
    ensures next { Gives (λ more. next_as more (draft_as draft.new)) result (after (draft_as draft.old) (said_as said)) }
    ensures same { draft.new.head ≡ draft.old.head }
    ensures kept { IfOk result (λ more. OnFalse more (draft_as draft.new ≡ draft_as draft.old)) }
{
    match said {
        ScriptLine::Event(event) => {
            draft.add_event(event)?;
            Ok(true)
        }
        ScriptLine::Caller(number) => {
            draft.add_block(alloc, number)?;
            Ok(true)
        }
        ScriptLine::End => {
            if draft.has_orphan() {
                return Err(LineError::Kind(FaultKind::Unforked));
            }
            Ok(false)
        }
    }
}

pub(crate) fn fault(line: u32, kind: FaultKind) -> ScriptFault
    ensures { result ≡ record { line = line; kind = kind } }
{
    ScriptFault { line, kind }
}

pub(crate) fn at_line(line: u32, error: LineError) -> ScriptError
    ensures { result ≡ script_error line error }
{
    match error {
        LineError::Kind(kind) => ScriptError::Fault(fault(line, kind)),
        LineError::Memory => ScriptError::NoMemory,
    }
}

/// The version that a script's first line contains, and the text after this line.
pub(crate) fn read_version(text: &[u8]) -> Result<(u32, &[u8]), FaultKind>
    ensures version { Tells (λ both. both.0) result (version_in (parts 10 text.now)) }
    ensures rest { IfOk result (λ both. parts 10 both.1.now ≡ following (parts 10 text.now)) }
    ensures shorter { IfOk result (λ both. length both.1.now < length text.now) }
{
    let (line, rest) = first_line(text)?;
    let version = version_of(line)?;
    Ok((version, rest))
}

/// The number of CPUs that a script's second line contains, and the text after this line.
pub(crate) fn read_cpus(version: u32, text: &[u8]) -> Result<(u32, &[u8]), FaultKind>
    ensures cpus { Tells (λ both. both.0) result (cpus_in version (parts 10 text.now)) }
    ensures range { IfOk result (λ both. (0 < both.0) × (both.0 ≤ 256)) }
    ensures rest { IfOk result (λ both. parts 10 both.1.now ≡ following (parts 10 text.now)) }
    ensures shorter { IfOk result (λ both. length both.1.now < length text.now) }
{
    let (line, rest) = first_line(text)?;
    let cpus = cpus_of(version, line)?;
    Ok((cpus, rest))
}

/// The draft with the empty block of caller 0, and the text after the line `caller 0`.
pub(crate) fn read_start(
    alloc: Global,
    head: Head,
    text: &[u8],
) -> Result<(Draft, &[u8]), LineError>
    ensures start { Gives (λ both. draft_as both.0) result (start_in head.version head.cpus (parts 10 text.now)) }
    ensures rest { IfOk result (λ both. parts 10 both.1.now ≡ following (parts 10 text.now)) }
    ensures shorter { IfOk result (λ both. length both.1.now < length text.now) }
{
    let (line, rest) = first_line(text)?;
    match line_says(alloc, head, line)? {
        ScriptLine::Caller(0) => Ok((Draft::new(alloc, head)?, rest)),
        _ => Err(LineError::Kind(FaultKind::BadCaller)),
    }
}

/// Adds the next line to a script. Returns whether more lines may follow, and the text after the line.
pub(crate) fn read_line<'a>(
    alloc: Global,
    draft: &mut Draft,
    text: &'a [u8],
) -> Result<(bool, &'a [u8]), LineError>
    ensures next { Gives (λ both. next_as both.0 (draft_as draft.new)) result
        (after_first (draft_as draft.old) (parts 10 text.now)) }
    ensures same { draft.new.head ≡ draft.old.head }
    ensures kept { IfOk result (λ both. OnFalse both.0 (draft_as draft.new ≡ draft_as draft.old)) }
    ensures rest { IfOk result (λ both. parts 10 both.1.now ≡ following (parts 10 text.now)) }
    ensures shorter { IfOk result (λ both. length both.1.now < length text.now) }
{
    if let Some((v1, v2, rest)) = irq_in_front(text) {
        draft.add_light(Event::Irq { v1, v2 })?;
        return Ok((true, rest));
    }
    let (said, rest) = next_said(alloc, draft.head, text)?;
    let more = add_said(alloc, draft, said)?;
    Ok((more, rest))
}

/// The fault of the first line after the line `end`.
pub(crate) fn kind_after_end(text: &[u8]) -> FaultKind
    requires whole { IsWhole text.now }
    requires some { 0 < length text.now }
    ensures { (number : ℕ) (later : List ℕ) → nothing_after number (parts 10 (text.now ++ later))
        ≡ Err (record { line = number; kind = result }) }
{
    match first_line(text) {
        Ok(_) => FaultKind::UnknownWord,
        Err(kind) => kind,
    }
}
