//! The message on standard error for a run that did not end well. No function here has a contract, so all of it is only
//! tested.

use crate::command::USAGE;
use crate::failing::{clause_name, failing_line};
use crate::stop::not_alone_line;
use event_script::numbers::number_up_to;
use io_edges::Source;
use key_names::{FaultKind, ScriptFault};
use std::alloc::Global;
use tool_ends::Status;
use tool_ends::refusal::{clause_in, fault_in};
use tool_ends::tee::TeeSource;

/// The most bytes of a line that a message shows.
pub(crate) const MOST_SHOWN: usize = 80;

/// The name of kind 13, with which only a session refuses a script.
const NOT_ALONE: &str = "a session has one caller, who forks nobody and acts inside no call";

/// The reason in a short answer: the fault of a script, the line of an event that no session takes, or the clause that
/// a transcript fails.
#[derive(Clone, Copy)]
pub(crate) enum Why {
    Fault(ScriptFault),
    NotAlone(u32),
    Clause(u8),
    /// The answer contains no reason.
    Unsaid,
}

// The line number in a session's refusal of a fork, or of an act inside a vgetrandom call. `None` for any other answer.
fn not_alone_in(answer: &[u8]) -> Option<u32> {
    let word = answer.split(|byte| *byte == b' ').nth(1)?;
    let number = number_up_to(u64::from(u32::MAX), word)? as u32;
    if not_alone_line(number).as_str().as_bytes() == answer {
        Some(number)
    } else {
        None
    }
}

/// The reason in the last line of an output (tested).
pub(crate) fn reason_of(answer: &[u8]) -> Why {
    if let Some(fault) = fault_in(answer) {
        return Why::Fault(fault);
    }
    if let Some(number) = not_alone_in(answer) {
        return Why::NotAlone(number);
    }
    match clause_in(answer) {
        Some(clause) => Why::Clause(clause),
        None => Why::Unsaid,
    }
}

// The kind of a fault, in words.
fn name_of(kind: FaultKind) -> &'static str {
    match kind {
        FaultKind::TooLong => "more than 16 MiB, or with a transcript 96 MiB",
        FaultKind::BadByte => "a byte that is not printable ASCII",
        FaultKind::BadHead => "no head of a version",
        FaultKind::BadCpus => "not cpus with a number that the version allows",
        FaultKind::UnknownWord => "unknown word, or wrong number of fields",
        FaultKind::BadNumber => "a number misspelt or out of range",
        FaultKind::BadHex => "bytes misspelt, or not the 32 of hw",
        FaultKind::BadCaller => "not the block of the next caller",
        FaultKind::BadFork => "a fork of a number too low or taken",
        FaultKind::Unforked => "a caller not forked, or without its block",
        FaultKind::TooMany => "too many events, read bytes or waiting acts",
        FaultKind::Unfinished => "no line end, or no line feed after the last line",
    }
}

// The line, if it has 1 to 80 bytes and is printable (tested).
pub(crate) fn shown_line(line: &[u8]) -> Option<&str> {
    if line.is_empty() || line.len() > MOST_SHOWN {
        return None;
    }
    if !line.iter().all(|byte| (b' '..=b'~').contains(byte)) {
        return None;
    }
    str::from_utf8(line).ok()
}

// Writes the line at which a script was refused, with the kind of the fault.
fn tell_line<R: Eprint, S: Source + Drop>(
    rt: &R,
    line: u32,
    number: u8,
    name: &str,
    input: &TeeSource<S>,
) {
    let _emitted = match input.line(line).and_then(shown_line) {
        Some(text) => eprintln!(rt; "rng: line {line}, kind {number}, {name}: {text}"),
        None => eprintln!(rt; "rng: line {line}, kind {number}, {name}"),
    };
}

// Writes the line of the transcript at which the clause fails.
fn tell_clause<R: Eprint, S: Source + Drop>(
    rt: &R,
    alloc: Global,
    clause: u8,
    input: &TeeSource<S>,
) {
    let name = clause_name(clause);
    let Some(text) = input.whole() else {
        let _emitted = eprintln!(rt;
            "rng: clause {clause}, {name}: no line is named, since the input was not kept whole"
        );
        return;
    };
    let _emitted = match failing_line(alloc, clause, text) {
        Ok(Some(line)) => eprintln!(rt; "rng: {line}"),
        Ok(None) => eprintln!(rt; "rng: clause {clause}, {name}"),
        Err(_) => eprintln!(rt;
            "rng: clause {clause}, {name}: there is no memory to find its line"
        ),
    };
}

// Writes the reason why an input was refused, or the line at which a transcript fails.
fn tell_why<R: Eprint, S: Source + Drop>(rt: &R, alloc: Global, why: Why, input: &TeeSource<S>) {
    match why {
        Why::Fault(ScriptFault { line, kind }) => {
            tell_line(rt, line, kind.number(), name_of(kind), input);
        }
        Why::NotAlone(line) => tell_line(rt, line, 13, NOT_ALONE, input),
        Why::Clause(clause) => tell_clause(rt, alloc, clause, input),
        Why::Unsaid => {}
    }
}

/// Writes one line to standard error if a command did not end well (tested): the usage; or the stream or the memory
/// that failed; or the reason why the input was refused; or the line at which a transcript fails.
pub(crate) fn tell<R: Eprint, S: Source + Drop>(
    rt: &R,
    alloc: Global,
    status: Status,
    why: Why,
    input: &TeeSource<S>,
) {
    let _emitted = match status {
        Status::Done => return,
        Status::No | Status::Refused => return tell_why(rt, alloc, why, input),
        Status::Usage => eprintln!(rt; "{USAGE}"),
        Status::ReadFault => eprintln!(rt; "rng: standard input could not be read"),
        Status::WriteFault => eprintln!(rt; "rng: standard output could not be written"),
        Status::NoMemory => eprintln!(rt; "rng: there is not enough memory"),
    };
}
