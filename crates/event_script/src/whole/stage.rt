//! How far the text of a script was read.
ghost use Rattle.std.specs.Prelude.{◌≡◌, ◌+◌, ◌<◌, ◌^◌, ◌==◌, ℕ, [], All, false, IfOk, length};
ghost use Rattle.key_names.specs.Texts.ScriptFaults.{parts, script_of_draft};
ghost use Rattle.event_script.specs.Drafts.{draft_as};
ghost use Rattle.event_script.specs.Feeding.{IsWhole, Leads, LeadsTo, goes, number_of};
ghost use Rattle.event_script.specs.ScriptViews.{GivesUnread};
ghost use Rattle.event_script.specs.declared.script_error.ScriptError.TheVariants.{Fault};
ghost use Rattle.key_names.specs.declared.faults.FaultKind.TheVariants.{Unfinished};
ghost use Rattle.event_script.specs.declared.whole.stage.ScriptStage.TheVariants.{Cpus, Ended, Lines, Start, Version};

use crate::script_error::{ScriptError, Unread};
use crate::statements::head::Head;
use crate::whole::draft::Draft;
use crate::whole::reading::{
    at_line, fault, kind_after_end, read_cpus, read_line, read_start, read_version,
};
use key_names::{FaultKind, ScriptFault};
use std::alloc::{AllocError, Global};

/// How far a script's text was read, with the content of the lines read.
#[derive(Drop)]
pub(crate) enum ScriptStage {
    /// The first line comes next.
    Version,
    /// The second line comes next.
    Cpus {
        version: u32,
    },
    /// The first block begins next.
    Start {
        head: Head,
    },
    /// Events and blocks may follow, or the line `end`. `number` is the number of the next line.
    Lines {
        draft: Draft,
        number: u32,
    },
    /// Nothing may follow. `number` is the number that a next line would have.
    Ended {
        draft: Draft,
        number: u32,
    },
    /// The text has this first fault, whatever follows. The faulty line is kept if there was memory for it.
    Faulty {
        fault: ScriptFault,
        line: Option<Vec<u8>>,
    },
}

fn after_version(text: &[u8]) -> Result<(ScriptStage, &[u8]), ScriptError>
    requires whole { IsWhole text.now }
    requires some { 0 < length text.now }
    ensures { Leads Version text.now result }
{
    match read_version(text) {
        Ok((version, rest)) => Ok((ScriptStage::Cpus { version }, rest)),
        Err(kind) => Err(ScriptError::Fault(fault(1, kind))),
    }
}

fn after_cpus(version: u32, text: &[u8]) -> Result<(ScriptStage, &[u8]), ScriptError>
    requires whole { IsWhole text.now }
    requires some { 0 < length text.now }
    ensures { Leads (Cpus version) text.now result }
{
    match read_cpus(version, text) {
        Ok((cpus, rest)) => Ok((
            ScriptStage::Start {
                head: Head { version, cpus },
            },
            rest,
        )),
        Err(kind) => Err(ScriptError::Fault(fault(2, kind))),
    }
}

fn after_start(alloc: Global, head: Head, text: &[u8]) -> Result<(ScriptStage, &[u8]), ScriptError>
    requires whole { IsWhole text.now }
    requires some { 0 < length text.now }
    ensures { Leads (Start head) text.now result }
{
    match read_start(alloc, head, text) {
        Ok((draft, rest)) => Ok((ScriptStage::Lines { draft, number: 4 }, rest)),
        Err(error) => Err(at_line(3, error)),
    }
}

/// Reads lines up to the line `end`, or all lines if none is `end`.
// If this function were inlined, the loop would keep its place in the text on the stack.
#[inline(never)]
fn after_lines<'a>(
    alloc: Global,
    mut draft: Draft,
    number: u32,
    text: &'a [u8],
) -> Result<(ScriptStage, &'a [u8]), ScriptError>
    requires whole { IsWhole text.now }
    requires some { 0 < length text.now }
    requires short { number + length text.now < 2 ^ 32 }
    ensures { Leads (Lines draft number) text.now result }
{
    let mut left = text;
    let mut number = number;
    while !left.is_empty() {
        let (more, rest) = match read_line(alloc, &mut draft, left) {
            Ok(both) => both,
            Err(error) => return Err(at_line(number, error)),
        };
        number += 1;
        left = rest;
        if !more {
            return Ok((ScriptStage::Ended { draft, number }, left));
        }
    }
    Ok((ScriptStage::Lines { draft, number }, left))
}

impl ScriptStage {
    /// The number of the next line, or 0 after a fault.
    pub(crate) fn number(&self) -> u32
        ensures { result ≡ number_of self.now }
    {
        match self {
            ScriptStage::Version => 1,
            ScriptStage::Cpus { .. } => 2,
            ScriptStage::Start { .. } => 3,
            ScriptStage::Lines { number, .. } | ScriptStage::Ended { number, .. } => *number,
            ScriptStage::Faulty { .. } => 0,
        }
    }

    /// Consumes one or more lines; returns the next stage and the remaining text.
    fn following(self, alloc: Global, text: &[u8]) -> Result<(ScriptStage, &[u8]), ScriptError>
        requires whole { IsWhole text.now }
        requires some { 0 < length text.now }
        requires short { number_of self + length text.now < 2 ^ 32 }
        ensures { Leads self text.now result }
    {
        match self {
            ScriptStage::Version => after_version(text),
            ScriptStage::Cpus { version } => after_cpus(version, text),
            ScriptStage::Start { head } => after_start(alloc, head, text),
            ScriptStage::Lines { draft, number } => after_lines(alloc, draft, number, text),
            ScriptStage::Ended { number, .. } => {
                Err(ScriptError::Fault(fault(number, kind_after_end(text))))
            }
            ScriptStage::Faulty { fault, line } => Ok((ScriptStage::Faulty { fault, line }, &[])),
        }
    }

    /// The stage after a text of whole lines.
    ///
    /// # Errors
    ///
    /// `AllocError` if there is no memory for the content of these lines.
    pub(crate) fn read(self, alloc: Global, text: &[u8]) -> Result<ScriptStage, AllocError>
        requires whole { IsWhole text.now }
        requires short { number_of self + length text.now < 2 ^ 32 }
        ensures { IfOk result (λ next. LeadsTo self text.now next []) }
    {
        let mut stage = self;
        let mut left = text;
        while !left.is_empty() {
            let number = stage.number();
            (stage, left) = match stage.following(alloc, left) {
                Ok(both) => both,
                Err(ScriptError::Fault(fault)) => {
                    let line = faulty_line(alloc, left, fault.line.saturating_sub(number));
                    return Ok(ScriptStage::Faulty { fault, line });
                }
                Err(ScriptError::NoMemory) => return Err(AllocError),
            };
        }
        Ok(stage)
    }

    /// Ends the text, whose incomplete last line is `front`, and returns the text's script as a draft. The text is a
    /// script only if `front` is empty.
    pub(crate) fn finish(self, front: Vec<u8>) -> Result<Draft, Unread>
        requires { All (λ b. (b == 10) ≡ false) front.items }
        ensures { GivesUnread (λ d. script_of_draft (draft_as d)) result (goes self (parts 10 front.items)) }
    {
        match self {
            ScriptStage::Version => Err(unfinished(1, front)),
            ScriptStage::Cpus { .. } => Err(unfinished(2, front)),
            ScriptStage::Start { .. } => Err(unfinished(3, front)),
            ScriptStage::Lines { number, .. } => Err(unfinished(number, front)),
            ScriptStage::Ended { draft, number } => {
                if front.is_empty() {
                    Ok(draft)
                } else {
                    Err(unfinished(number, front))
                }
            }
            ScriptStage::Faulty { fault, line } => Err(Unread::at(fault, line)),
        }
    }
}

fn unfinished(number: u32, front: Vec<u8>) -> Unread
    ensures { result.error ≡ Fault (record { line = number; kind = Unfinished }) }
{
    Unread::at(fault(number, FaultKind::Unfinished), Some(front))
}

/// The text's line with the number `before`, counted from 0, if there is memory for the line.
fn faulty_line(alloc: Global, text: &[u8], before: u32) -> Option<Vec<u8>> {
    let line = text.split(|byte| *byte == b'\n').nth(before as usize)?;
    let mut kept = Vec::new(alloc);
    kept.extend_from_slice(line).ok()?;
    Some(kept)
}
