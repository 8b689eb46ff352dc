//! The call of each line of a caller, and the stamp when that call was over.
ghost use Rattle.std.specs.Prelude.{◌≡◌, ◌++◌, IfOk, List, OnOk, map, slice_get, unwrap_or};
ghost use Rattle.key_names.specs.Transcripts.IsTranscript.{script_calls};
ghost use Rattle.key_names.specs.Transcripts.SeenLine.{SeenLine};
ghost use Rattle.key_names.specs.Texts.ScriptGrammar.{Script};
ghost use Rattle.judge_lines.specs.Begun.{PartsConform};
ghost use Rattle.judge_lines.specs.Called.{seen_act, seen_call, seen_calls};
ghost use Rattle.audit_keys.specs.LineEnds.{call_ends, lines_in, line_ends, all_line_ends, act_ends, AreLineEnds};

use crate::lists::{start_at, starts_of};
use crate::stamps::{after_call, own_line};
use judge_lines::begin::TranscriptParts;
use judge_lines::called::{ActLine, CalledLines};
use std::alloc::{AllocError, Global};

/// A line of a caller, and its call. The lines of the acts inside a `vread` are lines of the `vread`'s call.
#[derive(Clone, Copy, Debug, PartialEq, Eq)]
pub struct LineEnd {
    /// The number of the line's event.
    pub event: u32,
    /// The number of the call among the caller's calls, from 0.
    pub call: usize,
    /// The stamp of the last visit before the end of the call. The caller made this visit, or an ancestor made it
    /// before the caller's start. The stamp is 0 if there was no such visit.
    pub stamp: u64,
}

// Adds the ends of the lines of the acts inside a call, which has this number and was over at this stamp.
fn push_acts(
    lines: &mut Vec<LineEnd>,
    call: usize,
    stamp: u64,
    acts: &[ActLine<'_>],
) -> Result<(), AllocError>
    ensures { OnOk result (lines.new.items ≡ lines.old.items ++ act_ends call stamp (map seen_act acts.now)) }
{
    for act in acts {
        lines.push(LineEnd {
            event: act.line.event,
            call,
            stamp,
        })?;
    }
    Ok(())
}

// Adds the ends of all lines of a call, which has this number and was over at this stamp.
fn push_call(
    lines: &mut Vec<LineEnd>,
    number: usize,
    stamp: u64,
    call: &CalledLines<'_>,
) -> Result<(), AllocError>
    ensures { OnOk result (lines.new.items ≡ lines.old.items ++ call_ends number stamp (seen_call call.now)) }
{
    if let CalledLines::Vread { acts, .. } = call {
        push_acts(lines, number, stamp, acts)?;
    }
    let line = own_line(call);
    lines.push(LineEnd {
        event: line.event,
        call: number,
        stamp,
    })?;
    Ok(())
}

// The ends of the lines of a caller with these calls. `stamp` is the stamp of the last visit before the first call.
fn caller_lines(
    alloc: Global,
    stamp: u64,
    calls: &[CalledLines<'_>],
) -> Result<Vec<LineEnd>, AllocError>
    ensures { IfOk result (λ lines. lines.items ≡ line_ends 0 stamp (map seen_call calls.now)) }
{
    let mut lines = Vec::new(alloc);
    let mut over = stamp;
    for (number, call) in calls.iter().enumerate() {
        over = after_call(over, call);
        push_call(&mut lines, number, over, call)?;
    }
    Ok(lines)
}

// The ends of the lines of all callers.
fn all_lines(
    alloc: Global,
    starts: &[u64],
    callers: &[Vec<CalledLines<'_>>],
) -> Result<Vec<Vec<LineEnd>>, AllocError>
    ensures { IfOk result (λ lines. lines_in lines.items
        ≡ all_line_ends (λ c. unwrap_or (slice_get starts.now c) 0) 0 (seen_calls callers.now)) }
{
    let mut lines = Vec::with_capacity(alloc, callers.len())?;
    for (number, calls) in callers.iter().enumerate() {
        let start = start_at(starts, number);
        lines.push(caller_lines(alloc, start, calls)?)?;
    }
    Ok(lines)
}

/// The lines of each caller, each with its call and the stamp when the call was over.
///
/// # Errors
///
/// `AllocError` if there is no memory for them.
pub fn line_ends(
    alloc: Global,
    parts: &TranscriptParts<'_>,
) -> Result<Vec<Vec<LineEnd>>, AllocError>
    ensures { (script : Script) (t : List (List SeenLine)) → PartsConform script t parts.now →
        IfOk result (λ lines. AreLineEnds (script_calls script t) lines.items) }
{
    let starts = starts_of(alloc, parts)?;
    let lines = all_lines(alloc, &starts, &parts.calls)?;
    Ok(lines)
}
