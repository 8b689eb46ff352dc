//! Finds the first line at which the clause on forms fails.
ghost use Rattle.std.specs.Prelude.{◌≡◌, map};
ghost use Rattle.std.specs.List.{AllByRecursion};
ghost use Rattle.key_names.specs.Texts.ScriptGrammar.{WellFormed};
ghost use Rattle.judge_lines.specs.Called.{seen_call, seen_calls};
ghost use Rattle.judge_log.specs.Said.{CallInRange};

use crate::other_entries::first_other_entry;
use crate::place::{Expected, FailedLine};
use event_script::Script;
use judge_lines::bare::BareLine;
use judge_lines::begin::{Begun, begin};
use judge_lines::called::CalledLines;
use judge_lines::setting::LineSetting;
use judge_lines::settings::all_settings;
use judge_log::calls::caller_said;
use judge_log::gather::gather;
use judge_log::said::Whole;
use judge_log::{Lists, replay_lists};
use key_names::{LaneId, Step};
use std::alloc::{AllocError, Global};

fn has_absent(cpus: u32, steps: &[Step]) -> bool {
    for step in steps {
        if let Step::Visit(mark) = step {
            if let LaneId::Cpu(cpu) = mark.lane {
                if cpu >= cpus {
                    return true;
                }
            }
        }
    }
    false
}

// The first line that visits a CPU that the script does not have.
fn first_absent(cpus: u32, callers: &[Vec<BareLine<'_>>]) -> Option<FailedLine> {
    for lines in callers {
        for (line, bare) in lines.iter().enumerate() {
            if has_absent(cpus, bare.steps) {
                return Some(FailedLine {
                    caller: bare.caller,
                    line,
                    expected: Expected::CpuBelow(cpus),
                });
            }
        }
    }
    None
}

// Whether the steps of each of these calls match a form of the call. The answers and data made from the steps are
// dropped, so the caller's number does not matter.
fn are_forms(
    alloc: Global,
    calls: &[CalledLines<'_>],
    settings: &[LineSetting],
    lists: &Lists,
) -> Result<bool, AllocError>
    requires { AllByRecursion CallInRange (map seen_call calls.now) }
{
    let said = caller_said(alloc, calls, settings, lists, &Whole, 0)?;
    Ok(said.is_some())
}

// Finds by bisection a number of calls, counted from the caller's first. The steps of each of these calls match a form,
// but the steps of the next call match none.
fn most_forms(
    alloc: Global,
    calls: &[CalledLines<'_>],
    settings: &[LineSetting],
    lists: &Lists,
) -> Result<usize, AllocError>
    requires { AllByRecursion CallInRange (map seen_call calls.now) }
{
    let mut least = 0;
    let mut most = calls.len();
    while most - least > 1 {
        let middle = least + (most - least) / 2;
        if are_forms(alloc, &calls[..middle], settings, lists)? {
            least = middle;
        } else {
            most = middle;
        }
    }
    Ok(least)
}

// The line of a call. If the call is a `vread` with acts inside it, this is the line of the `vread`.
fn line_of<'a>(call: &CalledLines<'a>) -> BareLine<'a> {
    match call {
        CalledLines::Alone { line, .. }
        | CalledLines::Vread { line, .. }
        | CalledLines::Ending(line) => *line,
        CalledLines::Unbound(act) => act.line,
    }
}

// The first line of a caller with steps that match no form.
fn first_of_caller(
    alloc: Global,
    calls: &[CalledLines<'_>],
    settings: &[LineSetting],
    lists: &Lists,
) -> Result<Option<FailedLine>, AllocError>
    requires { AllByRecursion CallInRange (map seen_call calls.now) }
{
    if are_forms(alloc, calls, settings, lists)? {
        return Ok(None);
    }
    let count = most_forms(alloc, calls, settings, lists)?;
    let Some(call) = calls.get(count) else {
        return Ok(None);
    };
    let line = line_of(call);
    Ok(Some(FailedLine {
        caller: line.caller,
        line: line.event as usize,
        expected: Expected::Steps,
    }))
}

fn first_of_all(
    alloc: Global,
    callers: &[Vec<CalledLines<'_>>],
    settings: &[Vec<LineSetting>],
    lists: &Lists,
) -> Result<Option<FailedLine>, AllocError>
    requires { AllByRecursion (AllByRecursion CallInRange) (seen_calls callers.now) }
{
    for (caller, calls) in callers.iter().enumerate() {
        let Some(found) = settings.get(caller) else {
            return Ok(None);
        };
        let place = first_of_caller(alloc, calls, found, lists)?;
        if place.is_some() {
            return Ok(place);
        }
    }
    Ok(None)
}

/// The first line that visits a CPU that does not exist. If there is none, the line of the first visit at which the
/// lane allows no entry that fits the line's steps. If there is none, the first line with steps that match no form.
/// This is tested, not proved. The clauses on lines and marks must hold.
///
/// # Errors
///
/// `AllocError` if there is no memory to find the line.
pub(crate) fn first_other_form(
    alloc: Global,
    script: &Script,
    lines: &[Vec<BareLine<'_>>],
) -> Result<Option<FailedLine>, AllocError>
    requires { WellFormed script.now }
{
    let place = first_absent(script.cpus(), lines);
    if place.is_some() {
        return Ok(place);
    }
    let parts = match begin(alloc, script, lines)? {
        Begun::Conforms(parts) => parts,
        Begun::No(_) => return Ok(None),
    };
    let settings = all_settings(alloc, &parts.calls, &parts.forks)?;
    let Some(inferred) = gather(alloc, script, &parts, &settings)? else {
        return Ok(None);
    };
    match replay_lists(alloc, &inferred)? {
        Some(lists) => first_of_all(alloc, &parts.calls, &settings, &lists),
        None => first_other_entry(alloc, &inferred, lines),
    }
}
