//! The lists of the vgetrandom states of all callers.
ghost use Rattle.std.specs.Prelude.{◌≡◌, ◌<◌, ℕ, IfOk, List, map, length, take, slice_get, unwrap_or};
ghost use Rattle.key_names.specs.Lanes.Book.{list_at};
ghost use Rattle.key_names.specs.Callers.Calls.{Call};
ghost use Rattle.key_names.specs.Callers.History.{calls_steps};
ghost use Rattle.key_names.specs.Transcripts.IsTranscript.{script_calls};
ghost use Rattle.key_names.specs.Transcripts.SeenLine.{SeenLine};
ghost use Rattle.key_names.specs.Texts.ScriptGrammar.{Script};
ghost use Rattle.judge_lines.specs.Begun.{PartsConform};
ghost use Rattle.judge_lines.specs.Called.{seen_call, seen_calls};
ghost use Rattle.judge_lines.specs.Orders.{all_forks};
ghost use Rattle.audit_keys.specs.StateCut.{AreCut};
ghost use Rattle.audit_keys.specs.Entries.{all_lists_in};
ghost use Rattle.audit_keys.specs.Laws.{AreStateLists};
ghost use Rattle.audit_keys.specs.Stamped.{kept_lists, all_kept, caller_over, all_over};
ghost use Rattle.audit_keys.specs.Stamps.{start_stamp, AreStarts};
ghost use Rattle.audit_keys.specs.ListedEnds.{AreListedEnds};

use crate::caller::AuditedCaller;
use crate::entry::StateEntry;
use crate::stamps::latest;
use judge_lines::begin::TranscriptParts;
use judge_lines::called::CalledLines;
use judge_lines::order::{Fork, all_own_steps, front_of};
use key_names::Step;
use std::alloc::{AllocError, Global};

// The first `count` steps, or all of them if there are fewer.
fn first_steps(steps: &[Step], count: usize) -> &[Step]
    ensures { result.now ≡ take count steps.now }
{
    steps.get(..count).unwrap_or(steps)
}

// The own steps of the fork's parent before the fork.
fn steps_before<'a>(own: &'a [Vec<Step>], fork: Fork) -> &'a [Step]
    ensures { (callers : List (List Call)) → map (λ own. own.items) own.now ≡ map calls_steps callers →
        result.now ≡ take fork.steps (calls_steps (list_at callers fork.parent)) }
{
    match own.get(fork.parent as usize) {
        Some(steps) => first_steps(steps, fork.steps),
        None => &[],
    }
}

/// The stamp at a caller's start, or 0 if `starts` has none for this caller.
pub(crate) fn start_at(starts: &[u64], caller: usize) -> u64
    ensures { result ≡ unwrap_or (slice_get starts.now caller) 0 }
{
    starts.get(caller).copied().unwrap_or(0)
}

// The stamp of the last visit before a caller's start. `starts` has these stamps for all callers of lower number.
fn start_stamp(starts: &[u64], own: &[Vec<Step>], forks: &[Fork], caller: usize) -> u64
    ensures { (callers : List (List Call)) → map (λ own. own.items) own.now ≡ map calls_steps callers →
        forks.now ≡ all_forks 0 callers → length starts.now ≡ caller →
        ((p : ℕ) → p < caller → unwrap_or (slice_get starts.now p) 0 ≡ start_stamp callers p) →
        result ≡ start_stamp callers caller }
{
    match front_of(forks, caller) {
        None => 0,
        Some(fork) => latest(
            start_at(starts, fork.parent as usize),
            steps_before(own, fork),
        ),
    }
}

// For each caller, the stamp of the last visit before its start (made by an ancestor).
fn start_stamps(alloc: Global, own: &[Vec<Step>], forks: &[Fork]) -> Result<Vec<u64>, AllocError>
    ensures { IfOk result (λ starts. (callers : List (List Call)) →
        map (λ own. own.items) own.now ≡ map calls_steps callers → forks.now ≡ all_forks 0 callers →
        (c : ℕ) → c < length callers → unwrap_or (slice_get starts.items c) 0 ≡ start_stamp callers c) }
{
    let mut starts = Vec::new(alloc);
    for caller in 0..own.len() {
        let stamp = start_stamp(&starts, own, forks, caller);
        starts.push(stamp)?;
    }
    Ok(starts)
}

// The lists of the states of a caller with these calls. `stamp` is the stamp of the last visit before the first call.
fn caller_lists(
    alloc: Global,
    stamp: u64,
    calls: &[CalledLines<'_>],
) -> Result<Vec<Vec<StateEntry>>, AllocError>
    ensures { IfOk result (λ lists. kept_lists lists.items ≡ caller_over stamp (map seen_call calls.now)) }
{
    let mut caller = AuditedCaller::start(alloc, stamp)?;
    for (number, call) in calls.iter().enumerate() {
        caller.call(alloc, number, call)?;
    }
    Ok(caller.lists())
}

// The lists of the states of all callers.
fn all_lists(
    alloc: Global,
    starts: &[u64],
    callers: &[Vec<CalledLines<'_>>],
) -> Result<Vec<Vec<Vec<StateEntry>>>, AllocError>
    ensures { IfOk result (λ lists. all_kept lists.items
        ≡ all_over (λ c. unwrap_or (slice_get starts.now c) 0) 0 (seen_calls callers.now)) }
{
    let mut lists = Vec::with_capacity(alloc, callers.len())?;
    for (number, calls) in callers.iter().enumerate() {
        let start = start_at(starts, number);
        lists.push(caller_lists(alloc, start, calls)?)?;
    }
    Ok(lists)
}

/// For each caller, the stamp of the last visit that its ancestors made before the caller's start. The stamp is 0 if
/// there was no such visit.
///
/// # Errors
///
/// `AllocError` if there is no memory for them.
pub(crate) fn starts_of(alloc: Global, parts: &TranscriptParts<'_>) -> Result<Vec<u64>, AllocError>
    ensures { (script : Script) (t : List (List SeenLine)) → PartsConform script t parts.now →
        IfOk result (λ starts. AreStarts (script_calls script t) starts.items) }
{
    let own = all_own_steps(alloc, &parts.calls)?;
    let starts = start_stamps(alloc, &own, &parts.forks)?;
    Ok(starts)
}

/// For each of the sixteen vgetrandom states of each caller, the entries that the caller's calls leave, in order. Each
/// entry is listed with the call that left it: the call's number, the stamp when the call was over, and its line.
///
/// # Errors
///
/// `AllocError` if there is no memory for them.
pub fn state_lists(
    alloc: Global,
    parts: &TranscriptParts<'_>,
) -> Result<Vec<Vec<Vec<StateEntry>>>, AllocError>
    ensures lists { IfOk result (λ lists. AreStateLists (seen_calls parts.now.calls.items) (all_lists_in lists.items)) }
    ensures cut { (script : Script) (t : List (List SeenLine)) → PartsConform script t parts.now →
        IfOk result (λ lists. AreCut (script_calls script t) lists.items) }
    ensures ends { (script : Script) (t : List (List SeenLine)) → PartsConform script t parts.now →
        IfOk result (λ lists. AreListedEnds (script_calls script t) (all_kept lists.items)) }
{
    let starts = starts_of(alloc, parts)?;
    let lists = all_lists(alloc, &starts, &parts.calls)?;
    Ok(lists)
}
