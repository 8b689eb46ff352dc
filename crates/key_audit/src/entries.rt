//! The entries of all vgetrandom states, without the calls that left the entries.
ghost use Rattle.std.specs.Prelude.{◌≡◌, IfOk, map};
ghost use Rattle.audit_keys.specs.Listed.{caller_lists};
ghost use Rattle.audit_keys.specs.Entries.{entries_in, lists_in, all_lists_in};
ghost use Rattle.audit_keys.specs.StateCut.{all_lists_by, entries_by, lists_by};
ghost use Rattle.key_audit.specs.Live.{cut_at};

use crate::until::Until;
use audit_keys::entry::{Cut, StateEntry};
use key_names::VEntry;
use std::alloc::{AllocError, Global};

fn list_entries(alloc: Global, list: &[StateEntry]) -> Result<Vec<VEntry>, AllocError>
    ensures { IfOk result (λ entries. entries.items ≡ entries_in list.now) }
{
    let mut entries = Vec::with_capacity(alloc, list.len())?;
    for one in list {
        entries.push(one.entry)?;
    }
    Ok(entries)
}

fn caller_entries(alloc: Global, lists: &[Vec<StateEntry>]) -> Result<Vec<Vec<VEntry>>, AllocError>
    ensures { IfOk result (λ entries. map (λ es. es.items) entries.items ≡ lists_in lists.now) }
{
    let mut entries = Vec::with_capacity(alloc, lists.len())?;
    for list in lists {
        entries.push(list_entries(alloc, list)?)?;
    }
    Ok(entries)
}

/// The entries of all vgetrandom states of all callers.
///
/// # Errors
///
/// `AllocError` if there is no memory for them.
pub(crate) fn all_entries(
    alloc: Global,
    callers: &[Vec<Vec<StateEntry>>],
) -> Result<Vec<Vec<Vec<VEntry>>>, AllocError>
    ensures { IfOk result (λ entries. caller_lists entries.items ≡ all_lists_in callers.now) }
{
    let mut entries = Vec::with_capacity(alloc, callers.len())?;
    for lists in callers {
        entries.push(caller_entries(alloc, lists)?)?;
    }
    Ok(entries)
}

// Those entries of `list`, a vgetrandom state's list, that `cut` keeps.
fn list_entries_by(alloc: Global, cut: Cut, list: &[StateEntry]) -> Result<Vec<VEntry>, AllocError>
    ensures { IfOk result (λ entries. entries.items ≡ entries_by cut list.now) }
{
    let mut entries = Vec::new(alloc);
    for one in list {
        if cut.keeps(one) {
            entries.push(one.entry)?;
        }
    }
    Ok(entries)
}

fn caller_entries_by(
    alloc: Global,
    cut: Cut,
    lists: &[Vec<StateEntry>],
) -> Result<Vec<Vec<VEntry>>, AllocError>
    ensures { IfOk result (λ entries. map (λ es. es.items) entries.items ≡ lists_by cut lists.now) }
{
    let mut entries = Vec::with_capacity(alloc, lists.len())?;
    for list in lists {
        entries.push(list_entries_by(alloc, cut, list)?)?;
    }
    Ok(entries)
}

/// The entries of all vgetrandom states of all callers that were left up to the moment `until`.
///
/// # Errors
///
/// `AllocError` if there is no memory for them.
pub(crate) fn entries_until(
    alloc: Global,
    until: Until,
    callers: &[Vec<Vec<StateEntry>>],
) -> Result<Vec<Vec<Vec<VEntry>>>, AllocError>
    ensures { IfOk result (λ entries. caller_lists entries.items ≡ all_lists_by (cut_at until) 0 callers.now) }
{
    let mut entries = Vec::with_capacity(alloc, callers.len())?;
    for (number, lists) in callers.iter().enumerate() {
        let cut = until.cut(number);
        entries.push(caller_entries_by(alloc, cut, lists)?)?;
    }
    Ok(entries)
}
