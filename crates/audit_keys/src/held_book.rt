//! The keys and rests that a book holds after its last entries. `listed` also gives births, endings and uses.
ghost use Rattle.std.specs.Prelude.{◌≡◌, ◌++◌, IfOk, OnOk, map};
ghost use Rattle.key_names.specs.Lanes.Book.{Lists as BookLists, list_at};
ghost use Rattle.audit_keys.specs.Listed.{HasEntries, book_tells, caller_lists, caller_tells, callers_tell, cpu_lists, cpus_tell};

use crate::held::HeldMaterial;
use crate::listed::number_of;
use crate::state_uses::StateOf;
use judge_log::{KeptCpu, Lists};
use key_names::VEntry;
use std::alloc::{AllocError, Global};

// Adds the keys and the rests of batches that each CPU holds.
fn add_cpus(held: &mut HeldMaterial, cpus: &[Vec<KeptCpu>]) -> Result<(), AllocError>
    ensures keys { (lists : BookLists) → cpu_lists cpus.now ≡ lists.cpus →
        OnOk result (held.new.keys.items ≡ held.old.keys.items ++ (cpus_tell lists).keys) }
    ensures rests { (lists : BookLists) → cpu_lists cpus.now ≡ lists.cpus →
        OnOk result (held.new.rests.items ≡ held.old.rests.items ++ (cpus_tell lists).rests) }
{
    for (index, lane) in cpus.iter().enumerate() {
        let number = number_of(index)?;
        held.add_cpu(number, lane)?;
    }
    Ok(())
}

// Adds the keys and the rests of batches that each vgetrandom state of a caller holds.
fn add_states(
    held: &mut HeldMaterial,
    caller: u32,
    states: &[Vec<VEntry>],
) -> Result<(), AllocError>
    ensures keys { (lists : BookLists) → map (λ es. es.items) states.now ≡ list_at lists.callers caller →
        OnOk result (held.new.keys.items ≡ held.old.keys.items ++ (caller_tells lists caller).keys) }
    ensures rests { (lists : BookLists) → map (λ es. es.items) states.now ≡ list_at lists.callers caller →
        OnOk result (held.new.rests.items ≡ held.old.rests.items ++ (caller_tells lists caller).rests) }
{
    for (index, entries) in states.iter().enumerate() {
        let number = number_of(index)?;
        let of = StateOf {
            caller,
            state: number,
        };
        held.add_state(of, entries)?;
    }
    Ok(())
}

// Adds the keys and the rests of batches that the vgetrandom states of all callers hold.
fn add_callers(held: &mut HeldMaterial, callers: &[Vec<Vec<VEntry>>]) -> Result<(), AllocError>
    ensures keys { (lists : BookLists) → caller_lists callers.now ≡ lists.callers →
        OnOk result (held.new.keys.items ≡ held.old.keys.items ++ (callers_tell lists).keys) }
    ensures rests { (lists : BookLists) → caller_lists callers.now ≡ lists.callers →
        OnOk result (held.new.rests.items ≡ held.old.rests.items ++ (callers_tell lists).rests) }
{
    for (index, states) in callers.iter().enumerate() {
        let number = number_of(index)?;
        add_states(held, number, states)?;
    }
    Ok(())
}

/// The keys and rests that a book holds after its last entries. `kept` has the book's lanes. `callers` has the entries
/// of each vgetrandom state of each caller.
///
/// # Errors
///
/// `AllocError` if there is no memory for them, or if a byte has a position of 2^64 or more in its key's keystream.
/// Also if there are more than 2^32 CPUs, callers or states of a caller.
pub fn hold_book(
    alloc: Global,
    kept: &Lists,
    callers: &[Vec<Vec<VEntry>>],
) -> Result<HeldMaterial, AllocError>
    ensures keys { (lists : BookLists) → HasEntries lists kept.now callers.now →
        IfOk result (λ held. held.keys.items ≡ (book_tells lists).keys) }
    ensures rests { (lists : BookLists) → HasEntries lists kept.now callers.now →
        IfOk result (λ held. held.rests.items ≡ (book_tells lists).rests) }
{
    let mut held = HeldMaterial::none(alloc);
    held.add_base(&kept.base)?;
    add_cpus(&mut held, &kept.cpus)?;
    add_callers(&mut held, callers)?;
    Ok(held)
}
