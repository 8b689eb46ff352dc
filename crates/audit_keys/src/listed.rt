//! The births, endings and uses of keys, from the lists of a book.
ghost use Rattle.std.specs.Prelude.{ℕ, ◌≡◌, ◌<◌, ◌≤◌, ◌^◌, [], ◌||◌, IfOk, OnOk, OnErr, length, map};
ghost use Rattle.std.specs.List.{list_any};
ghost use Rattle.key_names.specs.Lanes.Book.{Lists as BookLists, cpu_list, list_at, state_list};
ghost use Rattle.key_names.specs.Keys.Uses.{rekeys_place};
ghost use Rattle.audit_keys.specs.Fills.{rekeys_of};
ghost use Rattle.audit_keys.specs.KeptEntries.{base_entries, cpu_entries};
ghost use Rattle.audit_keys.specs.Listed.{cpu_lists, caller_lists, HasEntries, takes_read, tells_of, nothing, joined};
ghost use Rattle.audit_keys.specs.Listed.{base_tells, cpu_tells, state_tells, cpus_tell, caller_tells, callers_tell};
ghost use Rattle.audit_keys.specs.Listed.{book_tells};

use crate::base_uses::base_uses;
use crate::cpu_uses::cpu_uses;
use crate::held::HeldMaterial;
use crate::lives::Lives;
use crate::state_uses::{StateOf, state_uses};
use crate::used::Used;
use judge_log::{KeptBase, KeptCpu, Lists};
use key_names::VEntry;
use std::alloc::{AllocError, Global};

/// The births and endings of a book's keys, the uses of these keys, and the keys and rests that are held after the last
/// entries.
#[derive(Drop)]
pub struct ListedKeys {
    pub lives: Lives,
    pub held: HeldMaterial,
    pub uses: Vec<Used>,
}

// If an entry of a vgetrandom state takes the read at a place of this CPU as the state's key, marks that place.
fn mark_rekey(places: &mut [bool], cpu: u32, entry: VEntry)
    ensures marks { (k : ℕ) → k < length places.old → rekeys_of places.new k
        ≡ (rekeys_of places.old k || rekeys_place cpu k entry) }
    ensures len { length places.new ≡ length places.old }
{
    if let VEntry::Rekey {
        cpu: taken,
        cpu_place,
    } = entry
    {
        let place = cpu_place as usize;
        if taken == cpu && place < places.len() {
            places[place] = true;
        }
    }
}

fn mark_rekeys(places: &mut [bool], cpu: u32, entries: &[VEntry])
    ensures marks { (k : ℕ) → k < length places.old → rekeys_of places.new k
        ≡ (rekeys_of places.old k || list_any (rekeys_place cpu k) entries.now) }
    ensures len { length places.new ≡ length places.old }
{
    for entry in entries {
        mark_rekey(places, cpu, *entry);
    }
}

fn mark_states(places: &mut [bool], cpu: u32, states: &[Vec<VEntry>])
    ensures marks { (k : ℕ) → k < length places.old → rekeys_of places.new k
        ≡ (rekeys_of places.old k || list_any (λ es. list_any (rekeys_place cpu k) es.items) states.now) }
    ensures len { length places.new ≡ length places.old }
{
    for entries in states {
        mark_rekeys(places, cpu, entries);
    }
}

fn mark_callers(places: &mut [bool], cpu: u32, callers: &[Vec<Vec<VEntry>>])
    ensures marks { (k : ℕ) → k < length places.old → rekeys_of places.new k ≡ (rekeys_of places.old k
        || list_any (λ states. list_any (λ es. list_any (rekeys_place cpu k) es.items) states.items) callers.now) }
    ensures len { length places.new ≡ length places.old }
{
    for states in callers {
        mark_states(places, cpu, states);
    }
}

// For each place of a CPU, whether a vgetrandom state takes the read there as its key.
fn rekeyed_places(
    alloc: Global,
    cpu: u32,
    count: usize,
    callers: &[Vec<Vec<VEntry>>],
) -> Result<Vec<bool>, AllocError>
    ensures { IfOk result (λ places. (k : ℕ) → k < count → rekeys_of places.items k ≡ takes_read cpu callers.now k) }
{
    let mut places = vec![in alloc; false; count]?;
    mark_callers(&mut places, cpu, callers);
    Ok(places)
}

// The index of a CPU, a caller or a state, as a number of 32 bits. The indices of every book fit.
pub(crate) fn number_of(index: usize) -> Result<u32, AllocError>
    ensures number { IfOk result (λ number. number ≡ index) }
    ensures none { OnErr result (2 ^ 32 ≤ index) }
{
    u32::try_from(index).map_err(|_| AllocError)
}

impl ListedKeys {
    fn none(alloc: Global) -> ListedKeys
        ensures { tells_of result ≡ nothing }
    {
        ListedKeys {
            lives: Lives::none(alloc),
            held: HeldMaterial::none(alloc),
            uses: Vec::new(alloc),
        }
    }

    fn base(&mut self, alloc: Global, base: &[KeptBase]) -> Result<(), AllocError>
        ensures { (lists : BookLists) → base_entries base.now ≡ lists.base →
            OnOk result (tells_of self.new ≡ joined (tells_of self.old) (base_tells lists)) }
    {
        self.lives.base(base)?;
        self.held.add_base(base)?;
        self.uses.extend_from_slice(&base_uses(alloc, base)?)?;
        Ok(())
    }

    fn cpu(
        &mut self,
        alloc: Global,
        cpu: u32,
        lane: &[KeptCpu],
        callers: &[Vec<Vec<VEntry>>],
    ) -> Result<(), AllocError>
        ensures { (lists : BookLists) → cpu_entries lane.now ≡ cpu_list lists cpu →
            caller_lists callers.now ≡ lists.callers →
            OnOk result (tells_of self.new ≡ joined (tells_of self.old) (cpu_tells lists cpu)) }
    {
        self.lives.cpu(cpu, lane)?;
        self.held.add_cpu(cpu, lane)?;
        let rekeyed = rekeyed_places(alloc, cpu, lane.len(), callers)?;
        self.uses
            .extend_from_slice(&cpu_uses(alloc, cpu, lane, &rekeyed)?)?;
        Ok(())
    }

    fn state(&mut self, alloc: Global, of: StateOf, entries: &[VEntry]) -> Result<(), AllocError>
        ensures { (lists : BookLists) → entries.now ≡ state_list lists of.caller of.state →
            OnOk result (tells_of self.new ≡ joined (tells_of self.old) (state_tells lists of.caller of.state)) }
    {
        self.lives.state(of, entries)?;
        self.held.add_state(of, entries)?;
        self.uses
            .extend_from_slice(&state_uses(alloc, of, entries)?)?;
        Ok(())
    }

    fn cpus(
        &mut self,
        alloc: Global,
        cpus: &[Vec<KeptCpu>],
        callers: &[Vec<Vec<VEntry>>],
    ) -> Result<(), AllocError>
        ensures { (lists : BookLists) → cpu_lists cpus.now ≡ lists.cpus → caller_lists callers.now ≡ lists.callers →
            OnOk result (tells_of self.new ≡ joined (tells_of self.old) (cpus_tell lists)) }
    {
        for (index, lane) in cpus.iter().enumerate() {
            let number = number_of(index)?;
            self.cpu(alloc, number, lane, callers)?;
        }
        Ok(())
    }

    fn states(
        &mut self,
        alloc: Global,
        caller: u32,
        states: &[Vec<VEntry>],
    ) -> Result<(), AllocError>
        ensures { (lists : BookLists) → map (λ es. es.items) states.now ≡ list_at lists.callers caller →
            OnOk result (tells_of self.new ≡ joined (tells_of self.old) (caller_tells lists caller)) }
    {
        for (index, entries) in states.iter().enumerate() {
            let number = number_of(index)?;
            let of = StateOf {
                caller,
                state: number,
            };
            self.state(alloc, of, entries)?;
        }
        Ok(())
    }

    fn callers(&mut self, alloc: Global, callers: &[Vec<Vec<VEntry>>]) -> Result<(), AllocError>
        ensures { (lists : BookLists) → caller_lists callers.now ≡ lists.callers →
            OnOk result (tells_of self.new ≡ joined (tells_of self.old) (callers_tell lists)) }
    {
        for (index, states) in callers.iter().enumerate() {
            let number = number_of(index)?;
            self.states(alloc, number, states)?;
        }
        Ok(())
    }
}

/// The births, endings and uses of a book's keys, and the keys and rests that are held. `kept` has the book's lanes.
/// `callers` has the entries of each vgetrandom state of each caller.
///
/// # Errors
///
/// `AllocError` if there is no memory for them, or if a byte has a position of 2^64 or more in its key's keystream.
/// Also if there are more than 2^32 CPUs, callers or states of a caller.
pub fn tell_book(
    alloc: Global,
    kept: &Lists,
    callers: &[Vec<Vec<VEntry>>],
) -> Result<ListedKeys, AllocError>
    ensures { (lists : BookLists) → HasEntries lists kept.now callers.now →
        IfOk result (λ listed. tells_of listed ≡ book_tells lists) }
{
    let mut listed = ListedKeys::none(alloc);
    listed.base(alloc, &kept.base)?;
    listed.cpus(alloc, &kept.cpus, callers)?;
    listed.callers(alloc, callers)?;
    Ok(listed)
}
