//! The uses of a CPU's entries.
ghost use Rattle.std.specs.Prelude.{ℕ, Bool, List, ◌≡◌, ◌≤◌, ◌+◌, ◌*◌, ◌^◌, ◌++◌, Option, None, IfOk, OnOk, OnErr};
ghost use Rattle.key_names.specs.declared.entries.BaseEntry.{BaseEntry as BookBase};
ghost use Rattle.key_names.specs.Lanes.CpuList.{CpuState, cpu_start, cpu_step, cpu_key_in_use, cpu_key_after};
ghost use Rattle.key_names.specs.Kernel.Batches.{Fill as BookFill, one_more_served};
ghost use Rattle.audit_keys.specs.Fills.{fill_of, count_of, count_at, served_more, AreFills, CpuConforms, IsCountedOut, rekeys_of};
ghost use Rattle.audit_keys.specs.KeptEntries.{cpu_entries};
ghost use Rattle.audit_keys.specs.ListedFrom.{listed_from};
ghost use Rattle.audit_keys.specs.UsedAt.{batch_used, cpu_used_at};

use crate::read_uses::{InUse, push_read};
use crate::used::{Origin, Used};
use judge_log::{KeptCpu, base_refill_of};
use key_names::{CpuEntry, KeyName, LaneId};
use std::alloc::{AllocError, Global};

/// The number of batch widths that fit into a byte.
pub const WIDTHS: usize = 256;

/// The last fill of a batch: the key that was in use, and how many integers the batch has served since the fill. The
/// integer served at the fill counts too.
#[derive(Clone, Copy, Debug, PartialEq, Eq)]
pub struct Fill {
    pub key: Option<KeyName>,
    pub count: u64,
}

/// The key of a CPU, and for each width of integers the last fill of that width's batch.
#[derive(Clone, Copy)]
pub struct CpuKeys {
    pub key: Option<KeyName>,
    pub fills: [Option<Fill>; WIDTHS],
}

/// The key in use at an entry. If the entry names a refill, this is the key that the base handed over in that refill.
/// Otherwise it is the key before the entry.
pub fn key_in_use(entry: CpuEntry, key: Option<KeyName>) -> Option<KeyName>
    ensures { result ≡ cpu_key_in_use entry key }
{
    match base_refill_of(entry) {
        Some(refill) => Some(KeyName::Call(LaneId::Base, refill)),
        None => key,
    }
}

/// The key of a CPU after the entry at a place. `key` is the key before the entry.
pub fn key_after(cpu: u32, place: u64, entry: CpuEntry, key: Option<KeyName>) -> Option<KeyName>
    ensures { result ≡ cpu_key_after cpu place entry key }
{
    match entry {
        CpuEntry::Read { .. } | CpuEntry::Int { filled: true, .. } => {
            Some(KeyName::Cpu(cpu, place))
        }
        _ => key_in_use(entry, key),
    }
}

/// The position, in the key's keystream, of the first byte of the next integer after `count` integers of this width
/// from a fill. In a run it fits into 64 bits, since no memory has room for so many integers.
///
/// # Errors
///
/// `AllocError` if the position is 2^64 or more.
pub fn next_byte(width: u64, count: u64) -> Result<u64, AllocError>
    ensures byte { IfOk result (λ from. from ≡ 32 + width * count) }
    ensures none { OnErr result (2 ^ 64 ≤ 32 + width * count) }
{
    let served = width.checked_mul(count).ok_or(AllocError)?;
    served.checked_add(32).ok_or(AllocError)
}

// Adds the use of the next integer that a batch serves.
fn push_batched(
    uses: &mut Vec<Used>,
    by: Origin,
    width: u8,
    fill: Option<Fill>,
) -> Result<(), AllocError>
    ensures { (book : Option BookFill) → fill ≡ fill_of book →
        OnOk result (uses.new.items ≡ uses.old.items ++ batch_used by width book) }
{
    let Some(
        Fill {
            key: Some(key),
            count,
        },
    ) = fill
    else {
        return Ok(());
    };
    let width = u64::from(width);
    let from = next_byte(width, count)?;
    uses.push(InUse { key, by }.served(from, width))?;
    Ok(())
}

// The fill after its batch served one more integer.
fn one_more(fill: Option<Fill>) -> Result<Option<Fill>, AllocError>
    ensures more { (book : Option BookFill) → fill ≡ fill_of book →
        IfOk result (λ more. more ≡ fill_of (one_more_served book)) }
    ensures none { OnErr result (2 ^ 64 ≤ count_of fill + 1) }
{
    let Some(Fill { key, count }) = fill else {
        return Ok(None);
    };
    let count = count.checked_add(1).ok_or(AllocError)?;
    Ok(Some(Fill { key, count }))
}

// The fills of a CPU before any batch was filled.
fn no_fills() -> [Option<Fill>; WIDTHS]
    ensures { AreFills (λ w. None) result }
{
    [None; WIDTHS]
}

// Counts one more integer of this width in the last fill of its batch.
fn serve_more(fills: &mut [Option<Fill>; WIDTHS], width: u8) -> Result<(), AllocError>
    ensures more { (book : ℕ → Option BookFill) → AreFills book fills.old →
        OnOk result (AreFills (served_more width book) fills.new) }
    ensures none { OnErr result (2 ^ 64 ≤ count_at fills.old width + 1) }
{
    fills[width as usize] = one_more(fills[width as usize])?;
    Ok(())
}

impl CpuKeys {
    /// Before its first entry a CPU has no key, and no batch was filled.
    pub fn start() -> CpuKeys
        ensures key { result.key ≡ None }
        ensures fills { AreFills (λ w. None) result.fills }
    {
        CpuKeys {
            key: None,
            fills: no_fills(),
        }
    }

    // Adds the uses of the entry at a place.
    fn push_uses(
        &self,
        uses: &mut Vec<Used>,
        cpu: u32,
        place: u64,
        entry: CpuEntry,
        rekeys: bool,
    ) -> Result<(), AllocError>
        ensures { (s : CpuState) (rekeyed : ℕ → Bool) → CpuConforms s place self.now → rekeyed place ≡ rekeys →
            OnOk result (uses.new.items ≡ uses.old.items ++ cpu_used_at cpu rekeyed s entry) }
    {
        let by = Origin::Lane(LaneId::Cpu(cpu), place);
        if let CpuEntry::Int {
            width,
            filled: false,
            ..
        } = entry
        {
            return push_batched(uses, by, width, self.fills[width as usize]);
        }
        let Some(key) = key_in_use(entry, self.key) else {
            return Ok(());
        };
        let used = InUse { key, by };
        let next = KeyName::Cpu(cpu, place);
        let call = KeyName::Call(LaneId::Cpu(cpu), place);
        match entry {
            CpuEntry::Read { taken, .. } => push_read(uses, used, next, call, rekeys, taken),
            CpuEntry::Int { width, .. } => {
                uses.push(used.kept(0, next))?;
                uses.push(used.served(32, u64::from(width)))?;
                Ok(())
            }
            _ => Ok(()),
        }
    }

    /// The key and the fills after the entry at a place.
    ///
    /// # Errors
    ///
    /// `AllocError` if there are more integers than any memory has room for.
    pub fn step(&mut self, cpu: u32, place: u64, entry: CpuEntry) -> Result<(), AllocError>
        ensures after { (s : CpuState) (base : List BookBase) → CpuConforms s place self.old →
            OnOk result (CpuConforms (cpu_step base cpu s entry) (place + 1) self.new) }
        ensures none { OnErr result (IsCountedOut self.old.fills entry) }
    {
        let used = key_in_use(entry, self.key);
        self.key = key_after(cpu, place, entry, self.key);
        match entry {
            CpuEntry::Int {
                width,
                filled: true,
                ..
            } => {
                self.fills[width as usize] = Some(Fill {
                    key: used,
                    count: 1,
                });
            }
            CpuEntry::Int {
                width,
                filled: false,
                ..
            } => serve_more(&mut self.fills, width)?,
            CpuEntry::Prepare => self.fills = no_fills(),
            _ => {}
        }
        Ok(())
    }
}

// Whether a vgetrandom state takes the read at a place.
fn rekeys_at(rekeyed: &[bool], place: u64) -> bool
    ensures { result ≡ rekeys_of rekeyed.now place }
{
    match rekeyed.get(place as usize) {
        Some(rekeys) => *rekeys,
        None => false,
    }
}

/// All uses of a CPU's entries, in order. For each place, `rekeyed` is whether a vgetrandom state takes the read there.
///
/// # Errors
///
/// `AllocError` if there is no memory for the uses, or if a byte of a batch has a position of 2^64 or more in its
/// keystream.
pub fn cpu_uses(
    alloc: Global,
    cpu: u32,
    lane: &[KeptCpu],
    rekeyed: &[bool],
) -> Result<Vec<Used>, AllocError>
    ensures { (base : List BookBase) → IfOk result (λ uses. uses.items
        ≡ listed_from (cpu_used_at cpu (rekeys_of rekeyed.now)) (cpu_step base cpu) cpu_start (cpu_entries lane.now)) }
{
    let mut uses = Vec::new(alloc);
    let mut keys = CpuKeys::start();
    for (place, kept) in lane.iter().enumerate() {
        let rekeys = rekeys_at(rekeyed, place as u64);
        keys.push_uses(&mut uses, cpu, place as u64, kept.entry, rekeys)?;
        keys.step(cpu, place as u64, kept.entry)?;
    }
    Ok(uses)
}
