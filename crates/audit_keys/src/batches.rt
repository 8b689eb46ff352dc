//! The rests of batches: the bytes of a batch that were not served.
ghost use Rattle.std.specs.Prelude.{ℕ, List, ◌≡◌, ◌≤◌, ◌+◌, ◌*◌, ◌^◌, Option, length, IfOk, OnOk, OnErr};
ghost use Rattle.key_names.specs.declared.entries.BaseEntry.{BaseEntry as BookBase};
ghost use Rattle.key_names.specs.Kernel.Batches.{Fill as BookFill};
ghost use Rattle.key_names.specs.Lanes.BaseList.{base_after};
ghost use Rattle.key_names.specs.Lanes.CpuList.{cpu_after};
ghost use Rattle.key_names.specs.Lanes.StateList.{NamedState, state_start, state_step, state_after};
ghost use Rattle.key_names.specs.Keys.LiveMaterial.{fill_rest, named_span, state_rest};
ghost use Rattle.audit_keys.specs.Fills.{fill_of, count_of, CpuConforms};
ghost use Rattle.audit_keys.specs.KeptEntries.{base_entries, cpu_entries};
ghost use Rattle.audit_keys.specs.StateKeys.{IsRefilledOut};
ghost use Rattle.audit_keys.specs.Rests.{BatchConforms};

use crate::base_uses;
use crate::cpu_uses::{CpuKeys, Fill, next_byte};
use crate::state_uses::{BATCH_BYTES, StateKeys, StateOf, byte_of};
use judge_log::{KeptBase, KeptCpu};
use key_names::{KeyName, Span, VEntry};
use std::alloc::AllocError;

/// The end of a CPU's batch in the keystream of its key. The batch follows the 32 bytes that became the next key.
const BATCH_END: u64 = 32 + BATCH_BYTES;

/// The keys of a vgetrandom state, and the position of the first byte of its batch that was not served.
#[derive(Clone, Copy)]
pub(crate) struct StateBatch {
    pub(crate) keys: StateKeys,
    pub(crate) pos: u64,
}

fn named_span(key: Option<KeyName>, from: u64, len: u64) -> Option<Span>
    ensures { result ≡ named_span key from len }
{
    key.map(|key| Span { key, from, len })
}

/// The rest of a CPU's batch. In a run each byte's position in the keystream fits into 64 bits, since no memory has
/// room for so many integers.
///
/// # Errors
///
/// `AllocError` if a byte's position is 2^64 or more.
pub(crate) fn fill_rest(width: u64, fill: Option<Fill>) -> Result<Option<Span>, AllocError>
    ensures rest { (book : Option BookFill) → fill ≡ fill_of book →
        IfOk result (λ span. span ≡ fill_rest width book) }
    ensures none { OnErr result (2 ^ 64 ≤ 32 + width * count_of fill) }
{
    let Some(Fill { key, count }) = fill else {
        return Ok(None);
    };
    let from = next_byte(width, count)?;
    Ok(named_span(key, from, BATCH_END.saturating_sub(from)))
}

impl StateBatch {
    /// A state before its first entry has no keys and no batch.
    pub(crate) fn start() -> StateBatch
        ensures { BatchConforms state_start 0 result }
    {
        StateBatch {
            keys: StateKeys::start(),
            pos: 0,
        }
    }

    /// The keys and the batch after an entry.
    ///
    /// # Errors
    ///
    /// `AllocError` if there are more refills than any memory has room for.
    pub(crate) fn step(&mut self, of: StateOf, entry: VEntry) -> Result<(), AllocError>
        ensures after { (s : NamedState) (place : ℕ) → BatchConforms s place self.old →
            OnOk result (BatchConforms (state_step of.caller of.state s entry) (place + 1) self.new) }
        ensures none { OnErr result (IsRefilledOut self.old.keys.refills entry) }
    {
        self.keys.step(of, entry)?;
        match entry {
            VEntry::Rekey { .. } => self.pos = BATCH_BYTES,
            VEntry::Refill { .. } | VEntry::Wipe => self.pos = 0,
            VEntry::Serve { pos, len } => self.pos = u64::from(pos) + u64::from(len),
            VEntry::Blocks { .. } => {}
        }
        Ok(())
    }

    /// The rest of the batch.
    ///
    /// # Errors
    ///
    /// `AllocError` if the position of the rest's first byte in its keystream is 2^64 or more.
    pub(crate) fn rest(&self) -> Result<Option<Span>, AllocError>
        ensures rest { (s : NamedState) (place : ℕ) → BatchConforms s place self.now →
            IfOk result (λ span. span ≡ state_rest s) }
        ensures none { OnErr result (2 ^ 64 ≤ 64 * self.now.keys.batch_from + self.now.pos) }
    {
        let from = byte_of(self.keys.batch_from, self.pos)?;
        Ok(named_span(
            self.keys.batch_key,
            from,
            BATCH_BYTES.saturating_sub(self.pos),
        ))
    }
}

/// The key of the base after all entries of `base`.
pub(crate) fn base_end(base: &[KeptBase]) -> Option<KeyName>
    ensures { result ≡ (base_after (base_entries base.now)).key }
{
    let mut key = None;
    for (place, kept) in base.iter().enumerate() {
        key = base_uses::key_after(place as u64, kept.entry, key);
    }
    key
}

/// The key and the fills of a CPU after all entries of `lane`.
///
/// # Errors
///
/// `AllocError` if there are more integers than any memory has room for.
pub(crate) fn cpu_end(cpu: u32, lane: &[KeptCpu]) -> Result<CpuKeys, AllocError>
    ensures end { (base : List BookBase) → let s = cpu_after base cpu (cpu_entries lane.now) in
        IfOk result (λ keys. CpuConforms s s.place keys) }
    ensures none { OnErr result (2 ^ 64 ≤ length lane.now) }
{
    let mut keys = CpuKeys::start();
    for (place, kept) in lane.iter().enumerate() {
        keys.step(cpu, place as u64, kept.entry)?;
    }
    Ok(keys)
}

/// The keys and the batch of a vgetrandom state after all of `entries`.
///
/// # Errors
///
/// `AllocError` if there are more refills than any memory has room for.
pub(crate) fn state_end(of: StateOf, entries: &[VEntry]) -> Result<StateBatch, AllocError>
    ensures end { let s = state_after of.caller of.state entries.now in
        IfOk result (λ batch. BatchConforms s s.place batch) }
    ensures none { OnErr result (2 ^ 64 ≤ length entries.now) }
{
    let mut batch = StateBatch::start();
    for entry in entries {
        batch.step(of, *entry)?;
    }
    Ok(batch)
}
