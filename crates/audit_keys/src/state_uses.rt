//! The uses of a vgetrandom state's entries.
ghost use Rattle.std.specs.Prelude.{ℕ, ◌≡◌, ◌≤◌, ◌+◌, ◌*◌, ◌^◌, ◌++◌, IfOk, OnOk, OnErr};
ghost use Rattle.key_names.specs.Lanes.StateList.{NamedState, state_start, state_step};
ghost use Rattle.audit_keys.specs.StateKeys.{StateConforms, IsRefilledOut};
ghost use Rattle.audit_keys.specs.ListedFrom.{listed_from};
ghost use Rattle.audit_keys.specs.UsedAt.{state_used_at};

use crate::read_uses::InUse;
use crate::used::{Origin, Used};
use key_names::{KeyName, LaneId, VEntry};
use std::alloc::{AllocError, Global};

/// The number of bytes of a block of keystream.
const BLOCK_BYTES: u64 = 64;

/// The number of bytes of a batch. A refill keeps the bytes after the batch as the next key.
pub const BATCH_BYTES: u64 = 96;

/// A vgetrandom state of a caller.
#[derive(Clone, Copy, Debug, PartialEq, Eq)]
pub struct StateOf {
    pub caller: u32,
    pub state: u32,
}

/// The keys of a vgetrandom state and of its batch.
#[derive(Clone, Copy)]
pub struct StateKeys {
    pub key: Option<KeyName>,
    /// How many refills the state's batch had.
    pub refills: u64,
    pub batch_key: Option<KeyName>,
    /// The first block of the batch.
    pub batch_from: u64,
}

/// The position, in a key's keystream, of the byte that is `more` bytes after the first byte of `block`. In a run it
/// fits into 64 bits, since no run uses a block with so large a number.
///
/// # Errors
///
/// `AllocError` if the position is 2^64 or more.
pub fn byte_of(block: u64, more: u64) -> Result<u64, AllocError>
    ensures byte { IfOk result (λ byte. byte ≡ 64 * block + more) }
    ensures none { OnErr result (2 ^ 64 ≤ 64 * block + more) }
{
    let byte = BLOCK_BYTES.checked_mul(block).ok_or(AllocError)?;
    byte.checked_add(more).ok_or(AllocError)
}

impl StateKeys {
    /// A state before its first entry has no keys.
    pub fn start() -> StateKeys
        ensures { StateConforms state_start 0 result }
    {
        StateKeys {
            key: None,
            refills: 0,
            batch_key: None,
            batch_from: 0,
        }
    }

    // Adds the uses of the entry at a place.
    fn push_uses(
        &self,
        uses: &mut Vec<Used>,
        of: StateOf,
        place: u64,
        entry: VEntry,
    ) -> Result<(), AllocError>
        ensures { (s : NamedState) → StateConforms s place self.now → OnOk result (uses.new.items
            ≡ uses.old.items ++ state_used_at of s entry) }
    {
        let by = Origin::State {
            caller: of.caller,
            state: of.state,
            place,
        };
        match (entry, self.key, self.batch_key) {
            (VEntry::Blocks { from, count }, Some(key), _) => {
                let from = byte_of(from, 0)?;
                let len = byte_of(count, 0)?;
                uses.push(InUse { key, by }.served(from, len))?;
            }
            (VEntry::Refill { from }, Some(key), _) => {
                let from = byte_of(from, BATCH_BYTES)?;
                let next = KeyName::Vdso(of.caller, of.state, self.refills);
                uses.push(InUse { key, by }.kept(from, next))?;
            }
            (VEntry::Serve { pos, len }, _, Some(key)) => {
                let from = byte_of(self.batch_from, u64::from(pos))?;
                uses.push(InUse { key, by }.served(from, u64::from(len)))?;
            }
            _ => {}
        }
        Ok(())
    }

    /// The keys of the state after an entry.
    ///
    /// # Errors
    ///
    /// `AllocError` if there are more refills than any memory has room for.
    pub fn step(&mut self, of: StateOf, entry: VEntry) -> Result<(), AllocError>
        ensures after { (s : NamedState) (place : ℕ) → StateConforms s place self.old →
            OnOk result (StateConforms (state_step of.caller of.state s entry) (place + 1) self.new) }
        ensures none { OnErr result (IsRefilledOut self.old.refills entry) }
    {
        match entry {
            VEntry::Rekey { cpu, cpu_place } => {
                self.key = Some(KeyName::Call(LaneId::Cpu(cpu), cpu_place));
                self.batch_key = None;
            }
            VEntry::Refill { from } => {
                let next = KeyName::Vdso(of.caller, of.state, self.refills);
                self.refills = self.refills.checked_add(1).ok_or(AllocError)?;
                self.batch_key = self.key;
                self.batch_from = from;
                self.key = self.key.map(|_| next);
            }
            VEntry::Wipe => {
                self.key = None;
                self.batch_key = None;
            }
            VEntry::Blocks { .. } | VEntry::Serve { .. } => {}
        }
        Ok(())
    }
}

/// All uses of the entries of a vgetrandom state, in order.
///
/// # Errors
///
/// `AllocError` if there is no memory for them, or if a byte has a position of 2^64 or more in its key's keystream.
pub fn state_uses(alloc: Global, of: StateOf, entries: &[VEntry]) -> Result<Vec<Used>, AllocError>
    ensures { IfOk result (λ uses. uses.items
        ≡ listed_from (state_used_at of) (state_step of.caller of.state) state_start entries.now) }
{
    let mut uses = Vec::new(alloc);
    let mut keys = StateKeys::start();
    for (place, entry) in entries.iter().enumerate() {
        keys.push_uses(&mut uses, of, place as u64, *entry)?;
        keys.step(of, *entry)?;
    }
    Ok(uses)
}
