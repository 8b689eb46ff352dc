//! The entry that makes each key, the entry that erases it, and the rests of batches that are given up.
ghost use Rattle.std.specs.Prelude.{ℕ, ◌≡◌, ◌++◌, ◌∷◌, [], List, Option, Some, OnOk};
ghost use Rattle.key_names.specs.declared.entries.BaseEntry.{BaseEntry as BookBase};
ghost use Rattle.key_names.specs.Kernel.Batches.{Fill as BookFill};
ghost use Rattle.key_names.specs.Lanes.BaseList.{BaseState, base_start, base_step};
ghost use Rattle.key_names.specs.Lanes.CpuList.{CpuState, cpu_start, cpu_step};
ghost use Rattle.key_names.specs.Lanes.StateList.{NamedState, state_start, state_step};
ghost use Rattle.audit_keys.specs.Fills.{AreFills, CpuConforms};
ghost use Rattle.audit_keys.specs.KeptEntries.{base_entries, cpu_entries};
ghost use Rattle.audit_keys.specs.ListedFrom.{listed_from};
ghost use Rattle.audit_keys.specs.Lives.{born, ended, long_births, long_endings};
ghost use Rattle.audit_keys.specs.Lives.{base_births_at, base_endings_at, cpu_births_at, cpu_endings_at};
ghost use Rattle.audit_keys.specs.Lives.{state_births_at, state_endings_at};
ghost use Rattle.audit_keys.specs.Rests.{BatchConforms, given_up, fills_given_up, cpu_given_up_at, state_given_up_at};

use crate::batches::{StateBatch, fill_rest};
use crate::cpu_uses::{CpuKeys, Fill, WIDTHS};
use crate::state_uses::StateOf;
use crate::used::{KEY_BYTES, Origin};
use crate::{base_uses, cpu_uses};
use judge_log::{KeptBase, KeptCpu, base_refill_of, root_of};
use key_names::{BaseEntry, CpuEntry, KeyName, LaneId, Span, Taken, VEntry};
use std::alloc::{AllocError, Global};

/// The holder of a key.
#[derive(Clone, Copy, Debug, PartialEq, Eq)]
pub enum Holder {
    Base,
    Cpu(u32),
    State(StateOf),
    /// One read of more than 32 bytes by a user. The read erases the key at its end.
    Read,
}

/// A key that an entry made, and its holder.
#[derive(Clone, Copy, Debug, PartialEq, Eq)]
pub struct Birth {
    pub key: KeyName,
    pub holder: Holder,
    pub by: Origin,
}

/// A key that an entry erased or replaced.
#[derive(Clone, Copy, Debug, PartialEq, Eq)]
pub struct Ending {
    pub key: KeyName,
    pub by: Origin,
}

/// A rest of a batch, and the entry that gave it up. The bytes of the rest were not served.
#[derive(Clone, Copy, Debug, PartialEq, Eq)]
pub struct GivenUp {
    pub span: Span,
    pub by: Origin,
}

/// The births and the endings of keys, and the rests of batches that are given up.
#[derive(Drop)]
pub struct Lives {
    pub births: Vec<Birth>,
    pub endings: Vec<Ending>,
    pub given_up: Vec<GivenUp>,
}

impl Lives {
    /// No births, no endings and no rests of batches.
    pub(crate) fn none(alloc: Global) -> Lives
        ensures births { result.births.items ≡ [] }
        ensures endings { result.endings.items ≡ [] }
        ensures given_up { result.given_up.items ≡ [] }
    {
        Lives {
            births: Vec::new(alloc),
            endings: Vec::new(alloc),
            given_up: Vec::new(alloc),
        }
    }

    fn bear(&mut self, key: KeyName, holder: Holder, by: Origin) -> Result<(), AllocError>
        ensures births { OnOk result (self.new.births.items ≡ self.old.births.items ++ born key holder by ∷ []) }
        ensures endings { self.new.endings.items ≡ self.old.endings.items }
        ensures given_up { self.new.given_up.items ≡ self.old.given_up.items }
    {
        self.births.push(Birth { key, holder, by })?;
        Ok(())
    }

    fn end(&mut self, key: Option<KeyName>, by: Origin) -> Result<(), AllocError>
        ensures births { self.new.births.items ≡ self.old.births.items }
        ensures endings { OnOk result (self.new.endings.items ≡ self.old.endings.items ++ ended by key) }
        ensures given_up { self.new.given_up.items ≡ self.old.given_up.items }
    {
        if let Some(key) = key {
            self.endings.push(Ending { key, by })?;
        }
        Ok(())
    }

    // Adds the call key if this is a user's read of more than 32 bytes. The same entry makes and erases this key.
    fn read(&mut self, taken: Taken, lane: LaneId, place: u64) -> Result<(), AllocError>
        ensures births { OnOk result (self.new.births.items ≡ self.old.births.items ++ long_births lane place taken) }
        ensures endings { OnOk result (self.new.endings.items
            ≡ self.old.endings.items ++ long_endings lane place taken) }
        ensures given_up { self.new.given_up.items ≡ self.old.given_up.items }
    {
        if matches!(taken, Taken::User(len) if len > KEY_BYTES) {
            let (key, by) = (KeyName::Call(lane, place), Origin::Lane(lane, place));
            self.bear(key, Holder::Read, by)?;
            self.end(Some(key), by)?;
        }
        Ok(())
    }

    // Adds the rest of a batch as given up, if this rest has bytes.
    fn give_up(&mut self, span: Option<Span>, by: Origin) -> Result<(), AllocError>
        ensures births { self.new.births.items ≡ self.old.births.items }
        ensures endings { self.new.endings.items ≡ self.old.endings.items }
        ensures given_up { OnOk result (self.new.given_up.items ≡ self.old.given_up.items ++ given_up by span) }
    {
        if let Some(span) = span {
            if span.len > 0 {
                self.given_up.push(GivenUp { span, by })?;
            }
        }
        Ok(())
    }

    // Adds the rests of all batches of a CPU as given up.
    fn give_up_fills(
        &mut self,
        fills: &[Option<Fill>; WIDTHS],
        by: Origin,
    ) -> Result<(), AllocError>
        ensures births { self.new.births.items ≡ self.old.births.items }
        ensures endings { self.new.endings.items ≡ self.old.endings.items }
        ensures given_up { (book : ℕ → Option BookFill) → AreFills book fills.now →
            OnOk result (self.new.given_up.items ≡ self.old.given_up.items ++ fills_given_up by book) }
    {
        for width in 0..WIDTHS {
            self.give_up(fill_rest(width as u64, fills[width])?, by)?;
        }
        Ok(())
    }

    // Adds the keys that an entry of the base makes and erases. `key` is the key before the entry.
    fn base_entry(
        &mut self,
        key: Option<KeyName>,
        place: u64,
        entry: BaseEntry,
    ) -> Result<(), AllocError>
        ensures births { (s : BaseState) → s.place ≡ place → OnOk result (self.new.births.items
            ≡ self.old.births.items ++ base_births_at s entry) }
        ensures endings { (s : BaseState) → s.place ≡ place → s.key ≡ key → OnOk result (self.new.endings.items
            ≡ self.old.endings.items ++ base_endings_at s entry) }
        ensures given_up { self.new.given_up.items ≡ self.old.given_up.items }
    {
        let by = Origin::Lane(LaneId::Base, place);
        let used = base_uses::key_in_use(entry, key);
        if let Some(root) = root_of(entry) {
            self.end(key, by)?;
            self.bear(
                KeyName::Root(root),
                Holder::Base,
                Origin::Lane(LaneId::Pool, root),
            )?;
        }
        match entry {
            BaseEntry::Draw { taken, .. } => {
                self.end(used, by)?;
                self.bear(KeyName::Base(place), Holder::Base, by)?;
                self.read(taken, LaneId::Base, place)?;
            }
            BaseEntry::Refill { cpu, .. } => {
                self.end(used, by)?;
                self.bear(KeyName::Base(place), Holder::Base, by)?;
                self.bear(KeyName::Call(LaneId::Base, place), Holder::Cpu(cpu), by)?;
            }
            _ => {}
        }
        Ok(())
    }

    /// Adds the keys that the entries of the base make and erase.
    ///
    /// # Errors
    ///
    /// `AllocError` if there is no memory for them.
    pub(crate) fn base(&mut self, base: &[KeptBase]) -> Result<(), AllocError>
        ensures births { OnOk result (self.new.births.items ≡ self.old.births.items
            ++ listed_from base_births_at base_step base_start (base_entries base.now)) }
        ensures endings { OnOk result (self.new.endings.items ≡ self.old.endings.items
            ++ listed_from base_endings_at base_step base_start (base_entries base.now)) }
        ensures given_up { self.new.given_up.items ≡ self.old.given_up.items }
    {
        let mut key = None;
        for (place, kept) in base.iter().enumerate() {
            self.base_entry(key, place as u64, kept.entry)?;
            key = base_uses::key_after(place as u64, kept.entry, key);
        }
        Ok(())
    }

    // Adds the keys that an entry of a CPU makes and erases. `key` is the key before the entry.
    fn cpu_entry(
        &mut self,
        key: Option<KeyName>,
        cpu: u32,
        place: u64,
        entry: CpuEntry,
    ) -> Result<(), AllocError>
        ensures births { (s : CpuState) → s.place ≡ place → OnOk result (self.new.births.items
            ≡ self.old.births.items ++ cpu_births_at cpu s entry) }
        ensures endings { (s : CpuState) → s.place ≡ place → s.key ≡ key → OnOk result (self.new.endings.items
            ≡ self.old.endings.items ++ cpu_endings_at cpu s entry) }
        ensures given_up { self.new.given_up.items ≡ self.old.given_up.items }
    {
        let by = Origin::Lane(LaneId::Cpu(cpu), place);
        let used = cpu_uses::key_in_use(entry, key);
        if base_refill_of(entry).is_some() {
            self.end(key, by)?;
        }
        match entry {
            CpuEntry::Read { taken, .. } => {
                self.end(used, by)?;
                self.bear(KeyName::Cpu(cpu, place), Holder::Cpu(cpu), by)?;
                self.read(taken, LaneId::Cpu(cpu), place)?;
            }
            CpuEntry::Int { filled: true, .. } => {
                self.end(used, by)?;
                self.bear(KeyName::Cpu(cpu, place), Holder::Cpu(cpu), by)?;
            }
            _ => {}
        }
        Ok(())
    }

    // Adds the rests that an entry of a CPU gives up.
    fn cpu_gives_up(
        &mut self,
        keys: &CpuKeys,
        cpu: u32,
        place: u64,
        entry: CpuEntry,
    ) -> Result<(), AllocError>
        ensures births { self.new.births.items ≡ self.old.births.items }
        ensures endings { self.new.endings.items ≡ self.old.endings.items }
        ensures given_up { (s : CpuState) → CpuConforms s place keys.now → OnOk result (self.new.given_up.items
            ≡ self.old.given_up.items ++ cpu_given_up_at cpu s entry) }
    {
        let by = Origin::Lane(LaneId::Cpu(cpu), place);
        match entry {
            CpuEntry::Int {
                width,
                filled: true,
                ..
            } => {
                let rest = fill_rest(u64::from(width), keys.fills[width as usize])?;
                self.give_up(rest, by)
            }
            CpuEntry::Prepare => self.give_up_fills(&keys.fills, by),
            _ => Ok(()),
        }
    }

    /// Adds the keys that the entries of a CPU make and erase, and the rests of batches that they give up.
    ///
    /// # Errors
    ///
    /// `AllocError` if there is no memory for them, or if a byte of a batch has a position of 2^64 or more in its
    /// keystream.
    pub(crate) fn cpu(&mut self, cpu: u32, lane: &[KeptCpu]) -> Result<(), AllocError>
        ensures births { (base : List BookBase) → OnOk result (self.new.births.items ≡ self.old.births.items
            ++ listed_from (cpu_births_at cpu) (cpu_step base cpu) cpu_start (cpu_entries lane.now)) }
        ensures endings { (base : List BookBase) → OnOk result (self.new.endings.items ≡ self.old.endings.items
            ++ listed_from (cpu_endings_at cpu) (cpu_step base cpu) cpu_start (cpu_entries lane.now)) }
        ensures given_up { (base : List BookBase) → OnOk result (self.new.given_up.items ≡ self.old.given_up.items
            ++ listed_from (cpu_given_up_at cpu) (cpu_step base cpu) cpu_start (cpu_entries lane.now)) }
    {
        let mut keys = CpuKeys::start();
        for (place, kept) in lane.iter().enumerate() {
            self.cpu_entry(keys.key, cpu, place as u64, kept.entry)?;
            self.cpu_gives_up(&keys, cpu, place as u64, kept.entry)?;
            keys.step(cpu, place as u64, kept.entry)?;
        }
        Ok(())
    }

    // Adds the keys that an entry of a vgetrandom state makes and erases, and the rest that it gives up.
    fn state_entry(
        &mut self,
        batch: &StateBatch,
        of: StateOf,
        place: u64,
        entry: VEntry,
    ) -> Result<(), AllocError>
        ensures births { (s : NamedState) → BatchConforms s place batch.now → OnOk result (self.new.births.items
            ≡ self.old.births.items ++ state_births_at of s entry) }
        ensures endings { (s : NamedState) → BatchConforms s place batch.now → OnOk result (self.new.endings.items
            ≡ self.old.endings.items ++ state_endings_at of s entry) }
        ensures given_up { (s : NamedState) → BatchConforms s place batch.now → OnOk result (self.new.given_up.items
            ≡ self.old.given_up.items ++ state_given_up_at of s entry) }
    {
        let by = Origin::State {
            caller: of.caller,
            state: of.state,
            place,
        };
        match entry {
            VEntry::Blocks { .. } | VEntry::Serve { .. } => return Ok(()),
            VEntry::Rekey { cpu, cpu_place } => {
                let lane = LaneId::Cpu(cpu);
                let key = KeyName::Call(lane, cpu_place);
                self.bear(key, Holder::State(of), Origin::Lane(lane, cpu_place))?;
            }
            VEntry::Refill { .. } => {
                if batch.keys.key.is_some() {
                    let key = KeyName::Vdso(of.caller, of.state, batch.keys.refills);
                    self.bear(key, Holder::State(of), by)?;
                }
            }
            VEntry::Wipe => {}
        }
        self.end(batch.keys.key, by)?;
        self.give_up(batch.rest()?, by)
    }

    /// Adds the keys that the entries of a vgetrandom state make and erase, and the rests of batches that they give up.
    ///
    /// # Errors
    ///
    /// `AllocError` if there is no memory for them, or if a byte of a batch has a position of 2^64 or more in its
    /// keystream.
    pub(crate) fn state(&mut self, of: StateOf, entries: &[VEntry]) -> Result<(), AllocError>
        ensures births { OnOk result (self.new.births.items ≡ self.old.births.items
            ++ listed_from (state_births_at of) (state_step of.caller of.state) state_start entries.now) }
        ensures endings { OnOk result (self.new.endings.items ≡ self.old.endings.items
            ++ listed_from (state_endings_at of) (state_step of.caller of.state) state_start entries.now) }
        ensures given_up { OnOk result (self.new.given_up.items ≡ self.old.given_up.items
            ++ listed_from (state_given_up_at of) (state_step of.caller of.state) state_start entries.now) }
    {
        let mut batch = StateBatch::start();
        for (place, entry) in entries.iter().enumerate() {
            self.state_entry(&batch, of, place as u64, *entry)?;
            batch.step(of, *entry)?;
        }
        Ok(())
    }
}
