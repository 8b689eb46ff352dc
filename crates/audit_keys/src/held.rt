//! The keys and the rests of batches that are held after the last entries.
ghost use Rattle.std.specs.Prelude.{ℕ, ◌≡◌, ◌++◌, [], List, Option, OnOk};
ghost use Rattle.key_names.specs.declared.entries.BaseEntry.{BaseEntry as BookBase};
ghost use Rattle.key_names.specs.Kernel.Batches.{Fill as BookFill};
ghost use Rattle.key_names.specs.Lanes.BaseList.{base_after};
ghost use Rattle.key_names.specs.Lanes.CpuList.{cpu_after};
ghost use Rattle.key_names.specs.Lanes.StateList.{state_after};
ghost use Rattle.key_names.specs.Keys.LiveMaterial.{state_rest};
ghost use Rattle.audit_keys.specs.Fills.{AreFills};
ghost use Rattle.audit_keys.specs.KeptEntries.{base_entries, cpu_entries};
ghost use Rattle.audit_keys.specs.declared.held.KeyHolder.TheVariants.{Base, Cpu, State};
ghost use Rattle.audit_keys.specs.declared.held.BatchHolder.TheVariants.{State as OfState};
ghost use Rattle.audit_keys.specs.Held.{held_key, held_rest, held_fills};

use crate::batches::{base_end, cpu_end, fill_rest, state_end};
use crate::cpu_uses::{Fill, WIDTHS};
use crate::state_uses::StateOf;
use judge_log::{KeptBase, KeptCpu};
use key_names::{KeyName, Span, VEntry};
use std::alloc::{AllocError, Global};

/// The holder of a key between two entries.
#[derive(Clone, Copy, Debug, PartialEq, Eq)]
pub enum KeyHolder {
    Base,
    Cpu(u32),
    State(StateOf),
}

/// The holder of a batch. A CPU holds one batch for each width of integers, in bytes. A vgetrandom state holds one.
#[derive(Clone, Copy, Debug, PartialEq, Eq)]
pub enum BatchHolder {
    Cpu { cpu: u32, width: u8 },
    State(StateOf),
}

/// A key that is held.
#[derive(Clone, Copy, Debug, PartialEq, Eq)]
pub struct HeldKey {
    pub holder: KeyHolder,
    pub key: KeyName,
}

/// A held rest of a batch: the bytes of the batch that were not served.
#[derive(Clone, Copy, Debug, PartialEq, Eq)]
pub struct HeldRest {
    pub holder: BatchHolder,
    pub span: Span,
}

/// The keys that are held, and the rests of batches that are held.
#[derive(Drop)]
pub struct HeldMaterial {
    pub keys: Vec<HeldKey>,
    pub rests: Vec<HeldRest>,
}

impl HeldMaterial {
    /// No held key and no held rest.
    pub(crate) fn none(alloc: Global) -> HeldMaterial
        ensures keys { result.keys.items ≡ [] }
        ensures rests { result.rests.items ≡ [] }
    {
        HeldMaterial {
            keys: Vec::new(alloc),
            rests: Vec::new(alloc),
        }
    }

    fn key(&mut self, holder: KeyHolder, key: Option<KeyName>) -> Result<(), AllocError>
        ensures keys { OnOk result (self.new.keys.items ≡ self.old.keys.items ++ held_key holder key) }
        ensures rests { self.new.rests.items ≡ self.old.rests.items }
    {
        if let Some(key) = key {
            self.keys.push(HeldKey { holder, key })?;
        }
        Ok(())
    }

    // Adds the rest of a batch, if this rest has bytes.
    fn rest(&mut self, holder: BatchHolder, span: Option<Span>) -> Result<(), AllocError>
        ensures keys { self.new.keys.items ≡ self.old.keys.items }
        ensures rests { OnOk result (self.new.rests.items ≡ self.old.rests.items ++ held_rest holder span) }
    {
        if let Some(span) = span {
            if span.len > 0 {
                self.rests.push(HeldRest { holder, span })?;
            }
        }
        Ok(())
    }

    // Adds the rests of all batches of a CPU.
    fn fills(&mut self, cpu: u32, fills: &[Option<Fill>; WIDTHS]) -> Result<(), AllocError>
        ensures keys { self.new.keys.items ≡ self.old.keys.items }
        ensures rests { (book : ℕ → Option BookFill) → AreFills book fills.now →
            OnOk result (self.new.rests.items ≡ self.old.rests.items ++ held_fills cpu book) }
    {
        for width in 0..WIDTHS {
            let span = fill_rest(width as u64, fills[width])?;
            let width = width as u8;
            self.rest(BatchHolder::Cpu { cpu, width }, span)?;
        }
        Ok(())
    }

    /// Adds the key that the base holds after all entries of `base`.
    ///
    /// # Errors
    ///
    /// `AllocError` if there is no memory for the key.
    pub(crate) fn add_base(&mut self, base: &[KeptBase]) -> Result<(), AllocError>
        ensures keys { OnOk result (self.new.keys.items
            ≡ self.old.keys.items ++ held_key Base (base_after (base_entries base.now)).key) }
        ensures rests { self.new.rests.items ≡ self.old.rests.items }
    {
        self.key(KeyHolder::Base, base_end(base))
    }

    /// Adds the key, and the rests of batches, that a CPU holds after all entries of `lane`.
    ///
    /// # Errors
    ///
    /// `AllocError` if there is no memory for them, or if a byte of a batch has a position of 2^64 or more in its
    /// keystream.
    pub(crate) fn add_cpu(&mut self, cpu: u32, lane: &[KeptCpu]) -> Result<(), AllocError>
        ensures keys { (base : List BookBase) → OnOk result (self.new.keys.items
            ≡ self.old.keys.items ++ held_key (Cpu cpu) (cpu_after base cpu (cpu_entries lane.now)).key) }
        ensures rests { (base : List BookBase) → OnOk result (self.new.rests.items
            ≡ self.old.rests.items ++ held_fills cpu (cpu_after base cpu (cpu_entries lane.now)).fills) }
    {
        let keys = cpu_end(cpu, lane)?;
        self.key(KeyHolder::Cpu(cpu), keys.key)?;
        self.fills(cpu, &keys.fills)?;
        Ok(())
    }

    /// Adds the key, and the rest of the batch, that a vgetrandom state holds after all of `entries`.
    ///
    /// # Errors
    ///
    /// `AllocError` if there is no memory for them, or if a byte of a batch has a position of 2^64 or more in its
    /// keystream.
    pub(crate) fn add_state(&mut self, of: StateOf, entries: &[VEntry]) -> Result<(), AllocError>
        ensures keys { OnOk result (self.new.keys.items ≡ self.old.keys.items
            ++ held_key (State of) (state_after of.caller of.state entries.now).key) }
        ensures rests { OnOk result (self.new.rests.items ≡ self.old.rests.items
            ++ held_rest (OfState of) (state_rest (state_after of.caller of.state entries.now))) }
    {
        let batch = state_end(of, entries)?;
        self.key(KeyHolder::State(of), batch.keys.key)?;
        self.rest(BatchHolder::State(of), batch.rest()?)
    }
}
