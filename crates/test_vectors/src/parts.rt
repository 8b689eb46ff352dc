//! Rows about the parts that keep a state from row to row.
ghost use Rattle.std.specs.Prelude.{◌<◌, ◌^◌, IfOk};

use crate::fields::{bytes_of, key_of, number_of};
use crate::keys::shown;
use anyhow::{Result, ensure};
use base_gen::Base;
use input_pool::{Crossing, Pool};
use sample_credit::{FastPool, InputTimer};
use std::alloc::Global;

/// Each moment, in milliseconds, is below this number.
const LAST_MOMENT: u64 = 1 << 40;

/// An input pool, a fast pool, an input timer and a base, each in its state when the kernel starts.
#[derive(Drop)]
pub struct KernelParts {
    pool: Pool,
    fast: FastPool,
    timer: InputTimer,
    base: Base,
}

// The moment that a field spells.
fn moment_of(field: &str) -> Result<u64>
    ensures { IfOk result (λ moment. moment < 2 ^ 40) }
{
    let moment = number_of(field)?;
    ensure!(moment < LAST_MOMENT, "no moment: {moment}");
    Ok(moment)
}

impl KernelParts {
    /// The parts as they are before the first row.
    pub fn start() -> KernelParts {
        KernelParts {
            pool: Pool::start(),
            fast: FastPool::start(),
            timer: InputTimer::start(),
            base: Base::start(),
        }
    }

    /// Answers the row `mix TEXT`.
    pub fn mix(&mut self, alloc: Global, text: &str) -> Result<String> {
        self.pool.mix(&bytes_of(alloc, text)?);
        let bits = self.pool.bits();
        Ok(format!(in alloc; "{bits}")?)
    }

    /// Answers the row `credit BITS`.
    pub fn credit(&mut self, alloc: Global, bits: &str) -> Result<String> {
        let bits = number_of(bits)?;
        ensure!(bits <= 1 << 20, "too many bits: {bits}");
        let crossed = match self.pool.credit(bits as u32) {
            Crossing::None => "-",
            Crossing::Early => "early",
            Crossing::Ready => "ready",
        };
        let bits = self.pool.bits();
        Ok(format!(in alloc; "{crossed} {bits}")?)
    }

    /// Answers the row `extract HARDWARE`.
    pub fn extract(&mut self, alloc: Global, hardware: &str) -> Result<String> {
        let root = self.pool.extract(&key_of(hardware)?);
        shown(alloc, &root)
    }

    /// Answers the row `irq WORD WORD MOMENT`.
    pub fn irq(&mut self, alloc: Global, first: &str, second: &str, now: &str) -> Result<String> {
        let now = moment_of(now)?;
        if !self.fast.mix(number_of(first)?, number_of(second)?, now) {
            return Ok("-".to_string(alloc)?);
        }
        let dump = self.fast.dump(now);
        let bytes = shown(alloc, &dump.bytes)?;
        let bits = dump.bits;
        Ok(format!(in alloc; "{bytes} {bits}")?)
    }

    /// Answers the row `bits MOMENT`.
    pub fn bits(&mut self, alloc: Global, now: &str) -> Result<String> {
        let bits = self.timer.bits(moment_of(now)?);
        Ok(format!(in alloc; "{bits}")?)
    }

    /// Answers the row `reseed MOMENT`.
    pub fn reseed(&mut self, alloc: Global, now: &str) -> Result<String> {
        let now = moment_of(now)?;
        ensure!(self.base.generation() < 1 << 62, "too many reseeds");
        if self.base.due(now) {
            self.base.fire([0; 32], now);
        } else {
            self.base.install([0; 32], now);
        }
        let generation = self.base.generation();
        Ok(format!(in alloc; "{generation}")?)
    }

    /// Answers the row `due MOMENT`.
    pub fn due(&self, alloc: Global, now: &str) -> Result<String> {
        let due = if self.base.due(moment_of(now)?) {
            "yes"
        } else {
            "no"
        };
        Ok(due.to_string(alloc)?)
    }
}
