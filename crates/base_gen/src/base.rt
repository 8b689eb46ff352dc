//! The base key, and the state that the kernel keeps with it.

ghost use Rattle.std.specs.Prelude.{◌≡◌, ◌↔◌, ◌+◌, ◌^◌, ◌<◌, ◌≤◌, Some, length, IsTrue};
ghost use Rattle.key_names.specs.Kernel.Keystream.{keystream};
ghost use Rattle.key_names.specs.Lanes.BaseList.{ready, IsDue, interval, early_boot_after, one_more, one_less};
ghost use Rattle.base_gen.specs.BaseValue.{phase_of, start, erased, seeded_early, reseeded, fired};

use crate::phase::Phase;
use chacha_blocks::{Detached, derive_key, erase};
use std::marker::Model;

/// The base key (`base_crng`) and its generation, the phase of the core, the moment of the next reseed, and the number
/// of running callers.
#[derive(Drop)]
pub struct Base {
    key: [u8; 32],
    phase: Phase,
    generation: u64,
    timer: Option<u64>,
    early_boot: bool,
    running: u32,
}

impl Model for Base {
    ghost use Rattle.base_gen.specs.BaseValue.{BaseValue, phase_of};

    ghost Value = { BaseValue };

    ghost view = { λ b. record {
      key = b.key;
      phase = phase_of b.phase;
      generation = b.generation;
      timer = b.timer;
      early_boot = b.early_boot;
      running = b.running;
    } };
}

impl Base {
    /// The base at the start of the system: a key of zeros, not seeded yet, no timer, and one running caller.
    pub fn start() -> Base
        ensures { result ≡ start }
    {
        Base {
            key: [0; 32],
            phase: Phase::Empty,
            generation: 0,
            timer: None,
            early_boot: true,
            running: 1,
        }
    }

    /// The phase of the core.
    pub fn phase(&self) -> Phase
        ensures { phase_of result ≡ self.now.phase }
    {
        self.phase
    }

    /// How often the base was reseeded.
    pub fn generation(&self) -> u64
        ensures { result ≡ self.now.generation }
    {
        self.generation
    }

    /// How many callers run. This is for users of the crate without lanes; the core uses [`Base::idle`].
    pub fn running(&self) -> u32
        ensures { result ≡ self.now.running }
    {
        self.running
    }

    /// Whether no caller runs.
    pub fn idle(&self) -> bool
        ensures { IsTrue result ↔ (self.now.running ≡ 0) }
    {
        self.running == 0
    }

    /// Replaces the key by a root for one draw from an empty core. In the kernel, `crng_make_state` calls
    /// `extract_entropy` if `crng_init` is `CRNG_EMPTY`.
    pub fn fill_empty(&mut self, root: [u8; 32])
        ensures { self.new ≡ record self.old { key = root } }
    {
        self.key = root;
    }

    /// Installs a root as an early key, when 128 bits are credited (`_credit_init_bits` at `POOL_EARLY_BITS`).
    pub fn install_early(&mut self, root: [u8; 32])
        ensures { self.new ≡ seeded_early root self.old }
    {
        self.key = root;
        self.phase = Phase::Early;
    }

    /// Installs a root at the moment `now`, in milliseconds (`crng_reseed`). The generation goes up by one, and the
    /// core becomes ready. A timer is set if none is pending. `now` is below 2^40, and the generation below 2^63.
    pub fn install(&mut self, root: [u8; 32], now: u64)
        requires generation { self.old.generation < 2 ^ 63 }
        requires now { now < 2 ^ 40 }
        ensures { self.new ≡ reseeded now root self.old }
    {
        let next = self.reseed(root, now);
        if self.timer.is_none() {
            self.timer = Some(next);
        }
    }

    /// Whether the reseed timer is set, and due at the moment `now`, in milliseconds.
    pub fn due(&self, now: u64) -> bool
        ensures { IsTrue result ↔ IsDue self.now.timer now }
    {
        match self.timer {
            None => false,
            Some(moment) => moment <= now,
        }
    }

    /// Installs a root at the moment `now`, in milliseconds, and sets the next timer (`crng_reseed` as the delayed
    /// work). The generation goes up by one, and the core becomes ready. The lanes check that the timer is due. `now`
    /// is below 2^40, and the generation below 2^63.
    pub fn fire(&mut self, root: [u8; 32], now: u64)
        requires generation { self.old.generation < 2 ^ 63 }
        requires now { now < 2 ^ 40 }
        ensures { self.new ≡ fired now root self.old }
    {
        self.timer = Some(self.reseed(root, now));
    }

    // Does what `install` and `fire` have in common: everything but the timer. Returns the moment at which the next
    // reseed is due.
    fn reseed(&mut self, root: [u8; 32], now: u64) -> u64
        requires generation { self.old.generation < 2 ^ 63 }
        requires now { now < 2 ^ 40 }
        ensures state { self.new ≡ record self.old {
          key = root;
          phase = ready;
          generation = self.old.generation + 1;
          early_boot = early_boot_after (Some now) self.old.early_boot;
        } }
        ensures next { result ≡ now + interval self.old.early_boot now }
    {
        self.key = root;
        self.phase = Phase::Ready;
        self.generation += 1;
        now + reseed_interval(&mut self.early_boot, now)
    }

    /// Erases the key (`crng_fast_key_erasure`). Fills `out`, which has at most 32 bytes, from the rest of the
    /// erasure's block. Returns the old key, with block 1 as its next block.
    pub fn draw(&mut self, out: &mut [u8]) -> Detached
        requires { length out.old ≤ 32 }
        ensures state { self.new ≡ erased self.old }
        ensures out { out.new ≡ keystream self.old.key 32 (length out.old) }
        ensures key { result.key ≡ self.old.key }
        ensures next_block { result.next_block ≡ 1 }
    {
        erase(&mut self.key, out)
    }

    /// Erases the key, and returns bytes 32 to 64 of its keystream as a key. That key is for a CPU's refill or, before
    /// the core is ready, for one user's read of more than 32 bytes (`crng_make_state`).
    pub fn call_key(&mut self) -> [u8; 32]
        ensures state { self.new ≡ erased self.old }
        ensures key { result ≡ keystream self.old.key 32 32 }
    {
        derive_key(&mut self.key)
    }

    /// Counts one more running caller. The count stays at 2^32 - 1 once it is there.
    pub fn up(&mut self)
        ensures { self.new ≡ record self.old { running = one_more self.old.running } }
    {
        self.running = self.running.saturating_add(1);
    }

    /// Counts one running caller fewer. The count stays at 0 once it is there.
    pub fn down(&mut self)
        ensures { self.new ≡ record self.old { running = one_less self.old.running } }
    {
        self.running = self.running.saturating_sub(1);
    }
}

/// The milliseconds until the next reseed (`crng_reseed_interval`). While the system is young, the interval is half the
/// system's age, in whole seconds, and at least one second. From the first reseed at an age of 120 seconds or more, the
/// interval is always a minute.
fn reseed_interval(early_boot: &mut bool, now: u64) -> u64
    ensures early_boot { early_boot.new ≡ early_boot_after (Some now) early_boot.old }
    ensures interval { result ≡ interval early_boot.old now }
{
    let seconds = now / 1000;
    if seconds >= 120 {
        *early_boot = false;
    }
    if *early_boot {
        (seconds / 2 * 1000).max(1000)
    } else {
        60_000
    }
}
