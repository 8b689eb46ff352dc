//! One CPU's key and its generation.

ghost use Rattle.std.specs.Prelude.{◌≡◌, ◌≢◌, ◌+◌, ◌^◌, ◌<◌, ◌≤◌, length, MatchBool};
ghost use Rattle.key_names.specs.declared.entries.Taken.TheVariants.{Kernel};
ghost use Rattle.key_names.specs.Kernel.Keystream.{keystream};
ghost use Rattle.key_names.specs.Keys.KeyInUse.{taken_bytes};
ghost use Rattle.cpu_gen.specs.CpuValue.{start, erased, prepared};

use chacha_blocks::{Detached, derive_key, erase, erase_and_fill};
use std::marker::Model;

/// One CPU's generator (`struct crng`). Each read erases the key.
///
/// Generation 0 means that the CPU was never given a key, or was prepared since. A ready base has a higher generation.
#[derive(Drop)]
pub struct Cpu {
    key: [u8; 32],
    generation: u64,
}

impl Model for Cpu {
    ghost use Rattle.cpu_gen.specs.CpuValue.{CpuValue};

    ghost Value = { CpuValue };

    ghost view = { λ c. record { key = c.key; generation = c.generation } };
}

impl Cpu {
    /// A CPU that was never given a key: zeros, generation 0.
    pub fn start() -> Cpu
        ensures { result ≡ start }
    {
        Cpu::with([0; 32], 0)
    }

    /// A CPU with the given key and generation.
    pub fn with(key: [u8; 32], generation: u64) -> Cpu
        ensures { result ≡ record { key = key; generation = generation } }
    {
        Cpu { key, generation }
    }

    /// The base's generation when the key came from it, or 0.
    pub fn generation(&self) -> u64
        ensures { result ≡ self.now.generation }
    {
        self.generation
    }

    /// Whether the CPU's generation is not `g`, so that a read at `g` has to refill first. This is for users of the
    /// crate without lanes; the core compares [`Cpu::generation`], which its entries record.
    pub fn needs(&self, g: u64) -> bool
        ensures { MatchBool result (self.now.generation ≢ g) (self.now.generation ≡ g) }
    {
        self.generation != g
    }

    /// Takes over a key that the base handed out at generation `g` (`crng_make_state`).
    pub fn refill(&mut self, key: [u8; 32], g: u64)
        ensures { self.new ≡ record { key = key; generation = g } }
    {
        *self = Cpu::with(key, g);
    }

    /// Erases the key, and returns bytes 32 to 64 of its keystream as the key of one user's read of more than 32 bytes
    /// (`get_random_bytes_user`).
    pub fn call_key(&mut self) -> [u8; 32]
        ensures state { self.new ≡ erased self.old }
        ensures key { result ≡ keystream self.old.key 32 32 }
    {
        derive_key(&mut self.key)
    }

    /// Erases the key (`crng_fast_key_erasure`). Fills `out`, which has at most 32 bytes, from the rest of the
    /// erasure's block. Returns the old key, with block 1 as its next block.
    pub fn front(&mut self, out: &mut [u8]) -> Detached
        requires { length out.old ≤ 32 }
        ensures state { self.new ≡ erased self.old }
        ensures out { out.new ≡ keystream self.old.key 32 (length out.old) }
        ensures key { result.key ≡ self.old.key }
        ensures next_block { result.next_block ≡ 1 }
    {
        erase(&mut self.key, out)
    }

    /// Fills `buf`, of fewer than 2^40 - 32 bytes, for the kernel (`_get_random_bytes`). The key is erased unless `buf`
    /// is empty. This is [`Cpu::front`] and [`Detached::more`] in one.
    pub fn kernel_read(&mut self, buf: &mut [u8])
        requires { 32 + length buf.old < 2 ^ 40 }
        ensures none { length buf.old ≡ 0 → self.new ≡ self.old }
        ensures some { 0 < length buf.old → self.new ≡ erased self.old }
        ensures bytes { buf.new ≡ taken_bytes self.old.key (Kernel (length buf.old)) }
    {
        if !buf.is_empty() {
            erase_and_fill(&mut self.key, buf);
        }
    }

    /// Prepares a CPU that is about to come online (`random_prepare_cpu`). Generation 0 marks the key as old, as
    /// `ULONG_MAX` does in the kernel. The key stays until it is replaced.
    pub fn prepare(&mut self)
        ensures { self.new ≡ prepared self.old }
    {
        self.generation = 0;
    }
}
