//! The hash into which samples are mixed, and the bits credited for them.

ghost use Rattle.std.specs.Prelude.{◌≡◌, ℕ};
ghost use Rattle.key_names.specs.Kernel.Blake2s.{blake2s};
ghost use Rattle.key_names.specs.Lanes.PoolList.{PoolState, credit, crossing, pool_start, pool_step, root_of_extraction, seed_block};
ghost use Rattle.key_names.specs.declared.entries.PoolEntry.TheVariants.{Mix, Extract};
ghost use Rattle.input_pool.specs.PoolConforms.{PoolConforms};

use blake2s_core::Blake2s;
use std::marker::Model;
use std::mem;

/// The bits at which the core becomes ready (`POOL_READY_BITS`). The pool never has more.
const READY_BITS: u32 = 256;

/// The bits at which the core gets an early key (`POOL_EARLY_BITS`).
const EARLY_BITS: u32 = 128;

/// The threshold that a credit crossed, as `_credit_init_bits` acts on it. A credit that crossed both is `Ready`.
#[derive(Clone, Copy, Debug, PartialEq, Eq)]
pub enum Crossing {
    /// No threshold was crossed.
    None,
    /// The bits were below 128, and are now 128 to 255: a base key may be made before the core is ready.
    Early,
    /// The bits were below 256, and are now 256: the core becomes ready.
    Ready,
}

/// The kernel's `input_pool`: a BLAKE2s hash that every sample is mixed into, and the credited bits, 0 to 256.
///
/// In contracts a pool is a `PoolParts` of specs/. `PoolConforms pool s` means that the hash and the bits match a state
/// `s` of the pool's list. The contract of each call is true for every state that the pool matched before the call.
#[derive(Drop)]
pub struct Pool {
    hash: Blake2s,
    bits: u32,
}

impl Model for Pool {
    ghost use Rattle.std.specs.Prelude.{◌≤◌};
    ghost use Rattle.input_pool.specs.PoolConforms.{PoolParts};

    ghost Value = { PoolParts };

    ghost view = { λ p. record { hash = p.hash; bits = p.bits } };

    ghost invariant = { λ p. p.bits ≤ 256 };
}

// The hash, keyed with the seed, of the hardware's bytes followed by a counter.
fn counted(seed: &[u8; 32], hw: &[u8; 32], counter: u64) -> [u8; 32]
    ensures { result ≡ blake2s (Some seed.now) (seed_block hw.now counter) }
{
    let mut block = Blake2s::keyed(seed);
    block.update(hw);
    block.update(&counter.to_le_bytes());
    block.finish()
}

impl Pool {
    ghost use Rattle.input_pool.specs.PoolConforms.{crossing_of};

    /// A pool without samples: a hash of no bytes, without a key, and no bits.
    pub fn start() -> Pool
        ensures { PoolConforms result pool_start }
    {
        Pool {
            hash: Blake2s::plain(),
            bits: 0,
        }
    }

    /// Mixes bytes into the pool, without credit (`mix_pool_bytes`).
    pub fn mix(&mut self, text: &[u8])
        ensures { (s : PoolState) → PoolConforms self.old s → PoolConforms self.new (pool_step s (Mix text.now 0)) }
    {
        self.hash.update(text);
    }

    /// Credits bits for the bytes that were mixed, up to 256 in all, and returns the threshold that they crossed
    /// (`_credit_init_bits`).
    pub fn credit(&mut self, bits: u32) -> Crossing
        ensures credited { (s : PoolState) → PoolConforms self.old s
            → PoolConforms self.new (record s { bits = credit s.bits bits }) }
        ensures crossed { crossing_of result ≡ crossing self.old.bits self.new.bits }
    {
        let before = self.bits;
        self.bits = READY_BITS.min(before + bits.min(READY_BITS));
        if before < READY_BITS && self.bits == READY_BITS {
            Crossing::Ready
        } else if before < EARLY_BITS && self.bits >= EARLY_BITS {
            Crossing::Early
        } else {
            Crossing::None
        }
    }

    /// The bits credited so far, 0 to 256 (`input_pool.init_bits`).
    pub fn bits(&self) -> u32
        ensures { result ≡ self.now.bits }
    {
        self.bits
    }

    /// Returns a root of 32 bytes, and starts a hash of no bytes under the next key (`extract_entropy`). The hash of
    /// the pool so far is the seed. The next key is the hash, keyed with the seed, of the hardware's bytes and a
    /// counter of 0. The root is the same hash with a counter of 1. The credited bits do not change.
    pub fn extract(&mut self, hw: &[u8; 32]) -> [u8; 32]
        ensures root { (s : PoolState) → PoolConforms self.old s → result ≡ root_of_extraction s hw.now }
        ensures rekeyed { (s : PoolState) (place : ℕ) → PoolConforms self.old s
            → PoolConforms self.new (pool_step s (Extract hw.now place)) }
    {
        let seed = mem::replace(&mut self.hash, Blake2s::plain()).finish();
        let next_key = counted(&seed, hw, 0);
        self.hash = Blake2s::keyed(&next_key);
        counted(&seed, hw, 1)
    }
}
