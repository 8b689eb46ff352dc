//! A CPU's fast pool. Interrupts are mixed into it until there are enough of them for a dump into the input pool.

ghost use Rattle.std.specs.Prelude.{◌≡◌};
ghost use Rattle.key_names.specs.Kernel.FastPool.{dump_bits, dump_bytes, fast_start, fast_step, makes_due, sip_round, word_mixed};
ghost use Rattle.key_names.specs.declared.entries.CpuEntry.TheVariants.{Irq, Dump as Dumped, Online};

use byteorder::{ByteOrder, LittleEndian};
use std::marker::Model;
use std::mem;

/// Bit 31 of the count: a dump is due and was not made yet (`MIX_INFLIGHT`).
const MIX_INFLIGHT: u32 = 1 << 31;

/// The number of interrupts after which a dump is due.
const BURST: u32 = 1024;

/// A second (`HZ`) in milliseconds. A dump is due if the last one is more than a second ago.
const SECOND: u64 = 1000;

// The four words of a fast pool (`fast_pool.pool`).
#[derive(Clone, Copy)]
struct PoolWords {
    s0: u64,
    s1: u64,
    s2: u64,
    s3: u64,
}

impl Model for PoolWords {
    ghost use Rattle.key_names.specs.Kernel.FastPool.{FastWords};

    ghost Value = { FastWords };

    ghost view = { λ w. record { s0 = w.s0; s1 = w.s1; s2 = w.s2; s3 = w.s3 } };

    ghost inverse = { λ v. record { s0 = v.s0; s1 = v.s1; s2 = v.s2; s3 = v.s3 } };
}

impl PoolWords {
    // One round of SipHash (`FASTMIX_PERM`).
    #[inline(always)]
    fn permuted(self) -> PoolWords
        ensures { result ≡ sip_round self }
    {
        let a = self.s0.wrapping_add(self.s1);
        let b = self.s1.rotate_left(13) ^ a;
        let a = a.rotate_left(32);
        let c = self.s2.wrapping_add(self.s3);
        let d = self.s3.rotate_left(16) ^ c;
        let a = a.wrapping_add(d);
        let d = d.rotate_left(21) ^ a;
        let c = c.wrapping_add(b);
        let b = b.rotate_left(17) ^ c;
        let c = c.rotate_left(32);
        PoolWords {
            s0: a,
            s1: b,
            s2: c,
            s3: d,
        }
    }

    // Mixes in one word: half of the kernel's `fast_mix`.
    #[inline(always)]
    fn mixed(self, word: u64) -> PoolWords
        ensures { result ≡ word_mixed self word }
    {
        let words = PoolWords {
            s3: self.s3 ^ word,
            ..self
        }
        .permuted();
        PoolWords {
            s0: words.s0 ^ word,
            ..words
        }
    }
}

/// The bytes and the credit that a dump gives to the input pool.
#[derive(Clone, Copy, Debug, PartialEq, Eq)]
pub struct Dump {
    /// The bytes to mix into the input pool.
    pub bytes: [u8; 16],
    /// The bits to credit for the bytes, 1 to 128.
    pub bits: u32,
}

/// The kernel's `struct fast_pool`: four words that a CPU's interrupts are mixed into, the number of interrupts since
/// the last dump, and the moment of that dump in milliseconds.
///
/// In contracts it is the fast pool of `key_names`, and each call is an entry of the CPU's list.
#[derive(Drop)]
pub struct FastPool {
    words: PoolWords,
    count: u32,
    last: u64,
}

impl Model for FastPool {
    ghost use Rattle.key_names.specs.Kernel.FastPool.{FastPool as FastPoolState};

    ghost Value = { FastPoolState };

    ghost view = { λ p. record { words = p.words; count = p.count; last = p.last } };
}

impl FastPool {
    /// Makes a fast pool with the words that SipHash starts from under a zero key. The count and the moment of the last
    /// dump are 0.
    pub fn start() -> FastPool
        ensures { result ≡ fast_start }
    {
        let words = PoolWords {
            s0: 0x736f_6d65_7073_6575,
            s1: 0x646f_7261_6e64_6f6d,
            s2: 0x6c79_6765_6e65_7261,
            s3: 0x7465_6462_7974_6573,
        };
        FastPool {
            words,
            count: 0,
            last: 0,
        }
    }

    /// Mixes the two words of an interrupt (`fast_mix`), and counts the interrupt, modulo 2^32. Returns whether the
    /// interrupt makes a dump due: it is the 1,024th that is counted, or comes more than a second after the last dump
    /// (`add_interrupt_randomness`). While a dump is due, no other dump becomes due. `now` is in milliseconds.
    #[inline]
    pub fn mix(&mut self, v1: u64, v2: u64, now: u64) -> bool
        ensures due { result ≡ makes_due self.old now }
        ensures mixed { self.new ≡ fast_step self.old (Irq v1 v2 now) }
    {
        self.words = self.words.mixed(v1).mixed(v2);
        self.count = self.count.wrapping_add(1);
        let due = self.count < MIX_INFLIGHT
            && (self.count >= BURST || now.saturating_sub(self.last) > SECOND);
        if due {
            self.count += MIX_INFLIGHT;
        }
        due
    }

    /// Returns the first two words, low byte first, for the input pool. Their credit is one bit for each 64 interrupts
    /// of the count modulo 2^16, but at least 1 bit and at most 128 bits (`mix_interrupt_randomness`). The count goes
    /// back to 0, and `now` becomes the moment of the last dump. The words do not change.
    pub fn dump(&mut self, now: u64) -> Dump
        ensures bytes { result.bytes ≡ dump_bytes self.old }
        ensures bits { result.bits ≡ dump_bits self.old }
        ensures emptied { self.new ≡ fast_step self.old (Dumped now) }
    {
        let mut bytes = [0; 16];
        LittleEndian::write_u64_into(&[self.words.s0, self.words.s1], &mut bytes);
        let interrupts = mem::take(&mut self.count) % (1 << 16);
        self.last = now;
        Dump {
            bytes,
            bits: (interrupts / 64).clamp(1, 128),
        }
    }

    /// The CPU comes online: the count goes back to 0 (`random_online_cpu`). The words and the moment of the last dump
    /// do not change.
    pub fn online(&mut self)
        ensures { self.new ≡ fast_step self.old Online }
    {
        self.count = 0;
    }
}
