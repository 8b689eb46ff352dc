//! The entries of each lane's list, and of a vgetrandom state's list.
//!
//! A moment `now` is in milliseconds, and a place is the number of an entry in its lane's list, from 0.

use crate::text::Text;

/// Whether a read is for a user or for the kernel, and the number of bytes that its call asked for.
#[derive(Clone, Copy, Debug, PartialEq, Eq)]
pub enum Taken {
    /// For a user. If the read has more than 32 bytes, the visit hands over one key, and this key makes all bytes of
    /// the read (`get_random_bytes_user`).
    User(u32),
    /// For the kernel. All bytes of the read come from the key in use. The visit itself makes only the first of them,
    /// at most 32 (`get_random_bytes`).
    Kernel(u32),
}

/// An entry of the pool's list.
#[derive(Drop)]
pub enum PoolEntry {
    /// `text` is mixed into the pool, and `bits` are credited.
    Mix {
        text: Text,
        bits: u32,
    },
    /// An input event at moment `now`. In the kernel `word` is the cycle counter.
    Input {
        word: u64,
        kind: u16,
        code: u16,
        value: u8,
        now: u64,
    },
    /// The number of credited bits is read.
    Bits,
    /// A root is extracted for the base's place `base_place`, with 32 bytes from the hardware.
    Extract {
        hw: [u8; 32],
        base_place: u64,
    },
}

/// An entry of the base's list. A root is named by the pool place of its extraction.
#[derive(Clone, Copy, Debug, PartialEq, Eq)]
pub enum BaseEntry {
    /// The credited bits reached 128, and the root becomes an early key. If no root is named, the base was no longer
    /// empty, and it keeps its key (`_credit_init_bits`).
    Early { root: Option<u64> },
    /// A reseed (`crng_reseed`).
    Reseed { root: u64, now: u64 },
    /// The reseed timer is checked. If the timer was due, the core is reseeded with `root`.
    Tick { now: u64, root: Option<u64> },
    /// A read from the base before the core is ready. If the base was empty, the root replaces the base's key
    /// (`crng_make_state`).
    Draw { root: Option<u64>, taken: Taken },
    /// The base hands over a key for the CPU's entry at this place (`crng_fast_key_erasure` of the base's key).
    Refill { cpu: u32, cpu_place: u64 },
    /// A caller is forked.
    Fork { child: u32 },
    /// A caller ends.
    End,
    /// A read begins to wait until the core is ready (`wait_for_random_bytes`).
    Wait,
    /// A waiting read goes on, since the core is ready.
    Resume,
    /// A waiting read gives up, since no running caller is left that could make the core ready.
    Interrupt,
    /// A caller pauses, because no thread could be started for its child, and runs the child itself.
    Stall,
    /// A stalled caller goes on after it ran its child.
    Unstall,
}

/// An entry of a CPU's list. A look is the generation that the call read, a refill is the base place that gave the CPU
/// its key, and a width counts bytes.
#[derive(Clone, Copy, Debug, PartialEq, Eq)]
pub enum CpuEntry {
    /// A read takes from the CPU's key (`crng_make_state`).
    Read {
        look: u64,
        refill: Option<u64>,
        taken: Taken,
    },
    /// An integer of `width` bytes from its batch. The batch is `filled` first if it has no fill, is used up, or was
    /// filled at another generation (`get_random_u8` to `get_random_u64`).
    Int {
        look: u64,
        refill: Option<u64>,
        width: u8,
        filled: bool,
    },
    /// An interrupt's two words are mixed into the fast pool (`add_interrupt_randomness`).
    Irq {
        v1: u64,
        v2: u64,
        now: u64,
    },
    /// The fast pool is dumped: two of its words and a credit go to the input pool (`mix_interrupt_randomness`).
    Dump {
        now: u64,
    },
    /// The CPU loses its generation and its batches (`random_prepare_cpu`).
    Prepare,
    /// The count of the fast pool starts again (`random_online_cpu`).
    Online,
}

/// An entry of the list of one vgetrandom state.
#[derive(Clone, Copy, Debug, PartialEq, Eq)]
pub enum VEntry {
    /// The read at this place of the CPU gives the state its key.
    Rekey { cpu: u32, cpu_place: u64 },
    /// `count` blocks of the key's keystream, of 64 bytes each, are served from block `from` on.
    Blocks { from: u64, count: u64 },
    /// The 96 bytes of the key's keystream from block `from` on become the batch. The 32 bytes after them become the
    /// next key.
    Refill { from: u64 },
    /// The `len` bytes of the batch from its byte `pos` on are served.
    Serve { pos: u8, len: u8 },
    /// The whole state becomes zeros.
    Wipe,
}
