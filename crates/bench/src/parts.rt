//! Loops to measure, one for each primitive or part of the core. A loop returns 8 bytes of its last result.
use blake2s_core::{Blake2s, hash};
use chacha_blocks::{erase, fill};
use rand_chacha::ChaCha20Rng;
use rand_core::SeedableRng;
use rand_core::utils::fill_bytes_via_u32;
use sample_credit::FastPool;
use std::alloc::{AllocError, Global};

const KEY: [u8; 32] = [0; 32];

const READ: usize = 4096;

// A sample that fills one block of the hash.
const SAMPLE: [u8; 64] = [0; 64];

const MANY: u32 = 256;

// The number whose digits in base 256 are the last 8 bytes, or all bytes if there are fewer.
pub(crate) fn end_of(bytes: &[u8]) -> u64 {
    let last = bytes.len().saturating_sub(8);
    bytes[last..]
        .iter()
        .fold(0, |number: u64, byte| number << 8 | u64::from(*byte))
}

/// `len` bytes of a key's stream, written by the library.
pub fn keystream(alloc: Global, len: u32) -> Result<u64, AllocError> {
    let mut bytes = vec![in alloc; 0; len as usize]?;
    fill(&KEY, 0, &mut bytes);
    Ok(end_of(&bytes))
}

/// `len` bytes of a key's stream, written by the generator on which the library is built.
pub fn plain(alloc: Global, len: u32) -> Result<u64, AllocError> {
    let mut bytes = vec![in alloc; 0; len as usize]?;
    let mut generator = ChaCha20Rng::from_seed(KEY);
    fill_bytes_via_u32(&mut generator, &mut bytes);
    Ok(end_of(&bytes))
}

/// The hash of `len` zero bytes.
pub fn hashed(alloc: Global, len: u32) -> Result<u64, AllocError> {
    let bytes = vec![in alloc; 0; len as usize]?;
    Ok(end_of(&hash(None, &bytes)))
}

/// The hash of `count` samples of 64 zero bytes. `MANY` samples are appended at once, so nearly all work is their
/// compression.
pub fn bulk(count: u32) -> u64 {
    let samples = [0; 64 * MANY as usize];
    let mut hash = Blake2s::plain();
    for _ in 0..count / MANY {
        hash.update(&samples);
    }
    hash.update(&samples[..64 * (count % MANY) as usize]);
    end_of(&hash.finish())
}

/// The hash of `count` samples as in `bulk`, with a separate call for each sample.
pub fn updated(count: u32) -> u64 {
    let mut hash = Blake2s::plain();
    for _ in 0..count {
        hash.update(&SAMPLE);
    }
    end_of(&hash.finish())
}

/// The root of an input pool, after `count` samples of 64 zero bytes were mixed into it.
pub fn mixed(count: u32) -> u64 {
    let mut pool = input_pool::Pool::start();
    for _ in 0..count {
        pool.mix(&SAMPLE);
    }
    end_of(&pool.extract(&[0; 32]))
}

// This is a separate function so that the pool is in memory between two interrupts.
#[inline(never)]
fn interrupt(pool: &mut FastPool, v1: u64, v2: u64, now: u64) -> bool {
    pool.mix(v1, v2, now)
}

/// A fast pool after `count` interrupts, one each millisecond, with each dump made as soon as it is due. The result
/// includes the credit of the dumps.
pub fn interrupts(count: u32) -> u64 {
    let mut pool = FastPool::start();
    let end = u64::from(count);
    let mut credited: u64 = 0;
    for now in 0..end {
        if interrupt(&mut pool, now, end, now) {
            credited = credited.wrapping_add(u64::from(pool.dump(now).bits));
        }
    }
    end_of(&pool.dump(end).bytes).wrapping_add(credited)
}

// One of the two blocks that an extraction hashes. The hardware's bytes are all zero.
fn extracted(seed: &[u8; 32], counter: u64) -> [u8; 32] {
    let mut block = Blake2s::keyed(seed);
    block.update(&[0; 32]);
    block.update(&counter.to_le_bytes());
    block.finish()
}

// The state between two reads, which is the pool without credits.
#[derive(Drop)]
struct PoolLoop {
    hash: Blake2s,
}

impl PoolLoop {
    fn empty() -> PoolLoop {
        PoolLoop {
            hash: Blake2s::plain(),
        }
    }

    // A write of three bytes, and a read. The read extracts a root and fills the buffer from it.
    fn write_and_read(&mut self, bytes: &mut [u8; READ]) {
        self.hash.update(b"abc");
        let seed = std::mem::replace(&mut self.hash, Blake2s::plain()).finish();
        self.hash = Blake2s::keyed(&extracted(&seed, 0));
        let mut base_key = extracted(&seed, 1);
        let mut call_key = [0; 32];
        erase(&mut base_key, &mut call_key);
        fill(&call_key, 64, bytes);
    }
}

/// `count` writes of three bytes, each followed by a read of 4,096 bytes, made directly on the primitives.
pub fn reads(count: u32) -> u64 {
    let mut pool = PoolLoop::empty();
    let mut bytes = [0; READ];
    for _ in 0..count {
        pool.write_and_read(&mut bytes);
    }
    end_of(&bytes)
}

/// The writes and reads of `reads`, with the bytes of each read in hexadecimal, as in a transcript.
pub fn shown(count: u32) -> u64 {
    let mut pool = PoolLoop::empty();
    let mut bytes = [0; READ];
    let mut digits = [0; 2 * READ];
    for _ in 0..count {
        pool.write_and_read(&mut bytes);
        let _fits = hex::encode_to_slice(&bytes[..], &mut digits);
    }
    end_of(&digits)
}
