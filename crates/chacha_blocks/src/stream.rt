//! Bytes of a key's keystream from any position.

ghost use Rattle.std.specs.Prelude.{◌≡◌, ◌+◌, ◌*◌, ◌%◌, ◌^◌, ◌<◌, ◌≤◌, length};
ghost use Rattle.key_names.specs.Kernel.Keystream.{keystream};

use crate::block::{BLOCK_BYTES, block, two_blocks};
use crate::reader::KeystreamReader;

const BLOCK_WORDS: u64 = 16;

/// The number of bytes in two blocks, and in the four blocks that a [`KeystreamReader`] makes at a time.
const PAIR_BYTES: usize = 2 * BLOCK_BYTES;

const RUN_BYTES: usize = 4 * BLOCK_BYTES;

/// Fills `buf` with the keystream of `key` from byte position `from` on. The position and the length add up to less
/// than 2^40.
pub fn fill(key: &[u8; 32], from: u64, buf: &mut [u8])
    requires { from + length buf.old < 2 ^ 40 }
    ensures { buf.new ≡ keystream key.now from (length buf.old) }
{
    let next = from.div_ceil(BLOCK_BYTES as u64);
    let over = buf.len().min((next * BLOCK_BYTES as u64 - from) as usize);
    let (front, rest) = buf.split_at_mut(over);
    fill_in_block(key, from, front);
    fill_from_block(key, next, rest);
}

// Fills `buf` from any position on, at most to the end of that position's block.
fn fill_in_block(key: &[u8; 32], from: u64, buf: &mut [u8])
    requires { from % 64 + length buf.old ≤ 64 }
    ensures { buf.new ≡ keystream key.now from (length buf.old) }
{
    if !buf.is_empty() {
        let inside = (from % BLOCK_BYTES as u64) as usize;
        buf.copy_from_slice(&block(key, from / BLOCK_BYTES as u64)[inside..inside + buf.len()]);
    }
}

/// Fills `buf` with the keystream of `key` from the start of block `first` on. A reader makes each full run of four
/// blocks. The remaining blocks are made in pairs, since a reader always computes four.
pub(crate) fn fill_from_block(key: &[u8; 32], first: u64, buf: &mut [u8])
    requires { first + length buf.old < 2 ^ 40 }
    ensures { buf.new ≡ keystream key.now (64 * first) (length buf.old) }
{
    let (runs, rest) = buf.split_at_mut(buf.len() - buf.len() % RUN_BYTES);
    let (front, back) = rest.split_at_mut(rest.len().min(PAIR_BYTES));
    let next = first + (runs.len() / BLOCK_BYTES) as u64;
    fill_by_runs(key, first, runs);
    fill_by_pair(key, next, front);
    fill_by_pair(key, next + 2, back);
}

fn fill_by_runs(key: &[u8; 32], first: u64, buf: &mut [u8])
    requires { first + length buf.old < 2 ^ 40 }
    ensures { buf.new ≡ keystream key.now (64 * first) (length buf.old) }
{
    if !buf.is_empty() {
        KeystreamReader::at(key, first * BLOCK_WORDS).read(buf);
    }
}

/// Fills `buf`, at most two blocks, with the keystream of `key` from the start of block `first` on.
fn fill_by_pair(key: &[u8; 32], first: u64, buf: &mut [u8])
    requires near { first < 2 ^ 41 }
    requires short { length buf.old ≤ 128 }
    ensures { buf.new ≡ keystream key.now (64 * first) (length buf.old) }
{
    match buf.len() {
        0 => {}
        1..=BLOCK_BYTES => buf.copy_from_slice(&block(key, first)[..buf.len()]),
        _ => buf.copy_from_slice(&two_blocks(key, first)[..buf.len()]),
    }
}
