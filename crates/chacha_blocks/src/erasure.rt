//! Fast key erasure, as in the kernel's `crng_fast_key_erasure`: the first bytes of a key's keystream replace the key,
//! and only later bytes are handed out.

ghost use Rattle.std.specs.Prelude.{◌≡◌, ◌+◌, ◌*◌, ◌/◌, ◌^◌, ◌<◌, ◌≤◌, length};
ghost use Rattle.key_names.specs.Kernel.Keystream.{keystream};

use crate::block::{BLOCK_BYTES, block, two_blocks};
use crate::stream::fill_from_block;

const KEY_BYTES: usize = 32;

/// How many bytes follow the new key: in the erasure's block alone, and in the erasure's block and the next block
/// together.
pub(crate) const REST_OF_BLOCK: usize = BLOCK_BYTES - KEY_BYTES;

const REST_OF_PAIR: usize = 2 * BLOCK_BYTES - KEY_BYTES;

/// A key, and the number of the block from which its next bytes come. A long read goes on with this key after the
/// stored key was erased, like the kernel with the `chacha_state` on its stack.
#[derive(Drop)]
pub struct Detached {
    pub key: [u8; 32],
    pub next_block: u64,
}

impl Detached {
    /// The key `key`, whose next bytes come from block `next_block` on.
    pub fn of(key: [u8; 32], next_block: u64) -> Detached
        ensures key { result.key ≡ key }
        ensures next_block { result.next_block ≡ next_block }
    {
        Detached { key, next_block }
    }

    /// Fills `buf` with keystream from the start of the next block, and moves on to the first block that it did not
    /// use. Unused bytes of the last block are lost. The block's number and the length of `buf` add up to less than
    /// 2^40.
    pub fn more(&mut self, buf: &mut [u8])
        requires { self.old.next_block + length buf.old < 2 ^ 40 }
        ensures bytes { buf.new ≡ keystream self.old.key (64 * self.old.next_block) (length buf.old) }
        ensures key { self.new.key ≡ self.old.key }
        ensures next_block { self.new.next_block ≡ self.old.next_block + (length buf.old + 63) / 64 }
    {
        fill_from_block(&self.key, self.next_block, buf);
        self.next_block += buf.len().div_ceil(BLOCK_BYTES) as u64;
    }
}

/// Replaces the key by bytes 0 to 32 of its own keystream, and fills `out` with the bytes from 32 on. `out` has at most
/// 32 bytes. Returns the replaced key, with block 1 next. This is the kernel's `crng_fast_key_erasure`.
pub fn erase(key: &mut [u8; 32], out: &mut [u8]) -> Detached
    requires { length out.old ≤ 32 }
    ensures erased { key.new ≡ keystream key.old 0 32 }
    ensures out { out.new ≡ keystream key.old 32 (length out.old) }
    ensures key { result.key ≡ key.old }
    ensures next_block { result.next_block ≡ 1 }
{
    let old = *key;
    let bytes = block(&old, 0);
    key.copy_from_slice(&bytes[..KEY_BYTES]);
    out.copy_from_slice(&bytes[KEY_BYTES..KEY_BYTES + out.len()]);
    Detached::of(old, 1)
}

/// Replaces the key by bytes 0 to 32 of its own keystream, and fills `buf` with the bytes from 32 on. `buf` has fewer
/// than 2^40 - 32 bytes. This is a whole kernel read (`_get_random_bytes`): [`erase`] makes the first 32 bytes, and
/// [`Detached::more`] the rest. If `buf` is empty, the key is still erased, unlike in the kernel's function.
pub fn erase_and_fill(key: &mut [u8; 32], buf: &mut [u8])
    requires { 32 + length buf.old < 2 ^ 40 }
    ensures erased { key.new ≡ keystream key.old 0 32 }
    ensures bytes { buf.new ≡ keystream key.old 32 (length buf.old) }
{
    if buf.len() <= REST_OF_BLOCK {
        erase(key, buf);
    } else {
        let old = *key;
        let pair = two_blocks(&old, 0);
        let (front, rest) = buf.split_at_mut(buf.len().min(REST_OF_PAIR));
        key.copy_from_slice(&pair[..KEY_BYTES]);
        front.copy_from_slice(&pair[KEY_BYTES..KEY_BYTES + front.len()]);
        fill_from_block(&old, 2, rest);
    }
}

/// Replaces the key by bytes 0 to 32 of its own keystream, and returns bytes 32 to 64 as another key. The other key is
/// for a CPU, if `key` is the base key, or for one user's read of more than 32 bytes.
pub fn derive_key(key: &mut [u8; 32]) -> [u8; 32]
    ensures erased { key.new ≡ keystream key.old 0 32 }
    ensures derived { result ≡ keystream key.old 32 32 }
{
    let mut derived = [0; 32];
    erase(key, &mut derived);
    derived
}
