//! The bytes of a read, and how they are made.
ghost use Rattle.std.specs.Prelude.{◌≡◌, ℕ, ◌+◌, ◌^◌, ◌<◌, ◌↔◌, ◌++◌, length, take, IsTrue, IfOk, OnErr};
ghost use Rattle.key_names.specs.Kernel.Keystream.{keystream};

use chacha_blocks::{derive_key, fill};
use std::alloc::AllocError;
use std::marker::Model;
use vdso_state::VState;
use vdso_state::state::Passed;

/// The bytes are made in pieces of this length.
const PIECE_BYTES: usize = 4096;

/// At most this many bytes are made in one piece, in a shorter buffer.
const SHORT_BYTES: usize = 512;

/// A recipe for the bytes of a read. There are fewer than 2^32 bytes, and at most the first 96 of them exist already.
/// The others are a piece of a key's keystream, and are made only when they are needed.
#[derive(Drop)]
pub struct Served {
    front: [u8; 96],
    front_len: u8,
    key: [u8; 32],
    from: u64,
    len: u32,
}

impl Model for Served {
    ghost use Rattle.std.specs.Prelude.{◌+◌, ◌^◌, ◌<◌, ◌≤◌, take};
    ghost use Rattle.judge_vread.specs.Recipe.{Recipe};

    ghost Value = { Recipe };

    ghost view = { λ s. record { front = take s.front_len s.front; key = s.key; from = s.from; len = s.len } };

    ghost invariant = { λ s. (s.front_len ≤ 96) × (s.from < 2 ^ 32) × (s.front_len + s.len < 2 ^ 32) };
}

impl Served {
    ghost use Rattle.std.specs.Prelude.{◌≡◌, ℕ, ◌+◌, ◌*◌, ◌^◌, ◌<◌, ◌≤◌, ◌↔◌, [], ◌++◌, length, take, IsTrue, IfOk, OnErr};
    ghost use Rattle.key_names.specs.Kernel.BatchCopy.{state_after_copy, block_after_copy};
    ghost use Rattle.judge_vread.specs.Recipe.{no_recipe, user_recipe, kernel_recipe, int_recipe, copy_recipe, bytes_made};

    fn of_key(key: [u8; 32], from: u64, len: u32) -> Served
        requires { from < 2 ^ 32 }
        ensures { result ≡ record { front = []; key = key; from = from; len = len } }
    {
        Served {
            front: [0; 96],
            front_len: 0,
            key,
            from,
            len,
        }
    }

    /// The recipe for no bytes.
    pub fn none() -> Served
        ensures { result ≡ no_recipe }
    {
        Served::of_key([0; 32], 0, 0)
    }

    /// The recipe for a user's read of `len` bytes with this key in use (`get_random_bytes_user`).
    pub fn of_user(key: &[u8; 32], len: u32) -> Served
        ensures { result ≡ user_recipe key.now len }
    {
        if len > 32 {
            let mut erased = *key;
            Served::of_key(derive_key(&mut erased), 64, len)
        } else {
            Served::of_key(*key, 32, len)
        }
    }

    /// The recipe for the kernel's read of `len` bytes with this key in use (`_get_random_bytes`).
    pub fn of_kernel(key: &[u8; 32], len: u32) -> Served
        ensures { result ≡ kernel_recipe key.now len }
    {
        Served::of_key(*key, 32, len)
    }

    /// The recipe for the integer of `width` bytes that a batch serves after `count` other integers. `key` was in use
    /// when the batch was filled. `width * count` must be below 2^31.
    pub fn of_int(key: &[u8; 32], width: u8, count: u32) -> Served
        requires { width * count < 2 ^ 31 }
        ensures { result ≡ int_recipe key.now width count }
    {
        Served::of_key(
            *key,
            32 + u64::from(width) * u64::from(count),
            u32::from(width),
        )
    }

    /// Copies `len` bytes out of a state, and changes the state as the copy does. Returns the recipe for the bytes, and
    /// the key's next block after the copy. `next_block` is the next block before it. Both `next_block` and `len` are
    /// at most 2^20.
    pub fn of_copy(st: &mut VState, next_block: u64, len: u32) -> (Served, u64)
        requires near { next_block ≤ 2 ^ 20 }
        requires short { len ≤ 2 ^ 20 }
        ensures served { result.0 ≡ copy_recipe st.old next_block len }
        ensures next { result.1 ≡ block_after_copy st.old next_block len }
        ensures near { result.1 ≤ next_block + 2 ^ 14 + 2 }
        ensures state { st.new ≡ state_after_copy st.old next_block len }
    {
        let Passed {
            front,
            taken,
            key,
            next_block: following,
        } = st.pass(next_block, len);
        let served = Served {
            front,
            front_len: taken,
            key,
            from: 64 * next_block,
            len: len - u32::from(taken),
        };
        (served, following)
    }

    /// The number of bytes that the recipe makes.
    pub fn len(&self) -> usize
        ensures bytes { result ≡ length (bytes_made self.now) }
        ensures short { result < 2 ^ 32 }
    {
        usize::from(self.front_len) + self.len as usize
    }

    /// Makes the bytes of the recipe, and appends them to `out`.
    ///
    /// # Errors
    ///
    /// `AllocError` if memory runs out; then a prefix of the bytes may have been appended.
    pub fn put(&self, out: &mut Vec<u8>) -> Result<(), AllocError>
        ensures short { length (bytes_made self.now) < 2 ^ 32 }
        ensures made { IfOk result (λ _. out.new.items ≡ out.old.items ++ bytes_made self.now) }
        ensures part { OnErr result ((n : ℕ) × (out.new.items ≡ out.old.items ++ take n (bytes_made self.now))) }
    {
        out.extend_from_slice(&self.front[..usize::from(self.front_len)])?;
        put_key(&self.key, self.from, self.len as usize, out)
    }

    /// Whether the recipe's bytes equal `bytes`.
    pub fn is(&self, bytes: &[u8]) -> bool
        ensures { IsTrue result ↔ (bytes.now ≡ bytes_made self.now) }
    {
        let front = &self.front[..usize::from(self.front_len)];
        if bytes.len() != self.len() {
            return false;
        }
        let (first, rest) = bytes.split_at(front.len());
        are_same(first, front) && is_key(&self.key, self.from, rest)
    }
}

fn are_same(a: &[u8], b: &[u8]) -> bool
    ensures { IsTrue result ↔ (a.now ≡ b.now) }
{
    a == b
}

/// Appends `len` bytes of the key's keystream to `out`, from position `from` on. The bytes are made in a buffer. For
/// few bytes the buffer is shorter, since it is cleared for each read.
fn put_key(key: &[u8; 32], from: u64, len: usize, out: &mut Vec<u8>) -> Result<(), AllocError>
    requires { from + len < 2 ^ 40 }
    ensures made { IfOk result (λ _. out.new.items ≡ out.old.items ++ keystream key.now from len) }
    ensures part { OnErr result ((n : ℕ) × (out.new.items ≡ out.old.items ++ take n (keystream key.now from len))) }
{
    if len <= SHORT_BYTES {
        put_key_by(key, from, len, out, &mut [0; SHORT_BYTES])
    } else {
        put_key_by(key, from, len, out, &mut [0; PIECE_BYTES])
    }
}

/// Appends bytes of the key's keystream as `put_key` does, in pieces that have the buffer's length.
fn put_key_by(
    key: &[u8; 32],
    from: u64,
    len: usize,
    out: &mut Vec<u8>,
    piece: &mut [u8],
) -> Result<(), AllocError>
    requires near { from + len < 2 ^ 40 }
    requires room { 0 < length piece.old }
    ensures made { IfOk result (λ _. out.new.items ≡ out.old.items ++ keystream key.now from len) }
    ensures part { OnErr result ((n : ℕ) × (out.new.items ≡ out.old.items ++ take n (keystream key.now from len))) }
{
    let mut done = 0;
    while done < len {
        let next = piece.len().min(len - done);
        let part = &mut piece[..next];
        fill(key, from + done as u64, part);
        out.extend_from_slice(part)?;
        done += next;
    }
    Ok(())
}

/// Whether `bytes` equal the key's keystream from position `from` on.
fn is_key(key: &[u8; 32], from: u64, bytes: &[u8]) -> bool
    requires { from + length bytes.now < 2 ^ 40 }
    ensures { IsTrue result ↔ (bytes.now ≡ keystream key.now from (length bytes.now)) }
{
    if bytes.len() <= SHORT_BYTES {
        is_key_by(key, from, bytes, &mut [0; SHORT_BYTES])
    } else {
        is_key_by(key, from, bytes, &mut [0; PIECE_BYTES])
    }
}

/// Compares bytes with the key's keystream as `is_key` does, in pieces that have the buffer's length.
fn is_key_by(key: &[u8; 32], from: u64, bytes: &[u8], piece: &mut [u8]) -> bool
    requires near { from + length bytes.now < 2 ^ 40 }
    requires room { 0 < length piece.old }
    ensures { IsTrue result ↔ (bytes.now ≡ keystream key.now from (length bytes.now)) }
{
    let mut done = 0;
    while done < bytes.len() {
        let next = piece.len().min(bytes.len() - done);
        let part = &mut piece[..next];
        fill(key, from + done as u64, part);
        if !are_same(part, &bytes[done..done + next]) {
            return false;
        }
        done += next;
    }
    true
}
