//! The state in a thread's memory (`struct vgetrandom_state`), and the bytes that are copied out of it.

ghost use Rattle.std.specs.Prelude.{◌≡◌, ◌+◌, ◌-◌, ◌*◌, ◌/◌, ◌%◌, ◌^◌, ◌≤◌, true, false, length, min, take, drop, replicate};
ghost use Rattle.key_names.specs.Kernel.Keystream.{keystream};
ghost use Rattle.key_names.specs.Kernel.VgetrandomState.{VgetrandomState, wiped_state};
ghost use Rattle.key_names.specs.Kernel.BatchCopy.{bytes_left, copy_bytes, state_after_copy, block_after_copy};
ghost use Rattle.key_names.specs.Kernel.BatchCopy.{state_of_same_batch, state_of_new_batch};

use chacha_blocks::fill;
use std::marker::Model;

/// The bytes of a batch: one and a half blocks of the keystream, so that a batch and the next key take two blocks.
const BATCH_BYTES: usize = 96;

const KEY_BYTES: usize = 32;

const BLOCK_BYTES: usize = 64;

/// The bytes that [`VState::pass`] skipped: the first `taken` bytes of `front`, which were in the batch, and then the
/// stream of `key`, from the block that was given to `pass` as `next_block`. The field `next_block` is the next block
/// after the call.
#[derive(Drop)]
pub struct Passed {
    pub front: [u8; 96],
    pub taken: u8,
    pub key: [u8; 32],
    pub next_block: u64,
}

/// A vgetrandom state. Only the bytes of the batch from `pos` on can still be served. The bytes before `pos` were
/// served and are 0, or were dropped when a new key came (`pos` is then 96).
#[derive(Drop)]
pub struct VState {
    pub(crate) batch: [u8; 96],
    pub(crate) key: [u8; 32],
    pub(crate) generation: u64,
    pub(crate) pos: u8,
    pub(crate) in_use: bool,
}

impl Model for VState {
    ghost use Rattle.std.specs.Prelude.{◌≤◌};
    ghost use Rattle.key_names.specs.Kernel.VgetrandomState.{VgetrandomState};

    ghost Value = { VgetrandomState };

    ghost view = { λ s.
        record { batch = s.batch; key = s.key; generation = s.generation; pos = s.pos; in_use = s.in_use } };

    ghost invariant = { λ s. s.pos ≤ 96 };
}

impl VState {
    /// A state whose memory is all zeros: a new state, or a state after a fork or a wipe.
    pub fn wiped() -> VState
        ensures { result ≡ wiped_state }
    {
        VState {
            batch: [0; 96],
            key: [0; 32],
            generation: 0,
            pos: 0,
            in_use: false,
        }
    }

    /// A state with this key for a published generation, and no batch yet. It is for callers that begin in the middle
    /// of a run, as tests do. The states of a run begin wiped.
    pub fn keyed(key: [u8; 32], generation: u64) -> VState
        ensures { result
            ≡ record { batch = replicate 96 0; key = key; generation = generation; pos = 96; in_use = false } }
    {
        VState {
            batch: [0; 96],
            key,
            generation,
            pos: 96,
            in_use: false,
        }
    }

    /// Makes the memory all zeros.
    pub fn wipe(&mut self)
        ensures { self.new ≡ wiped_state }
    {
        *self = VState::wiped();
    }

    /// The published generation that the key was read for, or 0.
    pub fn generation(&self) -> u64
        ensures { result ≡ self.now.generation }
    {
        self.generation
    }

    /// Whether a call is using the state.
    pub fn is_in_use(&self) -> bool
        ensures { result ≡ self.now.in_use }
    {
        self.in_use
    }

    /// The number of bytes of the batch that were not served.
    pub fn left(&self) -> usize
        ensures { result ≡ bytes_left self.now }
    {
        BATCH_BYTES - usize::from(self.pos)
    }

    /// Marks the state as in use, since a call begins.
    pub fn enter(&mut self)
        ensures { self.new ≡ record self.old { in_use = true } }
    {
        self.in_use = true;
    }

    /// Clears the in-use mark, since a call ends.
    pub fn leave(&mut self)
        ensures { self.new ≡ record self.old { in_use = false } }
    {
        self.in_use = false;
    }

    /// Records the generation that the next key is read for. The generation is written before the key is read, so
    /// memory that is wiped in between has generation 0 again.
    pub fn begin_generation(&mut self, generation: u64)
        ensures { self.new ≡ record self.old { generation = generation } }
    {
        self.generation = generation;
    }

    /// Replaces the key. The rest of the batch came from the old key, so none of it is served any more.
    pub fn take_key(&mut self, key: [u8; 32])
        ensures { self.new ≡ record self.old { key = key; pos = 96 } }
    {
        self.key = key;
        self.pos = 96;
    }

    /// Copies the next bytes of the batch over all of `out`, and sets them to 0 in the batch. `out` is no longer
    /// than [`left`](VState::left).
    pub fn copy_from_batch(&mut self, out: &mut [u8])
        requires { length out.old ≤ bytes_left self.old }
        ensures bytes { out.new ≡ take (length out.old) (drop self.old.pos self.old.batch) }
        ensures state { self.new ≡ state_of_same_batch self.old (length out.old) }
    {
        let start = usize::from(self.pos);
        let served = &mut self.batch[start..start + out.len()];
        out.copy_from_slice(served);
        served.fill(0);
        self.pos += out.len() as u8;
    }

    /// Makes a new batch and the next key, from two blocks of the key's keystream: `block` and the next one. The old
    /// key is gone.
    fn refill(&mut self, block: u64)
        requires { block ≤ 2 ^ 21 }
        ensures { self.new ≡ record self.old {
          batch = keystream self.old.key (64 * block) 96;
          key = keystream self.old.key (64 * block + 96) 32;
          pos = 0;
        } }
    {
        let mut made = [0; BATCH_BYTES + KEY_BYTES];
        fill(&self.key, BLOCK_BYTES as u64 * block, &mut made);
        self.batch.copy_from_slice(&made[..BATCH_BYTES]);
        self.key.copy_from_slice(&made[BATCH_BYTES..]);
        self.pos = 0;
    }

    /// Fills all of `out` with the key's stream, from the block `next_block` on: whole blocks as they are, and the rest
    /// from a new batch. The batch and the next key are the two blocks after the whole ones, so the old key is gone.
    /// Returns the number of the block after these two.
    fn copy_from_key(&mut self, next_block: u64, out: &mut [u8]) -> u64
        requires near { next_block ≤ 2 ^ 20 }
        requires short { length out.old ≤ 2 ^ 20 }
        ensures bytes { out.new ≡ keystream self.old.key (64 * next_block) (length out.old) }
        ensures state { self.new
            ≡ state_of_new_batch self.old (next_block + length out.old / 64) (length out.old % 64) }
        ensures next { result ≡ next_block + length out.old / 64 + 2 }
    {
        let whole = out.len() / BLOCK_BYTES;
        let (blocks, front) = out.split_at_mut(whole * BLOCK_BYTES);
        let following = next_block + whole as u64;
        fill(&self.key, BLOCK_BYTES as u64 * next_block, blocks);
        self.refill(following);
        self.copy_from_batch(front);
        following + 2
    }

    /// Skips bytes of the key's stream from the block `next_block` on, and changes the state as `copy_from_key` does.
    fn pass_key(&mut self, next_block: u64, len: usize) -> u64
        requires near { next_block ≤ 2 ^ 20 }
        requires short { len ≤ 2 ^ 20 }
        ensures state { self.new ≡ state_of_new_batch self.old (next_block + len / 64) (len % 64) }
        ensures next { result ≡ next_block + len / 64 + 2 }
    {
        let following = next_block + (len / BLOCK_BYTES) as u64;
        self.refill(following);
        let mut served = [0; BLOCK_BYTES];
        self.copy_from_batch(&mut served[..len % BLOCK_BYTES]);
        following + 2
    }

    /// Copies bytes over all of `out`: first the bytes left in the batch, and then bytes of the key's stream. The key's
    /// next block is `next_block`; the result is the next block after the copy. `next_block` and the length of `out`
    /// are at most 2^20.
    pub fn copy(&mut self, next_block: u64, out: &mut [u8]) -> u64
        requires near { next_block ≤ 2 ^ 20 }
        requires short { length out.old ≤ 2 ^ 20 }
        ensures bytes { out.new ≡ copy_bytes self.old next_block (length out.old) }
        ensures state { self.new ≡ state_after_copy self.old next_block (length out.old) }
        ensures next { result ≡ block_after_copy self.old next_block (length out.old) }
        ensures near { result ≤ next_block + 2 ^ 14 + 2 }
    {
        let left = self.left();
        if out.len() <= left {
            self.copy_from_batch(out);
            next_block
        } else {
            let (front, rest) = out.split_at_mut(left);
            self.copy_from_batch(front);
            self.copy_from_key(next_block, rest)
        }
    }

    /// Skips the next `len` bytes, and changes the state as [`copy`](VState::copy) does. It makes no new bytes: the
    /// result has only the bytes that were left in the batch. `next_block` and `len` are at most 2^20.
    pub fn pass(&mut self, next_block: u64, len: u32) -> Passed
        requires near { next_block ≤ 2 ^ 20 }
        requires short { len ≤ 2 ^ 20 }
        ensures taken { result.taken ≡ min len (bytes_left self.old) }
        ensures front { take result.taken result.front
            ≡ take (min len (bytes_left self.old)) (drop self.old.pos self.old.batch) }
        ensures key { result.key ≡ self.old.key }
        ensures state { self.new ≡ state_after_copy self.old next_block len }
        ensures next { result.next_block ≡ block_after_copy self.old next_block len }
        ensures near { result.next_block ≤ next_block + 2 ^ 14 + 2 }
    {
        let len = len as usize;
        let left = self.left();
        let key = self.key;
        let mut front = [0; BATCH_BYTES];
        if len <= left {
            self.copy_from_batch(&mut front[..len]);
            Passed {
                front,
                taken: len as u8,
                key,
                next_block,
            }
        } else {
            self.copy_from_batch(&mut front[..left]);
            let next_block = self.pass_key(next_block, len - left);
            Passed {
                front,
                taken: left as u8,
                key,
                next_block,
            }
        }
    }
}
