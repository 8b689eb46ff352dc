// The hash over a text in pieces (RFC 7693, section 3.3).

ghost use Rattle.std.specs.Prelude.{◌≡◌, ℕ, ◌+◌, ◌%◌, ◌^◌, ◌<◌, ◌≤◌, ◌++◌, true, Option, Some, None, List, [], length, take, get_or, MatchOption};
ghost use Rattle.key_names.specs.Kernel.Blake2s.{blake2s, block_bytes, compressed, start_words};
ghost use Rattle.blake2s_core.specs.Hash.{Hash, IsAfter, Conforms};

use crate::compress::{IV, compress};
use byteorder::{ByteOrder, LittleEndian};
use std::marker::Model;

const BLOCK_LEN: usize = 64;

// The chaining value: the hash words after the blocks so far, and the number of bytes in those blocks, modulo 2^64.
#[derive(Drop)]
struct Chain {
    words: [u32; 8],
    count: u64,
}

impl Chain {
    // The words before any block, for a hash of 32 bytes under a key of `key_len` bytes (RFC 7693, section 2.5).
    fn start(key_len: u8) -> Chain
        ensures words { result.words ≡ start_words key_len }
        ensures count { result.count ≡ 0 }
    {
        let mut words = IV;
        words[0] ^= u32::from_le_bytes([32, key_len, 1, 1]);
        Chain { words, count: 0 }
    }

    // Hashes one block that is not the message's last.
    fn hash_block(&mut self, block: &[u8; 64])
        ensures { (start bytes : List ℕ) (n : ℕ) → IsAfter self.old.words self.old.count start bytes n
            → block.now ≡ block_bytes bytes n
            → IsAfter self.new.words self.new.count start bytes (n + 1) }
    {
        self.count = self.count.wrapping_add(BLOCK_LEN as u64);
        self.words = compress(self.words, block, self.count, false);
    }

    // Hashes blocks, none of which is the message's last.
    fn hash_blocks(&mut self, blocks: &[[u8; 64]])
        ensures { (start bytes : List ℕ) (n : ℕ) → IsAfter self.old.words self.old.count start bytes n
            → ((k : ℕ) → k < length blocks.now → get_or blocks.now k [] ≡ block_bytes bytes (n + k))
            → IsAfter self.new.words self.new.count start bytes (n + length blocks.now) }
    {
        for block in blocks {
            self.hash_block(block);
        }
    }

    // The words after the last block. Only the first `used` bytes of this block belong to the message.
    fn hash_last(&self, block: &[u8; 64], used: usize) -> [u32; 8]
        ensures { result ≡ compressed self.now.words
            (record { bytes = block.now; count = (self.now.count + used) % 2 ^ 64; is_last = true }) }
    {
        let count = self.count.wrapping_add(used as u64);
        compress(self.words, block, count, true)
    }
}

/// A hash of a text that comes in pieces, like the kernel's `struct blake2s_state`. Only the bytes of the last block
/// are kept, since that block is hashed at the end.
///
/// In contracts a hash is a `Hash` of specs/: the hash words, the kept bytes, and the number of bytes before them.
/// `Conforms hash key text` means that RFC 7693 makes this state from the key and the text.
#[derive(Drop)]
pub struct Blake2s {
    chain: Chain,
    rest: [u8; 64],
    rest_len: usize,
}

impl Model for Blake2s {
    ghost Value = { Hash };

    ghost view = { λ s. record { words = s.chain.words; rest = take s.rest_len s.rest; count = s.chain.count } };

    ghost invariant = { λ s. s.rest_len ≤ 64 };
}

impl Blake2s {
    /// A hash without a key, of no bytes yet (`blake2s_init`).
    pub fn plain() -> Blake2s
        ensures { Conforms result None [] }
    {
        Blake2s {
            chain: Chain::start(0),
            rest: [0; 64],
            rest_len: 0,
        }
    }

    /// A hash under a key, of no bytes yet (`blake2s_init_key`). The first block is the key, padded with zeros.
    pub fn keyed(key: &[u8; 32]) -> Blake2s
        ensures { Conforms result (Some key.now) [] }
    {
        let mut rest = [0; 64];
        rest[..32].copy_from_slice(key);
        Blake2s {
            chain: Chain::start(32),
            rest,
            rest_len: BLOCK_LEN,
        }
    }

    /// Appends bytes to the text (`blake2s_update`). The text may have any length: the count is taken modulo 2^64.
    pub fn update(&mut self, text: &[u8])
        ensures { (key : Option (List ℕ)) (before : List ℕ) → Conforms self.old key before
            → Conforms self.new key (before ++ text.now) }
    {
        let room = BLOCK_LEN - self.rest_len;
        if text.len() <= room {
            self.rest[self.rest_len..self.rest_len + text.len()].copy_from_slice(text);
            self.rest_len += text.len();
            return;
        }
        let (head, tail) = text.split_at(room);
        self.rest[self.rest_len..].copy_from_slice(head);
        self.chain.hash_block(&self.rest);
        // The last block of the tail is kept, even if it is full.
        let inner = (tail.len() - 1) / BLOCK_LEN;
        let (blocks, _) = tail.as_chunks::<BLOCK_LEN>();
        self.chain.hash_blocks(&blocks[..inner]);
        let last = &tail[BLOCK_LEN * inner..];
        self.rest[..last.len()].copy_from_slice(last);
        self.rest_len = last.len();
    }

    /// The 32 bytes of the hash of the whole text (`blake2s_final`).
    pub fn finish(mut self) -> [u8; 32]
        ensures { (key : Option (List ℕ)) (text : List ℕ) → Conforms self key text → result ≡ blake2s key text }
    {
        let used = self.rest_len;
        self.rest[used..].fill(0);
        let words = self.chain.hash_last(&self.rest, used);
        let mut hash = [0; 32];
        LittleEndian::write_u32_into(&words, &mut hash);
        hash
    }
}

/// The hash of a text in one call, with or without a key (`blake2s`).
pub fn hash(key: Option<&[u8; 32]>, text: &[u8]) -> [u8; 32]
    ensures { MatchOption key.entry (result ≡ blake2s None text.now)
        (λ k. result ≡ blake2s (Some k.now) text.now) }
{
    let mut hash = match key {
        Some(key) => Blake2s::keyed(key),
        None => Blake2s::plain(),
    };
    hash.update(text);
    hash.finish()
}
