//! Rows about the hash and the keystream.
ghost use Rattle.std.specs.Prelude.{◌≤◌, IfOk, length};

use crate::fields::{bytes_of, key_of, number_of};
use anyhow::{Result, ensure};
use blake2s_core::{Blake2s, hash};
use chacha_blocks::{erase_and_fill, fill, user_read};
use std::alloc::Global;

/// The first byte that a row asks for must be before this position of the key's stream.
const STREAM_END: u64 = 1 << 39;

/// The most bytes that a row may ask for.
const MOST_BYTES: u64 = 4096;

// The hash of a text. The text is hashed in pieces of `size` bytes, or at once if `size` is 0.
fn digest(key: Option<&[u8; 32]>, text: &[u8], size: usize) -> [u8; 32] {
    if size == 0 {
        return hash(key, text);
    }
    let mut state = match key {
        Some(key) => Blake2s::keyed(key),
        None => Blake2s::plain(),
    };
    for piece in text.chunks(size) {
        state.update(piece);
    }
    state.finish()
}

/// Answers the row `hash KEY TEXT SIZE`.
pub fn hash_row(alloc: Global, key: &str, text: &str, size: &str) -> Result<String> {
    let text = bytes_of(alloc, text)?;
    let size = number_of(size)? as usize;
    let digest = if key == "-" {
        digest(None, &text, size)
    } else {
        digest(Some(&key_of(key)?), &text, size)
    };
    Ok(hex::encode(alloc, digest)?)
}

// Memory for the bytes that a row asks for.
fn room(alloc: Global, len: &str) -> Result<Vec<u8>>
    ensures { IfOk result (λ bytes. length bytes.items ≤ 4096) }
{
    let len = number_of(len)?;
    ensure!(len <= MOST_BYTES, "too many bytes: {len}");
    Ok(vec![in alloc; 0; len as usize]?)
}

/// Answers the row `stream KEY FROM LEN`.
pub fn stream_row(alloc: Global, key: &str, from: &str, len: &str) -> Result<String> {
    let key = key_of(key)?;
    let from = number_of(from)?;
    ensure!(from < STREAM_END, "too far: {from}");
    let mut bytes = room(alloc, len)?;
    fill(&key, from, &mut bytes);
    shown(alloc, &bytes)
}

/// The reader: the kernel or a user.
#[derive(Clone, Copy)]
pub enum ReadBy {
    Kernel,
    User,
}

/// Answers the rows `kernel KEY LEN` and `user KEY LEN`.
pub fn read_row(alloc: Global, reader: ReadBy, key: &str, len: &str) -> Result<String> {
    let mut key = key_of(key)?;
    let mut bytes = room(alloc, len)?;
    match reader {
        ReadBy::Kernel => erase_and_fill(&mut key, &mut bytes),
        ReadBy::User => user_read(&mut key, &mut bytes),
    }
    let key = hex::encode(alloc, key)?;
    let bytes = shown(alloc, &bytes)?;
    Ok(format!(in alloc; "{key} {bytes}")?)
}

/// Bytes as an answer shows them: in hexadecimal, or `-` if there are none.
pub fn shown(alloc: Global, bytes: &[u8]) -> Result<String> {
    if bytes.is_empty() {
        return Ok("-".to_string(alloc)?);
    }
    Ok(hex::encode(alloc, bytes)?)
}
