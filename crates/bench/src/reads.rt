//! Loops over reads of one length.
use crate::parts::end_of;
use chacha_blocks::{erase_and_fill, fill, user_read};
use rand_chacha::ChaCha20Rng;
use rand_core::SeedableRng;
use rand_core::utils::fill_bytes_via_u32;
use std::alloc::{AllocError, Global};

/// The function that fills the buffer in a read.
#[derive(Clone, Copy)]
pub enum ReadFunction {
    /// A new generator of `rand_chacha`, without any other work.
    Bare,
    /// The key's stream from its start.
    Fill,
    /// A read for the kernel, which replaces the key.
    Kernel,
    /// A read for a user, which replaces the key.
    User,
}

/// The function and the length that a word like `user-100` names.
pub fn made_of(word: &str) -> Option<(ReadFunction, u32)> {
    let (name, len) = word.split_once('-')?;
    let maker = match name {
        "bare" => ReadFunction::Bare,
        "fill" => ReadFunction::Fill,
        "kernel" => ReadFunction::Kernel,
        "user" => ReadFunction::User,
        _ => return None,
    };
    Some((maker, len.parse::<u32>().ok()?))
}

#[inline(never)]
fn bare(key: &[u8; 32], bytes: &mut [u8]) {
    let mut generator = ChaCha20Rng::from_seed(*key);
    fill_bytes_via_u32(&mut generator, bytes);
}

/// Makes `count` reads of `len` bytes.
pub fn many(alloc: Global, maker: ReadFunction, len: u32, count: u32) -> Result<u64, AllocError> {
    let mut key = [0; 32];
    let mut bytes = vec![in alloc; 0; len as usize]?;
    for _ in 0..count {
        match maker {
            ReadFunction::Bare => bare(&key, &mut bytes),
            ReadFunction::Fill => fill(&key, 0, &mut bytes),
            ReadFunction::Kernel => erase_and_fill(&mut key, &mut bytes),
            ReadFunction::User => user_read(&mut key, &mut bytes),
        }
    }
    Ok(end_of(&bytes))
}
