//! BLAKE2s-256 (RFC 7693, and `blake2s` of lib/crypto), with a key of 32 bytes or without one, over a text that comes
//! in pieces. `blake2s key text` of `key_names` defines the hash, as a fold over a list of blocks. The contracts use
//! that definition. The code uses `byteorder` to read and write words.
//!
//! # Example
//!
//! ```rust
//! let mut state = match key {
//!     Some(key) => Blake2s::keyed(key),
//!     None => Blake2s::plain(),
//! };
//! for piece in text.chunks(size) {
//!     state.update(piece);
//! }
//! state.finish()
//! ```
//!
//! From `crates/test_vectors/src/keys.rt`.
//!
//! # Proved
//!
//! - [`Blake2s::update`] and [`Blake2s::finish`]: the result is the hash of the whole text, however the text was cut
//!   into pieces.
//! - [`hash`]: the result is the hash of the text, made in one call.
//! - [`Blake2s::update`]: a text may have any length, since the count of its bytes is taken modulo 2^64.
//!
//! # Tested only
//!
//! Nothing beyond what is proved. The rows `hash` of `test_vectors` have published hashes, and hashes of Python's
//! hashlib.
//!
//! # Differs from the kernel
//!
//! The hash has 32 bytes. A key has 32 bytes, or there is no key. The kernel's functions also take other lengths.
#![tactic(auto)]

mod compress;
mod hasher;

pub use hasher::{Blake2s, hash};
