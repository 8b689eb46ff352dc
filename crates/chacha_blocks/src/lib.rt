//! The ChaCha20 keystream by byte position, and fast key erasure: `chacha20_block` of lib/crypto and
//! `crng_fast_key_erasure`, `_get_random_bytes` and `get_random_bytes_user` of drivers/char/random.c.
//!
//! The cipher is ChaCha20 as in RFC 8439, with nonce zero and a block counter of 64 bits. Each key has 2^64 blocks of
//! 64 bytes, and block `b` begins at byte `64 * b`. Contracts give the bytes by the function `keystream key from len`
//! of `key_names`, which carries no state. The crate makes one or two blocks itself, and uses `rand_chacha` for whole
//! runs of four blocks.
//!
//! # Example
//!
//! ```rust
//! let mut key = zero_key();
//! let mut out = [0; 32];
//! let rest = erase(&mut key, &mut out);
//! assert_eq!(rt; Some(&key[..]), zero_stream(0, 32));
//! assert_eq!(rt; Some(&out[..]), zero_stream(32, 64));
//! assert_eq!(rt; rest.key, zero_key());
//! assert_eq!(rt; rest.next_block, 1);
//! ```
//!
//! From `crates/test_core/src/chacha_blocks_tests.rt`.
//!
//! # Proved
//!
//! - [`fill`]: the buffer has the bytes of the key's stream from the position on.
//! - [`erase`], [`erase_and_fill`] and [`derive_key`]: bytes 0 to 32 of the key's own stream replace the key. The bytes
//!   handed out are those of the same stream from byte 32 on.
//! - [`Detached::more`]: the buffer has the bytes of the key's stream from the start of the next block.
//! - [`user_read`]: the bytes are those of a user's read with this key.
//!
//! # Tested only
//!
//! Nothing beyond what is proved. The rows `stream`, `kernel` and `user` of `test_vectors` have published bytes, and
//! bytes of another implementation.
//!
//! # Differs from the kernel
//!
//! [`erase_and_fill`] and [`user_read`] erase the key even if the buffer is empty. The kernel's functions do nothing in
//! this case.
#![tactic(auto)]

mod block;
pub mod erasure;
mod reader;
pub mod reads;
pub mod stream;

pub use erasure::{Detached, derive_key, erase, erase_and_fill};
pub use reads::user_read;
pub use stream::fill;
