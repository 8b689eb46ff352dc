//! The input pool: all samples are hashed into it, and the keys of the core come out of it. It is `input_pool` of
//! drivers/char/random.c, with `_mix_pool_bytes`, `_credit_init_bits` and `extract_entropy`.
//!
//! Samples are mixed in by hashing them one after another. A credit is the kernel's guess of how many bits a sample
//! contributed. At 128 bits a base key may be made early, and at 256 the core becomes ready. An extraction makes two
//! keys from all that was mixed: the root, which goes out, and the next key of the pool. The crate uses `blake2s_core`
//! for the hash.
//!
//! # Example
//!
//! ```rust
//! let mut pool = input_pool::Pool::start();
//! for _ in 0..count {
//!     pool.mix(&SAMPLE);
//! }
//! end_of(&pool.extract(&[0; 32]))
//! ```
//!
//! From `crates/bench/src/parts.rt`.
//!
//! # Proved
//!
//! - [`Pool::mix`], [`Pool::credit`] and [`Pool::extract`]: if the pool matched a state of the pool's list before the
//!   call, it then matches the state that the call leads to.
//! - [`Pool::credit`]: the result is the threshold that the bits crossed, and [`Crossing::Ready`] if they crossed both
//!   thresholds.
//! - [`Pool::extract`]: the result is the root that the definitions give for that state and these hardware bytes.
//!
//! # Tested only
//!
//! Nothing beyond what is proved. The rows `mix`, `credit` and `extract` of `test_vectors` have the answers of another
//! implementation.
//!
//! # Differs from the kernel
//!
//! - A credit only returns the threshold that it crossed. In the kernel it also makes the core early or ready.
//! - An extraction gets 32 hardware bytes from its caller. The kernel asks the hardware for them word by word. If the
//!   hardware refuses a word, the kernel takes the cycle counter instead.
#![tactic(auto)]

mod pool;

pub use pool::{Crossing, Pool};
