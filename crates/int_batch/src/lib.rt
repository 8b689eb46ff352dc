//! Batched integers: 96 bytes of a key's stream, served as integers of one width. `get_random_u8` to `get_random_u64`
//! of drivers/char/random.c work in this way (`DEFINE_BATCHED_ENTROPY`). The caller supplies the 96 bytes. Of the other
//! crates here, this crate uses only the definitions of `key_names`.
//!
//! # Example
//!
//! ```rust
//! let mut batch = Batch::<4>::start();
//! for i in 0..24u8 {
//!     let entry = batch.next(1, count_bytes);
//!     assert_eq!(rt; entry, [4 * i, 4 * i + 1, 4 * i + 2, 4 * i + 3]);
//! }
//! assert!(rt; batch.wants(1));
//! assert_eq!(rt; bytes_before(&mut batch, 1), [0; 96]);
//! assert_eq!(rt; batch.next(2, count_bytes), [0, 1, 2, 3]);
//! ```
//!
//! From `crates/test_core/src/int_batch_tests.rt`.
//!
//! # Proved
//!
//! - [`Batch::next`]: a batch is filled exactly if it is used up or has another generation. Each integer consists of
//!   the next bytes of the fill.
//! - [`Batch::wants`], [`Batch::refill`] and [`Batch::serve`] together do the same in three calls.
//! - [`Batch::serve`]: the bytes of a served integer become 0.
//! - [`Batch::drop_rest`]: the batch equals a new one ([`Batch::start`]).
//!
//! # Tested only
//!
//! Nothing beyond what is proved.
//!
//! # Differs from the kernel
//!
//! [`Batch::drop_rest`] makes the whole batch 0. `random_prepare_cpu` only marks it as used up.
#![tactic(auto)]

pub mod batch;

pub use batch::Batch;
