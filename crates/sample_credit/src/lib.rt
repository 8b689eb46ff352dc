//! Samples of interrupts and of input events, and the bits that they are credited with: `fast_mix`,
//! `add_interrupt_randomness`, `mix_interrupt_randomness`, `add_input_randomness` and `add_timer_randomness` of
//! drivers/char/random.c.
//!
//! Interrupts are frequent, and each contributes little. A CPU mixes its own interrupts into a [`FastPool`] of four
//! words. It dumps the fast pool into the input pool after 1,024 interrupts, or more than a second after the last dump.
//! An input event is mixed into the input pool at once. An [`InputTimer`] credits the event by how irregular its moment
//! is, and credits nothing if the moments keep a constant pace. The crate uses `key_names`, and `byteorder` for words.
//!
//! # Example
//!
//! ```rust
//! let mut pool = FastPool::start();
//! assert!(rt; pool.mix(0x0123_4567_89ab_cdef, 0xfedc_ba98_7654_3210, 1001));
//! let dump = Dump {
//!     bytes: AFTER_ONE_MIX,
//!     bits: 1,
//! };
//! assert_eq!(rt; pool.dump(1001), dump);
//! ```
//!
//! From `crates/test_core/src/sample_credit_tests.rt`.
//!
//! # Proved
//!
//! - [`FastPool::mix`]: after the call the fast pool is as `key_names` defines it, and the result is whether this
//!   interrupt makes a dump due.
//! - [`FastPool::dump`]: the dump has the bytes and the bits that `key_names` defines.
//! - [`InputTimer::bits`]: the bits are what `key_names` defines for the timer at this moment. [`InputTimer::fresh`]
//!   returns whether the value differs from the last one.
//! - [`input_sample`]: the result is the bytes that an input event mixes in.
//!
//! The credit is the kernel's guess. No clause says how much entropy a sample has.
//!
//! # Tested only
//!
//! Nothing beyond what is proved. `sample_credit_tests` of `test_core` compares words with the words of another
//! SipHash.
//!
//! # Differs from the kernel
//!
//! A fast pool counts as dumped at moment 0. In the kernel the first interrupt causes a dump.
#![tactic(auto)]

mod fast_pool;
mod input_timer;

pub use fast_pool::{Dump, FastPool};
pub use input_timer::{InputTimer, input_number, input_sample};
