//! Numbers below a bound from 32-bit words, made as `__get_random_u32_below` and `get_random_u32_inclusive` of
//! drivers/char/random.c make them. If all words are equally likely, so are all numbers below the bound.
//!
//! The words come out of a list, or are the integers that a caller reads by the calls of `rng_core`; the trait
//! [`Words`] defines a source. Only [`draw_on_new_table`] allocates, for its table.
//!
//! # Example
//!
//! ```rust
//! let alloc = rt.alloc();
//! let mut rejected = Rejected::empty();
//! let mut words = listed(alloc, &[0, 1])?;
//! assert_eq!(rt; below(&rt, &mut words, 6, &mut rejected), Ok(0));
//! assert!(rt; rejected.len() == 1 && rejected.get(0) == 0);
//! words = listed(alloc, &[715_827_883, 715_827_884])?;
//! assert_eq!(rt; below(&rt, &mut words, 6, &mut rejected), Ok(1));
//! assert!(rt; rejected.len() == 1 && rejected.get(0) == 715_827_883);
//! ```
//!
//! From `crates/test_core/src/draw_below_tests.rt`.
//!
//! # Proved
//!
//! - [`below`] returns the value of the first accepted word, which is below the bound. It takes no word after that one.
//! - [`between`] and [`shuffle`] are made of such draws. A shuffle permutes its items.
//! - [`draw_on_new_table`]: the words are the integers that caller 0 reads in one lawful book.
//! - [`laws::each_value_is_as_likely`]: each value below a bound has the same number of accepted words.
//! - [`laws::each_order_has_its_draws`]: each order of different items has exactly one list of draws.
//!
//! Not claimed: that words are random.
//!
//! # Tested only
//!
//! Nothing beyond what is proved. `draw_below_tests` of `test_core` compares 1,000 bounds with the answers of another
//! program.
//!
//! # Differs from the kernel
//!
//! A draw gives up after 128 rejected words ([`DrawSpent`]). The kernel loops on.
#![tactic(auto)]

pub mod draws;
pub mod lane_reads;
pub mod lane_words;
pub mod laws;
pub mod rejected;
pub mod shuffles;
pub mod table_draws;
pub mod words;

pub use draws::{DrawSpent, below, between};
pub use lane_words::LaneWords;
pub use rejected::Rejected;
pub use shuffles::shuffle;
pub use table_draws::{Drawn, MOST_DRAWS, draw_each, draw_on_new_table};
pub use words::{ListWords, Words};
