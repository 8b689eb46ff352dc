//! Interrupt samples of several feeders, handed to one worker through a queue. The worker turns each sample into one
//! interrupt (`rng_core::irq`, `add_interrupt_randomness` of drivers/char/random.c).
//!
//! [`feed`] starts a thread for each feeder. A feeder pushes its samples into a bounded queue, in order. The caller is
//! the worker, and the only thread that visits a CPU. If a feeder gets no thread, the worker mixes that feeder's
//! samples itself, after all others. The crate uses only the contracts of `rng_core` and of a queue of
//! `crossbeam_queue`. The queue's rule: for each feeder, the samples that the worker took, followed by the samples in
//! the queue, are the feeder's first samples, in order.
//!
//! # Example
//!
//! ```rust
//! let (lanes, mut pass) = Lanes::start(alloc, 1, 0)?;
//! let (queue, worker) = FeedQueue::of(alloc, feeds)?;
//! let intake = FeedIntake {
//!     lanes: &lanes,
//!     set: Setting::first(0),
//!     feeds,
//!     queue: &queue,
//!     gate,
//! };
//! let (mixed, _worker) = feed(rt, alloc, &intake, &mut pass, worker);
//! ```
//!
//! From `crates/test_core/src/irq_feed_tests.rt`.
//!
//! # Proved
//!
//! For every interleaving of the threads:
//!
//! - [`feed`]: a call that succeeds has mixed each sample of each feeder once. It mixed the samples of one feeder in
//!   their order. If memory runs out, the call has mixed none.
//! - [`feed_on_new_table`]: the returned sums are the sums over the table's visits.
//!
//! Not promised: that a call returns, that two feeders ever run at once, or any order between the samples of different
//! feeders.
//!
//! # Tested only
//!
//! The gate is called before each sample, two feeders run side by side, and a feeder that has a thread sends all its
//! samples through the queue: `irq_feed_tests` of `test_core`.
//!
//! # Differs from the kernel
//!
//! The kernel has no such queue: the CPU that takes an interrupt mixes it.
#![tactic(auto)]

mod feeder;
mod intake;
mod known;
mod mixed;
mod queue;
mod run;
mod samples;
mod table_feed;
mod worker;

pub use feeder::Feeders;
pub use intake::FeedIntake;
pub use mixed::Mixed;
pub use queue::{FeedPass, FeedQueue};
pub use run::{feed, feed_by};
pub use samples::{Feeds, Sample};
pub use table_feed::{FeedSums, feed_on_new_table};
