//! The calls of the core over the lanes of one table, for callers in threads: reads, samples, reseeds and the other
//! operations of drivers/char/random.c, and the read of lib/vdso/getrandom.c. A call runs at a [`Site`]: the table of
//! lanes, the caller's pass, the trace of its steps, and the caller's setting. The folders follow the sections of
//! random.c.
//!
//! `lane_table` defines the knowledge of a pass. The part crates, such as `cpu_gen`, define how an entry changes a
//! value. `vdso_state` contains the read out of a caller's own state.
//!
//! # Example
//!
//! ```rust
//! let mut trace = Trace::empty();
//! let mut bytes = [0; N];
//! let mut site = Site {
//!     lanes,
//!     pass,
//!     trace: &mut trace,
//!     set: *set,
//! };
//! let answer = getrandom(rt, &mut site, &mut bytes, flags);
//! ```
//!
//! From `crates/test_core/src/rng_core_tests.rt`.
//!
//! # Proved
//!
//! - [`getrandom`], [`kernel_read`], [`mix`] and the other calls: for every interleaving of the callers, the steps that
//!   the call adds to its trace are exactly its looks and visits. These steps match one of the forms of the call's
//!   event, with the call's answer and bytes. The call ends with no lane held. The trace leaves out only one look: the
//!   one by which [`vread_local`], alone or in [`vread`], finds that the batch cannot serve.
//! - [`getrandom`] and [`random_file`]: each error has its cause. `EAGAIN` and `EINTR` need a first look that found the
//!   core not ready.
//! - [`reseed`]: after success the caller has seen a higher generation than before.
//! - [`laws::own_states_are_lawful`]: take the table's lists between any two atomic steps, and the lists of vgetrandom
//!   states that are between two calls. Together they make a lawful book, except for visits that are half finished. In
//!   this book no byte of a key was used twice.
//! - Not promised: that a wait ends. A call may wait for a lane, and a blocking read may wait for readiness.
//!
//! # Tested only
//!
//! A read holds no lane while it makes the bytes after the first 32: `rng_core_tests` of `test_core`. A fill of a batch
//! of integers makes its 96 bytes while the CPU is held; neither a clause nor a test covers this.
//!
//! # Differs from the kernel
//!
//! - Some visits are several steps in the kernel: a sample is mixed and credited in one visit, and a reseed extracts
//!   its root while it holds the base.
//! - A blocking read fails with `EINTR` once no running caller is left. The kernel continues to wait, and gathers
//!   jitter if it has a cycle counter.
//! - A dump of a fast pool is made at once, by the caller that took the interrupt. docs/TRUST.md lists the other
//!   differences.
#![tactic(auto)]

mod batches;
mod callers;
mod cpu_values;
mod crng;
mod interface;
mod lane_values;
pub mod laws;
mod projections;
mod setting;
mod site;
mod sources;
mod vdso;

pub use callers::forks::fork;
pub use callers::running::{end, stall, unstall};
pub use crng::cpus::{online, prepare};
pub use crng::integers::int;
pub use crng::reads::{kernel_read, urandom_file};
pub use crng::reseeds::{reseed, tick};
pub use interface::system_call::{getrandom, random_file};
pub use setting::Setting;
pub use site::Site;
pub use sources::first_sample::add_first_sample;
pub use sources::interrupts::irq;
pub use sources::samples::{add, bits, device, input, mix, vmfork};
pub use vdso::acts::Bound;
pub use vdso::attempt::Attempt;
pub use vdso::lane_host::LaneHost;
pub use vdso::vreads::{vread, vread_inside, vread_local};
