//! The lanes of the core: the input pool, the base and each CPU's generator. Each lane has its own ticket lock. The
//! generation word is read without a lock. In drivers/char/random.c the lanes' values are guarded by `input_pool.lock`,
//! `base_crng.lock` and a CPU's `local_lock`, and the word is `base_crng.generation`. The words and the slots come from
//! `atomic_table`. The part crates, such as `input_pool`, `base_gen` and `cpu_gen`, define how an entry changes a
//! value.
//!
//! # Example
//!
//! A reseed (`crng_reseed`), while another pass looks at the generation. The last line calls [`Lanes::put`].
//!
//! ```rust
//! let mut base = lanes.take(rt, pass, LaneId::Base);
//! let (root, extracted) = rooted(rt, lanes, pass, &base);
//! let before = lanes.generation(other);
//! let generation = install(base.state_mut(), root);
//! raise(lanes, pass, &base, extracted.place, generation);
//! let after = lanes.generation(other);
//! let reseeded = put_base(lanes, pass, base, extracted.place);
//! ```
//!
//! From `crates/test_core/src/lane_table_tests.rt`.
//!
//! # Proved
//!
//! For every interleaving of the passes:
//!
//! - [`Lanes::take`]: the value in the lane represents the lane's list, and the hold has the list's next place.
//! - [`Lanes::put`]: the visit gets the held place, so each visit has one place in its lane's list. Its stamp is above
//!   those of the pass and the lane.
//! - [`Lanes::generation`]: a look never finds a lower generation than an earlier look of the same pass.
//! - [`Lanes::settle`]: an idle pass that has the whole share knows each lane's whole list.
//! - [`laws`]: one rule over all lanes holds between any two atomic steps. Most laws state a part of it.
//!
//! Not promised: that a waiting pass gets its turn.
//!
//! # Tested only
//!
//! A caller that holds a CPU does not block a caller on another CPU (`hold_tests` of `test_core`). If another pass has
//! raised the generation, a look finds the raised one even before that pass puts the base (`lane_table_tests`).
//!
//! # Differs from the kernel
//!
//! - All lanes have ticket locks. In the kernel the pool and the base have spin locks.
//! - A generation of 0 means that the core is not ready. The kernel has a separate flag, `crng_init`.
//! - The lane of the pool also covers the input timer, which has no lock in the kernel.
#![tactic(auto)]

mod entry;
mod generation;
mod gives;
mod lanes;
pub mod laws;
mod passes;
mod plays;
mod slot;
mod takes;
mod tries;
mod values;
mod view;

pub use entry::Entry;
pub use lanes::{Held, Lanes, Pass, TakeFault, TakenTurn};
pub use values::{BaseLane, CpuLane, LaneState, PoolLane};
pub use view::{Content, Handed, LaneEntry, LaneView, TableSize, TicketStage, View, Visit};
