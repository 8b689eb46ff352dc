//! A vgetrandom call that forks at one of its points, over the lanes of a new table, and the bytes of the parent and
//! the child. [`fork_on_new_table`] runs the call to a point of an attempt and splits off the child there. Then the
//! parent and the child each run the call to its end, the child with its own pass.
//!
//! The vgetrandom call that can be stopped comes from `vcall_fork`, and its host is the caller itself (`rng_core`). The
//! book comes from `lane_table`.
//!
//! # Example
//!
//! ```rust
//! for i in 0..4 {
//!     let (parent, child) = rows[i];
//!     let forked = fork_on_new_table(rt, alloc, attempt, POINTS[i], 8)?;
//!     assert_eq!(rt; forked.parent.as_slice(), parent.to_be_bytes().as_slice());
//!     assert_eq!(rt; forked.child.as_slice(), child.to_be_bytes().as_slice());
//! }
//! ```
//!
//! From `crates/test_core/src/fork_runs_tests.rt`.
//!
//! # Proved
//!
//! - [`fork_on_new_table`]: the call reaches the given point, and the results are the bytes that the call gives in the
//!   parent and in the child. One lawful book has exactly the visits of the sample, of the calls and of the fork, and
//!   the child's visits come after the parent's. Both results are bytes of named spans, and no byte of a key's
//!   keystream is in both.
//! - [`laws::first_attempt_comes`] and [`laws::second_attempt_comes`]: conditions for a call to reach each point of an
//!   attempt.
//! - [`laws::ends_give_bytes`]: conditions for the rest of a stopped call to end with bytes.
//!
//! Not promised: that a caller's turn for a lane ever comes.
//!
//! # Tested only
//!
//! Nothing beyond what is proved. `fork_runs_tests` of `test_core` compares bytes with those of another implementation
//! (`tools/forked_vreads.py`).
#![tactic(auto)]

pub mod laws;
mod stretches;
mod table_forks;

pub use table_forks::{ForkedBytes, fork_on_new_table};
pub use vcall_fork::{Point, Turn};
