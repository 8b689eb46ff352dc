//! The run of a script: the script's callers make their events over the lanes of one table, and leave a transcript.
//!
//! [`run_all`] runs caller 0 from its start to its end, in a new thread if one can be made. A child that it forks runs
//! in a thread of its own, or in its parent's thread if no thread can be made ([`run_here`]). A child can fork children
//! in turn. A parent joins its children after its own last visit. All memory of a run is taken first, as a [`Plan`].
//! Later only the start of a thread takes memory. A thread's stack has the size that its caller needs, with all callers
//! that this caller forks. The only caller of a script can also be handed its events one by one ([`LoneRun`]); then no
//! line is kept.
//!
//! The clauses of `rng_core` describe each call and its steps. The clauses of `lane_table` describe a pass's view of
//! the lanes, and how passes are split off, lent and joined. This crate uses only these clauses: no code here looks
//! into a lane.
//!
//! # Example
//!
//! ```rust
//! let script = script_of(&rt, rt.alloc(), FORK_SCRIPT);
//! let gate = ReadMeeting {
//!     parent: AtomicU64::new(0),
//!     child: AtomicU64::new(0),
//!     late: AtomicU64::new(0),
//! };
//! let transcript = run_on_new_table(&rt, rt.alloc(), &script, &gate)?;
//! assert_eq!(rt; gate.late.load(Ordering::SeqCst), 0);
//! let sink = text_of(&rt, rt.alloc(), &transcript)?;
//! let text = sink.held();
//! assert!(rt; text.starts_with(IN_THREADS), "caller 0");
//! ```
//!
//! From `crates/test_core/src/run_tests.rt`.
//!
//! # Proved
//!
//! However the callers' calls interleave:
//!
//! - [`run_on_new_table`] and [`run_new`]: the lines are a lawful transcript of the script, with the book of the lanes'
//!   lists.
//! - [`run_all`]: the same, if the pass has the whole share and has made no visit.
//! - [`LoneRun::end`]: the lines that were made are a lawful transcript.
//! - [`laws::callers_are_lawful`]: the calls of all callers of a script make a lawful transcript.
//!
//! These claims hold for each run that ends. Not promised: that a run ends, and that two callers ever run at once.
//!
//! # Tested only
//!
//! A child that [`run_here`] runs makes its visits between its parent's two visits, by which the parent stops running
//! and then goes on: `run_tests` of `test_core`. Two callers can be inside their reads at once: the tests of
//! `rng_tool`.
#![tactic(auto)]

mod alone;
mod forking;
pub mod laws;
mod making;
mod new_table;
mod output;
mod run;

pub use alone::LoneRun;
pub use forking::children::Children;
pub use forking::here::run_here;
pub use forking::plans::Plan;
pub use forking::rooms::Room;
pub use forking::shared::Shared;
pub use new_table::{run_new, run_on_new_table};
pub use run::{run_all, run_caller};
