//! Judges a transcript's lines without their answers and data: the lines' calls, marks, forks and forms.
//!
//! [`begin::begin`] checks two clauses. Lines: each caller has its lines. Marks: in each lane the places of the visits
//! count up from 0, with rising stamps. Stamps also rise along each caller's order: its ancestors' steps before the
//! fork, and then its own.
//!
//! The crate uses the definitions of `key_names`, and `input_pool` for the crossings of a credit. It takes scripts and
//! transcripts that were already read. It does not look at lists or values, nor check what the lanes' lists require.
//!
//! # Example
//!
//! ```rust
//! let lines = bare_callers(alloc, transcript)?;
//! match begin(alloc, script, &lines)? {
//!     Begun::No(clause) => Ok(Some(clause)),
//!     Begun::Conforms(_) => Ok(None),
//! }
//! ```
//!
//! From `crates/test_texts/src/judge_lines_tests.rt`.
//!
//! # Proved
//!
//! - [`begin::begin`]: if both clauses hold, the result has the calls, marks and forks of the transcript, and otherwise
//!   the first clause that fails.
//! - [`settings::all_settings`]: the setting before each call.
//! - [`along::all_may_follow`]: whether each step in each caller's order may follow the value carried to it.
//! - [`rows`] decides the forms that the steps of a line can have, by rows (lists of kinds of steps). [`inferred`]
//!   infers the entry of each visit from the steps around it.
//! - [`laws`]: suppose that all entries fit, and that the samples of the line are correct. Then steps are a form of
//!   their event exactly if their kinds are a row of the event and each visit has the inferred entry.
//!
//! # Tested only
//!
//! Nothing beyond what is proved. `judge_lines_tests` of `test_texts` has changed transcripts, each with its first
//! failing clause.
#![tactic(auto)]

pub mod along;
pub mod bare;
pub mod begin;
pub mod called;
pub mod clause;
pub mod inferred;
pub mod kind;
pub mod laws;
pub mod lines;
pub mod marks;
pub mod order;
pub mod rows;
pub mod seen;
pub mod setting;
pub mod settings;
mod stamps;
