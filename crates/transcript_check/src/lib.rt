//! Whether a transcript is lawful for a script.
//!
//! [`check::check`] makes all answers and data again from the transcript's steps (`serial_replay`). It compares each
//! line as soon as the line's answer and data are made. It judges all answers before any data, and the looks last.
//! [`check::check_lists`] also returns the lists that were made from the steps of a lawful transcript. For a transcript
//! that is not lawful, [`failing::first_failing_line`] finds the first line at which the clause fails, and what was
//! expected there.
//!
//! # Example
//!
//! ```rust
//! match check(alloc, script, t) {
//!     Ok(Verdict::Yes) => put_line(Status::Done, &yes_line(), sink),
//!     Ok(Verdict::No(clause)) => put_line(Status::No, &no_line(clause.number()), sink),
//!     Err(_) => Status::NoMemory,
//! }
//! ```
//!
//! From `crates/rng_tool/src/judge.rt`.
//!
//! # Proved
//!
//! - [`check::check`]: the result is `Yes` exactly if each clause holds. Otherwise it is the first clause that fails.
//!   For a lawful transcript no byte of a key is used twice, and the generations that a caller's looks find never fall.
//! - [`check::check_lists`]: the verdict is the same as that of `check`. For a lawful transcript the result has the
//!   lists.
//! - [`failing::first_failing_line`]: for the clause on answers, the line that it finds has another answer than its
//!   steps give. For the clause on data, this line has other data.
//! - [`laws`]: no lawful transcript with the same steps has a line with another answer, or other data, than its steps
//!   give.
//!
//! # Tested only
//!
//! That no line before the found line fails; and that the lines found for the clauses on lines, marks, forms and looks
//! fail: `.ci/check_checks`.
#![tactic(auto)]

pub mod check;
mod compare;
pub mod failing;
pub mod laws;
mod other_entries;
mod other_events;
mod other_forms;
mod other_lines;
mod paths;
pub mod place;
mod uncounted;
