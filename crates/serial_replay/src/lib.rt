//! Makes answers and bytes again, from a transcript's words and steps. The answers and data of the given transcript are
//! not read.
//!
//! From a transcript's steps, [`remake::remake`] makes the lists of the lanes, every answer, and recipes for all data.
//! The argument `how` determines what is noted of each line's answer and data. The result also has the lists.
//! [`replay::replay`] writes the result as a transcript. [`lists::find_lists`] makes only the lists of the lanes, from
//! which all answers and data are made. The crate uses `judge_lines` for lines, marks and orders. It uses `judge_log`
//! for the lists, and for the answer and data of each line.
//!
//! # Example
//!
//! ```rust
//! match replay(alloc, script, t) {
//!     Ok(Replayed::Made(made)) => match write_all(sink, &made) {
//!         Ok(()) => Status::Done,
//!         Err(Failed) => Status::WriteFault,
//!     },
//!     Ok(Replayed::No(clause)) => put_line(Status::No, &no_line(clause.number()), sink),
//!     Err(_) => Status::NoMemory,
//! }
//! ```
//!
//! From `crates/rng_tool/src/judge.rt`.
//!
//! # Proved
//!
//! - [`replay::replay`]: a transcript that it returns is lawful, and no other lawful transcript has the given steps. It
//!   returns a transcript exactly if the clauses on lines, marks, forms and looks all hold.
//! - [`remake::remake`]: if one of the clauses on lines, marks and forms fails, it returns the first that fails. The
//!   result depends only on words and steps.
//! - [`lists::find_lists`]: it returns the lists, or the first clause that fails. Even if it returns lists, some line
//!   may have steps that match no form.
//!
//! # Tested only
//!
//! Nothing beyond what is proved. The tests of `rng_tool` replay a transcript with another answer.
#![tactic(auto)]

pub mod lists;
mod looks;
pub mod remake;
pub mod replay;
