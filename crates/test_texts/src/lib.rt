//! Tests of the crates between the texts and the program: sources and sinks, scripts and transcripts, read, written and
//! judged. They are a separate crate because a crate with tests is proved twice. `rt try --test` in the crate's folder
//! runs them without proofs.
//!
//! # Example
//!
//! ```rust
//! fn published_texts_are_read_and_written_again(rt: HostRuntime) -> Result<(), Fail> {
//!     for text in [BEFORE_READINESS, FORK, NUMBERS, b"rngtranscript 1\nend\n"] {
//!         for writing in WRITINGS {
//!             assert_eq!(rt;
//!                 again(&rt, rt.alloc(), text, writing)?.as_slice(),
//!                 text,
//!                 "{writing:?}"
//!             );
//!         }
//!     }
//!     Ok(())
//! }
//! ```
//!
//! From `crates/test_texts/src/transcript_text_tests.rt`.
//!
//! # Proved
//!
//! Nothing: the tests use the contracts as any caller does.
//!
//! # Tested only
//!
//! Facts that no contract states:
//!
//! - each put of a line has at most 4,096 bytes;
//! - an event is shown once its line is whole;
//! - reading a long text needs no memory for more than the text;
//! - sources and sinks work over real readers and writers.
#![tactic(auto)]

#[cfg(test)]
mod event_script_tests;
#[cfg(test)]
mod io_edges_tests;
#[cfg(test)]
mod judge_lines_tests;
#[cfg(test)]
mod judge_log_tests;
#[cfg(test)]
mod judge_vread_tests;
#[cfg(test)]
mod long_texts;
#[cfg(test)]
mod transcript_text_tests;
