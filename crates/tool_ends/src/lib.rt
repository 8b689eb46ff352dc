//! How this repository's programs end: their statuses, their input and output, and the short lines that are the whole
//! answer to an input. The crate uses `io_edges` for sources and sinks, and `event_script` and `transcript_text` for
//! the grammar of an input.
//!
//! [`read_script`] reads a script, and [`pair::read_pair`] reads a script with a transcript after it. If the text is
//! faulty, they return the reason, and [`put_refusal`] writes the answer for this reason. [`pair::read_apart`] compares
//! the text after the script with the text of a transcript that a [`maker::Maker`] makes. If the two texts differ, it
//! reads the text after the script instead. [`put_answer`], [`put_line`] and [`end_output`] write an answer and hand it
//! on. For a program that shows the faulty line, a [`tee::TeeSource`] keeps the front of the text that was taken. A
//! [`tee::TeeSink`] keeps the first bytes of the last piece that was put. [`refusal::fault_in`] finds the fault in the
//! answer.
//!
//! # Example
//!
//! ```rust
//! match read_pair(alloc, source) {
//!     Ok((script, t)) => tell(alloc, ask, &script, t, sink),
//!     Err(why) => put_refusal(&why, sink),
//! }
//! ```
//!
//! From `crates/key_audit/src/audit.rt`.
//!
//! # Proved
//!
//! - [`read_script`] and [`pair::read_pair`]: what each result means for the source (`specs/Reads`). A read fault is
//!   reported exactly if it was counted.
//! - [`put_answer`] and [`put_line`]: the sink has got the whole answer, or the status is `WriteFault`. [`put_refusal`]
//!   does the same with the line for a reason, and writes nothing after a read fault or if memory ran out.
//! - [`end_output`]: after an answer the sink keeps nothing back.
//! - [`refusal::fault_in`]: if a fault is found, the text is the refusal line of this fault.
//!
//! # Tested only
//!
//! `.ci/program_checks` tests that [`refusal::fault_in`] finds the fault in each refusal line, and that
//! [`tee::TeeSource::line`] returns the line with the given number. It also tests the texts on standard error.
#![tactic(auto)]

mod answers;
mod command_line;
mod ending;
mod feeding;
pub mod following;
mod intake;
pub mod maker;
pub mod numbers;
pub mod pair;
pub mod refusal;
mod script;
mod script_end;
pub mod short_lines;
mod status;
pub mod tee;

pub use answers::{put_answer, put_line, put_refusal};
pub use command_line::words;
pub use ending::end_output;
pub use script::read_script;
pub use status::Status;
