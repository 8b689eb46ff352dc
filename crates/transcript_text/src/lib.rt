//! The text of a transcript (docs/TRANSCRIPT.md), written and read. Whether a transcript is lawful is not checked here.
//!
//! [`TranscriptReader`] reads the text piece by piece, and [`read`] a whole text. [`write_all`] writes a whole
//! transcript, and a [`LineWriter`] writes line by line. [`CallerLines`] keeps the lines of a caller in memory that was
//! allocated before. The contracts use the grammar of `key_names` (`specs/Texts`). The code uses the readers of words
//! and numbers of `event_script`, and the sinks of `io_edges`.
//!
//! # Example
//!
//! ```rust
//! let Ok(transcript) = read(alloc, text) else {
//!     return Err(AllocError);
//! };
//! let mut sink = sink(alloc, 100, 0)?;
//! assert_eq!(rt; writing.write(&mut sink, &transcript), Ok(()));
//! sink.held().to_vec(alloc)
//! ```
//!
//! From `crates/test_texts/src/transcript_text_tests.rt`.
//!
//! # Proved
//!
//! - [`read`] and [`TranscriptReader::finish`]: if memory does not run out, the result is the transcript with this
//!   text, or the first faulty line if there is no such transcript. A [`TranscriptReader`] also returns an error if
//!   the text has more lines than its limit.
//! - [`write_all`] and [`LineWriter::write`]: the sink has got the text of the lines, or a prefix of this text if the
//!   sink counted a fault.
//! - [`CallerLines::push`] allocates nothing: it requires room for the line.
//! - [`laws::written_text`]: if each line is listed under its own caller's number, reading the written text gives the
//!   same lines.
//! - [`laws::one_transcript`]: a text is the text of at most one transcript.
//!
//! # Tested only
//!
//! A put writes at most 4,096 bytes, all of one line: `transcript_text_tests` of `test_texts`.
#![tactic(auto)]

mod caller_lines;
pub mod laws;
mod parsing;
mod printing;
mod transcript;
mod view;

pub use caller_lines::CallerLines;
pub use parsing::error::TextError;
pub use parsing::reader::TranscriptReader;
pub use parsing::reading::read;
pub use printing::comparison::Comparison;
pub use printing::line_writer::LineWriter;
pub use printing::writing::write_all;
pub use transcript::Transcript;
pub use view::{LineView, Shown};
