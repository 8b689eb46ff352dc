//! Scripts: the text that lists the calls of each caller (docs/SCRIPT.md). The reader accepts exactly the texts of the
//! grammar, and returns the first fault of any other text. The contracts use the grammar and the faults of `key_names`
//! (`specs/Texts`).
//!
//! [`read`] reads a whole text, [`read_front`] reads a script at the start of a longer text, and a [`ScriptReader`]
//! reads a text in pieces. A `ScriptReader` shows the events of the lines that it has read. [`Script::load`] makes the
//! script of a load. [`words`] and [`numbers`] also read the words and numbers of transcripts and command lines.
//! `memchr` finds line ends.
//!
//! # Example
//!
//! ```rust
//! let text =
//!     b"rngscript 3\ncpus 256\ncaller 0\non 255\nstate 15\nfork 1\ncaller 1\nwrite -\nend\n0.0 on ok - -\n";
//! let (script, len) = read_front(rt.alloc(), text).ok().ok_or("no script")?;
//! assert_eq!(rt; len, 74);
//! assert_eq!(rt; script.version(), 3);
//! assert_eq!(rt; script.cpus(), 256);
//! assert_eq!(rt; script.callers(), 2);
//! ```
//!
//! From `crates/test_texts/src/event_script_tests.rt`.
//!
//! # Proved
//!
//! - [`read`], [`read_front`] and [`ScriptReader::finish`]: if memory does not run out, the result is the script whose
//!   only spelling is the text. If no script has this spelling, the result is the text's first fault by the definition.
//!   For `read_front`, the text ends with its first line `end`, if it has one.
//! - [`ScriptReader::progress`]: the events of the lines read so far, or the first fault.
//! - [`Script::load`]: the script of a load, as `specs/LoadScript.antt` defines it.
//! - [`Script::version`]: the contract also states that every script is well-formed.
//!
//! # Tested only
//!
//! A reader shows an event once the event's line is whole, and the text of a load spells the load's events:
//! `event_script_tests` of `test_texts`. `long_texts` tests that the reader finds the fault of a long text in one pass,
//! with memory for the text only.
#![tactic(auto)]

mod load;
pub mod numbers;
pub mod progress;
pub mod reader;
pub mod reads;
pub mod script;
pub mod script_error;
mod statements;
mod whole;
pub mod words;

pub use progress::{DraftView, ScriptProgress};
pub use reader::ScriptReader;
pub use script::{Script, read, read_front};
pub use script_error::{ScriptError, Unread};
