//! Input and output: bytes in, bytes out, and counts of failures. The crate uses only std.
//!
//! The layers above take a [`Source`] and a [`Sink`] as type parameters. So one contract covers the standard streams,
//! buffers in memory, and a test's planned failures. A [`Gate`] is called before each event of a caller; in a test, a
//! gate can hold the caller back.
//!
//! # Example
//!
//! ```rust
//! let mut sink = MemSink::of(alloc, 4096, Vec::new(alloc), 10)?;
//! assert_eq!(rt; sink.put(TEXT), Ok(10));
//! assert_eq!(rt; sink.put(TEXT), Err(Failed));
//! assert_eq!(rt; sink.put(&[]), Ok(0));
//! assert_eq!(rt; sink.held(), b"rngtranscr".as_slice());
//! ```
//!
//! From `crates/test_texts/src/io_edges_tests.rt`.
//!
//! # Proved
//!
//! - [`Source`]: a source gives its bytes in order and without gaps. [`read_to_limit`] reads them to a limit.
//! - [`Sink`]: a sink holds exactly the bytes put into it. [`put_all`] puts a whole piece, or a prefix if the sink
//!   counted a fault.
//! - Every call reports a fault only if its source or sink counted one.
//! - [`MemSource`] and [`MemSink`] fail exactly at the listed takes and puts; a put also fails if it has bytes and no
//!   room is left.
//!
//! Whether the standard streams are real files is outside the contracts.
//!
//! # Tested only
//!
//! [`StdSource`] and [`StdSink`] work over real readers and writers: `io_edges_tests` of `test_texts`.
#![tactic(auto)]

mod edges;
mod faultless;
mod gate;
mod memory;
mod standard;
mod whole;

pub use edges::{Failed, Sink, Source};
pub use faultless::{NoFaultSink, NoFaultSource};
pub use gate::{Gate, OpenGate};
pub use memory::{MemSink, MemSource};
pub use standard::{StdSink, StdSource};
pub use std::alloc::AllocError as NoMemory;
pub use whole::{ReadError, put_all, read_to_limit};
