//! `key_audit`: the keys that a lawful transcript's run made, the holder of each key, and the fates of its bytes.
//! `./rng audit keys SCRIPT TRANSCRIPT` at the top of the repository proves, builds and runs this program.
//! docs/AUDIT.md describes the commands.
//!
//! [`book`] makes the book of a transcript from the lists that the check of the transcript returns. The functions of
//! this file connect the command to standard streams, standard error and the exit code.
//!
//! # Example
//!
//! ```rust
//! let Ok(output) = BufWriter::with_capacity(rt.alloc(), GATHERED, rt.stdout()) else {
//!     return Status::NoMemory;
//! };
//! let mut source = StdSource::of(rt.stdin());
//! let mut sink = StdSink::of(output);
//! audit(rt.alloc(), words, &mut source, &mut sink)
//! ```
//!
//! From `crates/key_audit/src/main.rt`.
//!
//! # Proved
//!
//! - [`audit`]: its contract is that of the program. For every command the contract states the meaning of each status
//!   and of the output. For `NoMemory` it only states that no output is written.
//!
//! # Tested only
//!
//! The functions of this file, which have no clause, and that each held key has a row: `.ci/audit_checks`.
#![tactic(auto)]

mod answer;
mod ask;
mod asked;
mod audit;
mod book;
mod edges;
mod entries;
mod held;
mod keys;
mod line;
mod live;
mod moments;
mod reach;
mod row_index;
mod text;
mod until;

use crate::ask::USAGE;
use crate::audit::audit;
use io_edges::{StdSink, StdSource};
use std::io::BufWriter;
use std::process::ExitCode;
use tool_ends::{Status, words};

/// How many bytes of output are gathered before they are written to standard output.
const GATHERED: usize = 64 * 1024;

/// Runs a command on the standard streams. Only tested.
fn run(rt: &HostRuntime, words: &[String]) -> Status {
    let Ok(output) = BufWriter::with_capacity(rt.alloc(), GATHERED, rt.stdout()) else {
        return Status::NoMemory;
    };
    let mut source = StdSource::of(rt.stdin());
    let mut sink = StdSink::of(output);
    audit(rt.alloc(), words, &mut source, &mut sink)
}

/// Writes one line to standard error if the command ended without an answer. Only tested.
fn tell<R: Eprint>(rt: &R, status: Status) {
    let _listed = match status {
        Status::Done | Status::No => return,
        Status::Usage => eprintln!(rt; "{USAGE}"),
        Status::ReadFault => eprintln!(rt; "key_audit: standard input could not be read"),
        Status::WriteFault => eprintln!(rt; "key_audit: standard output could not be written"),
        Status::NoMemory => eprintln!(rt; "key_audit: there is not enough memory"),
        Status::Refused => eprintln!(rt;
            "key_audit: the input is too long, or its script has a fault: standard output says which"
        ),
    };
}

/// The exit code is the status of the command. Only tested.
fn main(rt: HostRuntime) -> ExitCode {
    let status = match words(&rt) {
        Ok(words) => run(&rt, &words),
        Err(status) => status,
    };
    tell(&rt, status);
    ExitCode::from(status.code())
}
