//! `rng`: the Linux random number core, replayed from a script of recorded events. `./rng run < examples/first.script`
//! at the top of the repository proves, builds and runs it; `rng --help` lists the commands, and man/rng.1 describes
//! them.
//!
//! `main` adds the standard streams, the line on standard error and the exit code to [`run`]. The program uses the
//! contracts of the crates below it. Its own work is to parse words, to end each command, and to write the short lines
//! of all outputs but transcripts.
//!
//! # Example
//!
//! ```rust
//! let fails = [edges.failing_take].to_vec(alloc)?;
//! let mut source = MemSource::of(input.to_vec(alloc)?, edges.step, fails);
//! let fails = [edges.failing_put].to_vec(alloc)?;
//! let mut sink = MemSink::of(alloc, edges.step, fails, ROOM)?;
//! if edges.flush_fails {
//!     sink = sink.failing_at_flush();
//! }
//! let status = run(rt, alloc, &words, &mut source, &mut sink, gate);
//! Ok((status, sink))
//! ```
//!
//! From `crates/rng_tool/src/tests.rt`.
//!
//! # Proved
//!
//! - [`run`]: the main theorem. For every input, every interleaving of callers and every command, it states the meaning
//!   of status and output. docs/TRUST.md has a row for each clause of this contract.
//! - [`run_gathered`]: the statements of `run` about status and source, for the program's buffered output.
//!
//! # Tested only
//!
//! The standard streams, the line on standard error and the exit code: `.ci/program_checks`. Each command over sources
//! and sinks that fail, and the calls of the gate: the module `tests`.
#![tactic(auto)]

ghost use Rattle.std.specs.Prelude.{◌≡◌, ◌⊎◌, ℕ, List, Option};
ghost use Rattle.io_edges.specs.Faults.{Rose};
ghost use Rattle.rng_tool.specs.Commands.{IsNoForm, TakesInput};
ghost use Rattle.rng_tool.specs.JudgeOutcome.{IsJudge, JudgeEnds};
ghost use Rattle.rng_tool.specs.LiveOutcome.{IsLive, LiveEnds};
ghost use Rattle.rng_tool.specs.Outcome.{IsRun, RunEnds};

mod alone;
mod callers;
mod command;
mod draw;
mod failing;
mod feed;
mod judge;
mod live;
mod load;
mod messages;
mod rerun;
mod run;
mod run_script;
mod session_writer;
mod stop;
#[cfg(test)]
mod tests;
mod vfork;

use crate::judge::Judge;
use crate::messages::{Why, reason_of, tell};
use crate::run::run;
use io_edges::{OpenGate, Source, StdSink, StdSource};
use std::alloc::Global;
use std::io::{BufWriter, Write};
use std::process::ExitCode;
use std::sync::Wait;
use std::thread::Threads;
use tool_ends::tee::{TeeSink, TeeSource};
use tool_ends::{Status, words};

/// How many bytes of output are gathered into one write.
const GATHERED: usize = 64 * 1024;

/// The most bytes of a script: 16 MiB. A run or a session keeps the whole script, to show the line of a fault.
const MOST_OF_RUN: usize = 16 * 1024 * 1024;

/// The most bytes of a script and its transcript that are kept, to find the line at which a clause fails: 4 MiB.
const MOST_OF_PAIR: usize = 4 * 1024 * 1024;

// How many bytes of the input are kept for these words (tested).
fn most_kept(words: &[String]) -> usize {
    match words {
        [word] if word.as_str() == "run" || word.as_str() == "live" => MOST_OF_RUN,
        _ => MOST_OF_PAIR,
    }
}

/// Runs the command that the words name over this source, and gathers its output for the writer. Returns the status,
/// and the reason that a short answer contains (tested).
#[tactic(auto, using(crate::proofs::Unread::unread_judge, crate::proofs::Unread::unread_live, crate::proofs::Unread::unread_run))]
fn run_gathered<R: Threads + Wait + Sync, S: Source, O: Write + Drop>(
    rt: &R,
    alloc: Global,
    words: &[String],
    source: &mut S,
    output: O,
) -> (Status, Why)
    ensures usage { result.0 ≡ Status.Usage → IsNoForm words.now }
    ensures no_form { IsNoForm words.now → (result.0 ≡ Status.Usage) ⊎ (result.0 ≡ Status.NoMemory) }
    ensures unread { (TakesInput words.now → ⊥) → source.new ≡ source.old }
    ensures read_fault { result.0 ≡ Status.ReadFault → Rose (S.faults source.old) (S.faults source.new) }
    ensures ran { IsRun words.now → (held : Option (List ℕ)) × (held_after : Option (List ℕ))
        × RunEnds result.0 (S.left source.old) (S.left source.new) held held_after }
    ensures lived { IsLive words.now → (held : Option (List ℕ)) × (held_after : Option (List ℕ))
        × LiveEnds result.0 (S.left source.old) (S.left source.new) held held_after }
    ensures judged { (judge : Judge) → IsJudge words.now judge → (held : Option (List ℕ)) × (held_after : Option (List ℕ))
        × JudgeEnds judge result.0 (S.left source.old) (S.left source.new) held held_after }
    ensures verdict { result.0 ≡ Status.No → (judge : Judge) × IsJudge words.now judge }
{
    let Ok(output) = BufWriter::with_capacity(alloc, GATHERED, output) else {
        return (Status::NoMemory, Why::Unsaid);
    };
    let mut sink = TeeSink::of(StdSink::of(output));
    let status = run(rt, alloc, words, source, &mut sink, &OpenGate);
    (status, reason_of(sink.last()))
}

fn main(rt: HostRuntime) -> ExitCode {
    let given = words(&rt);
    let most = match &given {
        Ok(words) => most_kept(words),
        Err(_) => 0,
    };
    let mut source = TeeSource::of(rt.alloc(), StdSource::of(rt.stdin()), most);
    let (status, why) = match given {
        Ok(words) => run_gathered(&rt, rt.alloc(), &words, &mut source, rt.stdout()),
        Err(status) => (status, Why::Unsaid),
    };
    tell(&rt, rt.alloc(), status, why, &source);
    ExitCode::from(status.code())
}
