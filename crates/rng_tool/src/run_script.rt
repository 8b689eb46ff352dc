//! The command `run`: it reads a script, and writes the script's transcript.
ghost use Rattle.std.specs.Prelude.{◌≡◌, ◌⊎◌};
ghost use Rattle.key_names.specs.Texts.ScriptGrammar.{WellFormed};
ghost use Rattle.rng_tool.specs.Outcome.{RunEnds, RunOf};
ghost use Rattle.tool_ends.specs.Ends.{CountsReadFault, CountsWriteFault};
ghost use Rattle.tool_ends.specs.Reads.{OnlyDone, WritesEnds};

use crate::alone::write_alone;
use crate::callers::transcript_of;
use caller_run::LoneRun;
use event_script::Script;
use io_edges::{Failed, Gate, Sink, Source};
use std::alloc::Global;
use std::mem;
use std::sync::Wait;
use std::thread::Threads;
use tool_ends::{Status, put_refusal, read_script};
use transcript_text::write_all;

// The run of an accepted script that may have many callers. All lines are made before the first line is written.
fn run_together<R: Threads + Wait + Sync, K: Sink, G: Gate>(
    rt: &R,
    alloc: Global,
    script: &Script,
    sink: &mut K,
    gate: &G,
) -> Status
    requires { WellFormed script.now }
    ensures ends { WritesEnds (OnlyDone (RunOf script.now)) result (K.held sink.old) (K.held sink.new) }
    ensures counted { CountsWriteFault result (K.faults sink.old) (K.faults sink.new) }
    ensures silent { result ≡ Status.NoMemory → sink.new ≡ sink.old }
{
    let Ok(transcript) = transcript_of(rt, alloc, script, gate) else {
        return Status::NoMemory;
    };
    match write_all(sink, &transcript) {
        Ok(()) => Status::Done,
        Err(Failed) => Status::WriteFault,
    }
}

// The run of an accepted script.
fn run_script<R: Threads + Wait + Sync, K: Sink, G: Gate>(
    rt: &R,
    alloc: Global,
    script: &Script,
    sink: &mut K,
    gate: &G,
) -> Status
    requires { WellFormed script.now }
    ensures ends { WritesEnds (OnlyDone (RunOf script.now)) result (K.held sink.old) (K.held sink.new) }
    ensures counted { CountsWriteFault result (K.faults sink.old) (K.faults sink.new) }
    ensures silent { result ≡ Status.NoMemory → sink.new ≡ sink.old }
{
    let run = match LoneRun::start(alloc, script) {
        Ok(Some(run)) => run,
        Ok(None) => return run_together(rt, alloc, script, sink, gate),
        Err(_) => return Status::NoMemory,
    };
    match write_alone(rt, run, script.events(0), sink, gate) {
        Ok(()) => Status::Done,
        Err(Failed) => Status::WriteFault,
    }
}

/// Runs the script that the source gives, and writes its transcript or its refusal.
pub(crate) fn run_input<R: Threads + Wait + Sync, S: Source, K: Sink, G: Gate>(
    rt: &R,
    alloc: Global,
    source: &mut S,
    sink: &mut K,
    gate: &G,
) -> Status
    ensures ends { RunEnds result (S.left source.old) (S.left source.new) (K.held sink.old) (K.held sink.new) }
    ensures silent { (result ≡ Status.ReadFault) ⊎ (result ≡ Status.NoMemory) → sink.new ≡ sink.old }
    ensures read_counted { CountsReadFault result (S.faults source.old) (S.faults source.new) }
    ensures counted { CountsWriteFault result (K.faults sink.old) (K.faults sink.new) }
{
    match read_script(alloc, source) {
        Ok(script) => {
            let status = run_script(rt, alloc, &script, sink, gate);
            // The program ends after this, and the system then frees the script's memory at once. Freeing the events
            // one by one takes 3 % of a run of small events.
            mem::forget(script);
            status
        }
        Err(why) => put_refusal(&why, sink),
    }
}
