//! The run of a script's callers.
ghost use Rattle.std.specs.Prelude.{IfOk};
ghost use Rattle.key_names.specs.Texts.ScriptGrammar.{WellFormed};
ghost use Rattle.key_names.specs.Texts.TranscriptGrammar.{IsTranscriptText, transcript_text};
ghost use Rattle.transcript_check.specs.Judged.{IsSound};

use caller_run::{Children, run_new};
use event_script::Script;
use io_edges::{Gate, NoMemory};
use std::alloc::Global;
use std::sync::Wait;
use std::thread::Threads;
use transcript_text::Transcript;

// Whether a script's callers run in this thread or in several threads (tested; either choice is right). A single caller
// forks no other caller, so it needs no thread of its own.
fn children_of(script: &Script) -> Children {
    if script.callers() == 1 {
        Children::Here
    } else {
        Children::InThreads
    }
}

/// The transcript of a script's run. Several callers run in threads, and a single one in this thread.
///
/// # Errors
///
/// `NoMemory` if there is no memory for the run. This is known before the first caller starts.
pub(crate) fn transcript_of<R: Threads + Wait + Sync, G: Gate>(
    rt: &R,
    alloc: Global,
    script: &Script,
    gate: &G,
) -> Result<Transcript, NoMemory>
    requires { WellFormed script.now }
    ensures run { IfOk result (λ t. IsSound script.now t) }
    ensures text { IfOk result (λ t. IsTranscriptText (transcript_text t) t) }
{
    let transcript = run_new(rt, alloc, script, gate, children_of(script))?;
    prove!(transcript.callers() == script.callers());
    Ok(transcript)
}
