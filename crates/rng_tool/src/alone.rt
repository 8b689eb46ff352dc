//! Runs a script's only caller, and writes each line as soon as the line is made.
ghost use Rattle.std.specs.Prelude.{◌≡◌, [], ℕ, List, OnOk, OnErr};
ghost use Rattle.io_edges.specs.Faults.{Rose};
ghost use Rattle.io_edges.specs.Pieces.{AppendsPrefix};
ghost use Rattle.caller_run.specs.Alone.{IsGoing};
ghost use Rattle.key_names.specs.Texts.ScriptGrammar.{Script};
ghost use Rattle.rng_tool.specs.Outcome.{RunOf};
ghost use Rattle.tool_ends.specs.Reads.{WasWritten};

use caller_run::LoneRun;
use io_edges::{Failed, Gate, Sink};
use key_names::Event;
use std::sync::Wait;
use transcript_text::LineWriter;

/// Runs the events of a script's only caller, and writes each line as soon as the line is made. If the sink fails,
/// nothing more is written, but the caller still makes all of its lines.
///
/// # Errors
///
/// `Failed` if the sink failed. The sink has counted this as a fault, and the bytes that it got in this call are a
/// prefix of the transcript's text.
pub(crate) fn write_alone<R: Wait, K: Sink, G: Gate>(
    rt: &R,
    mut run: LoneRun,
    events: &[Event],
    sink: &mut K,
    gate: &G,
) -> Result<(), Failed>
    requires { (script : Script) × IsGoing script events.now run [] }
    ensures whole { (script : Script) → IsGoing script events.now run [] → OnOk result (WasWritten (RunOf script)
        (K.held sink.old) (K.held sink.new)) }
    ensures prefix { (script : Script) → IsGoing script events.now run [] → OnErr result ((text : List ℕ)
        × RunOf script text × AppendsPrefix (K.held sink.old) (K.held sink.new) text) }
    ensures cause { OnErr result (Rose (K.faults sink.old) (K.faults sink.new)) }
    ensures not_counted { OnOk result (K.faults sink.new ≡ K.faults sink.old) }
{
    let mut writer = LineWriter::new();
    let mut written = LineWriter::begin(sink);
    for event in events {
        run.make(rt, gate, event);
        let line = run.line();
        if written.is_err() {
            continue;
        }
        written = writer.write(sink, line);
    }
    run.end(rt);
    let line = run.line();
    written?;
    writer.write(sink, line)?;
    LineWriter::end(sink)
}
