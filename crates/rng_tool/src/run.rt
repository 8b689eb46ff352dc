//! The top call: it takes the words of a command line, and runs the command.
ghost use Rattle.std.specs.Prelude.{◌≡◌, ◌≤◌, ◌↔◌, ◌⊎◌, [], ℕ, IfSome, length};
ghost use Rattle.caller_run.specs.Alone.{IsEmittedByOne};
ghost use Rattle.io_edges.specs.Faults.{Rose};
ghost use Rattle.key_names.specs.declared.point.Point.{Point};
ghost use Rattle.key_names.specs.Texts.ScriptFaults.{front};
ghost use Rattle.key_names.specs.Texts.ScriptGrammar.{IsScript, Script};
ghost use Rattle.rng_tool.specs.Commands.{IsNoForm, TakesInput};
ghost use Rattle.rng_tool.specs.DrawOutcome.{DrawEnds, IsDraw};
ghost use Rattle.rng_tool.specs.FeedOutcome.{FeedEnds, IsFeed};
ghost use Rattle.rng_tool.specs.JudgeOutcome.{IsJudge, JudgeEnds};
ghost use Rattle.rng_tool.specs.LiveOutcome.{IsLive, LiveEnds};
ghost use Rattle.rng_tool.specs.LoadOutcome.{IsLoad, LoadEnds};
ghost use Rattle.rng_tool.specs.Outcome.{IsRun, RunEnds};
ghost use Rattle.rng_tool.specs.VforkOutcome.{IsVfork, VforkEnds};
ghost use Rattle.tool_ends.specs.Pairs.{most_input};
ghost use Rattle.vdso_state.specs.declared.place.Turn.{Turn};

use crate::command::Command;
use crate::draw::run_draw;
use crate::feed::run_feed;
use crate::judge::{Judge, judge_input};
use crate::live::run_live;
use crate::load::run_load;
use crate::run_script::run_input;
use crate::vfork::run_vfork;
use io_edges::{Gate, Sink, Source};
use std::alloc::Global;
use std::sync::Wait;
use std::thread::Threads;
use tool_ends::{Status, end_output};

/// Runs the command that the words of the command line name.
///
/// Commands without numbers read the input, and the others read no input. A script has at most 16 MiB, and with a
/// transcript after it 96 MiB. A longer input is answered by `refused 0 1`, and only one byte more than the limit is
/// taken from the source. A number is spelt as in a script; START is below 2^32.
///
/// - `run`: the input is a script. If it has several callers, they run in threads. The output is the script's
///   transcript, which is lawful however the callers' calls interleave. If the input is no script, the output is the
///   line `refused LINE KIND`, with the input's first fault.
/// - `live`: the input is a script of one caller, who forks nobody and acts inside no vgetrandom call. Each event is
///   made as soon as its line was read, and its transcript line is then written. For a whole script the output is one
///   that `run` may write. At a fault the output ends with the line `refused LINE KIND`, after the lines of the events
///   before the fault. A fork or an act inside a call is refused with kind 13, which no fault of a script has. After a
///   fault nothing more is read; after the line `end` the input is read to its end.
/// - `check`: the input is a script, which ends at its first line `end`, and then a transcript. The output is `yes` if
///   the transcript is lawful for the script, and `no K` if clause K is the first that fails. A fault of the script is
///   answered as by `run`. No thread is started.
/// - `replay`: the input is as for `check`. The output is the one lawful transcript with the input's lines, words and
///   steps, whatever answers and data the input has. The output is `no 1` if the text is not the text of a transcript.
///   It is `no K` if clause K is the first that fails among the clauses on lines, marks, forms and looks.
/// - `load START CALLERS EVENTS`: 1 to 64 callers run the script of a load, with 1 to 1,000 calls each, and their
///   transcript is checked. One line sums it up: `callers CALLERS events V bytes B check yes`, with V events in the
///   script and B bytes of data in the transcript.
/// - `draw C K`: K numbers below C are drawn, and each gets a line. K is from 1 to 1,000. C is below 2^32, and C = 0
///   means 2^32. If a draw rejects 128 words, the last line is `spent`.
/// - `vfork POINT ATTEMPT N`: the caller of a vgetrandom call for N bytes, up to 2^20, forks at point POINT (1 to 4) of
///   attempt ATTEMPT (1 or 2). The output is `parent HEX` and `child HEX`, the bytes that each of the two gives out.
/// - `feed START FEEDERS SAMPLES`: 1 to 16 threads give a CPU 1 to 10,000 interrupt samples each, all at moment 0.
///   Sample i of thread f has the words START + i and f. The output is the line
///   `feeders FEEDERS samples N dumps D bits B`: the samples mixed, the dumps made, and the bits credited to the pool
///   after all dumps. The line is the same however the threads interleave.
///
/// `draw`, `vfork` and `feed` begin with a new table of one CPU. Before draws and forks, a sample of 32 bytes makes the
/// core ready.
///
/// The gate is called before each event of each caller. `run` accepts the whole script before the first call of the
/// gate. For `feed` the gate is called before each sample of each feeder; for `check` it is not called.
///
/// - `Usage`: the words are no command. The command reads and writes nothing.
/// - `ReadFault`: the source failed. Nothing is written, except by a session. At most one byte more than an input may
///   have was taken.
/// - `Refused`: the input has a fault, or the script of a session has a fork or an act inside a call. The line that
///   refuses the input was written; for a fault, this line has the input's first fault.
/// - `WriteFault`: the sink failed at a put, or at the flush after the last put. The bytes that it got in this call are
///   a prefix of the output.
/// - `NoMemory`: memory ran out. Nothing is written, except by a session. At most one byte more than an input may have
///   was taken.
/// - `No`: a clause fails, and the line with its number was written.
/// - `Done`: the input was read to its end, if the command takes one, and the whole output was written.
///
/// If the whole output was written, the sink holds none of it back.
pub fn run<R: Threads + Wait + Sync, S: Source, K: Sink, G: Gate>(
    rt: &R,
    alloc: Global,
    words: &[String],
    source: &mut S,
    sink: &mut K,
    gate: &G,
) -> Status
    ensures usage { result ≡ Status.Usage ↔ IsNoForm words.now }
    ensures unread { (TakesInput words.now → ⊥) → source.new ≡ source.old }
    ensures silent { (result ≡ Status.Usage) → sink.new ≡ sink.old }
    ensures unwritten { (IsLive words.now → ⊥) → (result ≡ Status.ReadFault) ⊎ (result ≡ Status.NoMemory)
        → sink.new ≡ sink.old }
    ensures read_fault { result ≡ Status.ReadFault → Rose (S.faults source.old) (S.faults source.new) }
    ensures no_read_fault { (result ≡ Status.ReadFault → ⊥) → S.faults source.new ≡ S.faults source.old }
    ensures write_fault { result ≡ Status.WriteFault → Rose (K.faults sink.old) (K.faults sink.new) }
    ensures no_write_fault { (result ≡ Status.WriteFault → ⊥) → K.faults sink.new ≡ K.faults sink.old }
    ensures handed_on { (result ≡ Status.Done) ⊎ (result ≡ Status.No) ⊎ (result ≡ Status.Refused)
        → K.kept_back sink.new ≡ [] }
    ensures ran { IsRun words.now
        → RunEnds result (S.left source.old) (S.left source.new) (K.held sink.old) (K.held sink.new) }
    ensures lived { IsLive words.now
        → LiveEnds result (S.left source.old) (S.left source.new) (K.held sink.old) (K.held sink.new) }
    ensures judged { (judge : Judge) → IsJudge words.now judge
        → JudgeEnds judge result (S.left source.old) (S.left source.new) (K.held sink.old) (K.held sink.new) }
    ensures loaded { (start callers events : ℕ) → IsLoad words.now start callers events
        → LoadEnds start callers events result (K.held sink.old) (K.held sink.new) }
    ensures run_completes { IsRun words.now
        → (Rose (S.faults source.old) (S.faults source.new) → ⊥) → (Rose (K.faults sink.old) (K.faults sink.new) → ⊥)
        → IfSome (S.left source.old) (λ all. (script : Script) → IsScript script all
        → (result ≡ Status.Done) ⊎ (result ≡ Status.NoMemory)) }
    ensures live_completes { IsLive words.now
        → (Rose (S.faults source.old) (S.faults source.new) → ⊥) → (Rose (K.faults sink.old) (K.faults sink.new) → ⊥)
        → IfSome (S.left source.old) (λ all. (script : Script) → IsScript script all → IsEmittedByOne script
        → (result ≡ Status.Done) ⊎ (result ≡ Status.NoMemory)) }
    ensures judge_completes { (judge : Judge) → IsJudge words.now judge
        → (Rose (S.faults source.old) (S.faults source.new) → ⊥) → (Rose (K.faults sink.old) (K.faults sink.new) → ⊥)
        → IfSome (S.left source.old) (λ all. (script : Script) → length all ≤ most_input → IsScript script (front all)
        → (result ≡ Status.Done) ⊎ (result ≡ Status.No) ⊎ (result ≡ Status.NoMemory)) }
    ensures load_completes { (start callers events : ℕ) → IsLoad words.now start callers events
        → (Rose (K.faults sink.old) (K.faults sink.new) → ⊥) → (result ≡ Status.Done) ⊎ (result ≡ Status.NoMemory) }
    ensures drawn { (bound count : ℕ) → IsDraw words.now bound count
        → DrawEnds bound count result (K.held sink.old) (K.held sink.new) }
    ensures draw_completes { (bound count : ℕ) → IsDraw words.now bound count
        → (Rose (K.faults sink.old) (K.faults sink.new) → ⊥) → (result ≡ Status.Done) ⊎ (result ≡ Status.NoMemory) }
    ensures forked { (point : Point) (attempt : Turn) (n : ℕ) → IsVfork words.now point attempt n
        → VforkEnds point attempt n result (K.held sink.old) (K.held sink.new) }
    ensures vfork_completes { (point : Point) (attempt : Turn) (n : ℕ) → IsVfork words.now point attempt n
        → (Rose (K.faults sink.old) (K.faults sink.new) → ⊥) → (result ≡ Status.Done) ⊎ (result ≡ Status.NoMemory) }
    ensures fed { (start feeders samples : ℕ) → IsFeed words.now start feeders samples
        → FeedEnds start feeders samples result (K.held sink.old) (K.held sink.new) }
    ensures feed_completes { (start feeders samples : ℕ) → IsFeed words.now start feeders samples
        → (Rose (K.faults sink.old) (K.faults sink.new) → ⊥) → (result ≡ Status.Done) ⊎ (result ≡ Status.NoMemory) }
    ensures verdict { result ≡ Status.No → (judge : Judge) × IsJudge words.now judge }
{
    match Command::of(words) {
        None => Status::Usage,
        Some(Command::Run) => end_output(run_input(rt, alloc, source, sink, gate), sink),
        Some(Command::Live) => end_output(run_live(rt, alloc, source, sink, gate), sink),
        Some(Command::Judge(judge)) => end_output(
            judge_input(rt, alloc, judge, source, sink),
            sink,
        ),
        Some(Command::Load(load)) => end_output(run_load(rt, alloc, load, sink, gate), sink),
        Some(Command::Draw(draw)) => end_output(run_draw(rt, alloc, draw, sink), sink),
        Some(Command::Vfork(vfork)) => end_output(run_vfork(rt, alloc, vfork, sink), sink),
        Some(Command::Feed(feed)) => end_output(run_feed(rt, alloc, feed, sink, gate), sink),
    }
}
