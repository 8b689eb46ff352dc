//! The command `load`: reads its words, runs a script, checks the transcript, and writes the line that sums up the
//! load.
ghost use Rattle.std.specs.Prelude.{◌≡◌, ◌<◌, ◌≤◌, ◌*◌, ◌^◌, ◌∷◌, [], ℕ, Some, IfOk, IfSome, decimal, length, sum_by};
ghost use Rattle.key_names.specs.Texts.ScriptGrammar.{WellFormed};
ghost use Rattle.key_names.specs.Transcripts.SeenLine.{bytes_shown};
ghost use Rattle.key_names.specs.Texts.TranscriptGrammar.{all_lines};
ghost use Rattle.transcript_check.specs.Judged.{IsJudged};
ghost use Rattle.rng_tool.specs.LoadOutcome.{IsLoad, IsSmall, LoadEnds, LoadOf, data_len, load_line};
ghost use Rattle.tool_ends.specs.Ends.{CountsWriteFault};

use crate::callers::transcript_of;
use arrayvec::ArrayString;
use event_script::Script;
use io_edges::{Gate, NoMemory, Sink};
use key_names::Data;
use std::alloc::Global;
use std::sync::Wait;
use std::thread::Threads;
use tool_ends::numbers::CommandForm;
use tool_ends::short_lines::{ShortLine, add_number};
use tool_ends::{Status, put_line};
use transcript_check::check::{Verdict, check};
use transcript_text::{CallerLines, Transcript};

/// The most callers of a load.
const MOST_CALLERS: u32 = 64;

/// The most calls that each caller of a load makes.
const MOST_EVENTS: u32 = 1000;

/// The numbers of a load: the start of its script, the number of callers, and the number of calls that each caller
/// makes.
#[derive(Clone, Copy, Debug, PartialEq, Eq)]
pub(crate) struct LoadRequest {
    pub(crate) start: u32,
    pub(crate) callers: u32,
    pub(crate) events: u32,
}

/// The request that the words make, if they are `load START CALLERS EVENTS`.
pub(crate) fn load_of(words: &[String]) -> Option<LoadRequest>
    ensures found { IfSome result (λ load. IsLoad words.now load.start load.callers load.events) }
    ensures only { (start callers events : ℕ) → IsLoad words.now start callers events
        → result ≡ Some (record { start = start; callers = callers; events = events }) }
{
    let form = CommandForm {
        name: "load",
        first: (0, u32::MAX),
        second: (1, MOST_CALLERS),
        third: (1, MOST_EVENTS),
    };
    let (start, callers, events) = form.numbers(words)?;
    Some(LoadRequest {
        start,
        callers,
        events,
    })
}

fn load_line(callers: u32, events: u64, bytes: u64, verdict: Verdict) -> ShortLine
    ensures { result.bytes ≡ load_line callers events bytes verdict }
{
    let mut line = ArrayString::new();
    add_number(&mut line, "callers ", u64::from(callers));
    add_number(&mut line, " events ", events);
    add_number(&mut line, " bytes ", bytes);
    match verdict {
        Verdict::Yes => line.push_str(" check yes\n"),
        Verdict::No(clause) => {
            add_number(&mut line, " check no ", u64::from(clause.number()));
            line.push_str("\n");
        }
    }
    line
}

// The number of events in a script.
fn event_count(script: &Script) -> u64
    requires { WellFormed script.now }
    ensures { result ≡ sum_by length script.now.callers }
{
    let mut sum = 0;
    for caller in 0..script.callers() {
        sum += script.events(caller).len() as u64;
    }
    sum
}

// The number of bytes in a line's data.
fn data_len(shown: Data) -> u32
    ensures { result ≡ data_len shown }
{
    match shown {
        Data::Bytes { len, .. } => len,
        _ => 0,
    }
}

// How many bytes one caller's lines show.
fn shown_by(lines: &CallerLines) -> u64
    requires { length lines.now.lines ≤ 65600 }
    ensures sum { result ≡ length (bytes_shown lines.now.lines) }
    ensures small { result ≤ 65600 * 2 ^ 32 }
{
    let mut sum = 0;
    for line in lines.lines() {
        sum += u64::from(data_len(line.shown));
    }
    sum
}

// How many bytes all lines show.
fn shown_len(transcript: &Transcript) -> u64
    requires { sum_by length transcript.now ≤ 65600 }
    ensures { result ≡ length (bytes_shown (all_lines transcript.now)) }
{
    let mut sum = 0;
    for caller in 0..transcript.callers() {
        sum += shown_by(transcript.caller(caller));
    }
    sum
}

// The line that sums up a script and a transcript of it, with the verdict on the transcript, which may be unlawful.
fn checked_line(
    alloc: Global,
    callers: u32,
    script: &Script,
    t: &Transcript,
) -> Result<ShortLine, NoMemory>
    requires well { WellFormed script.now }
    requires few { sum_by length t.now ≤ 65600 }
    ensures { (verdict : Verdict) → IsJudged script.now t.now verdict → IfOk result (λ line.
        line.bytes ≡ load_line callers (sum_by length script.now.callers) (length (bytes_shown (all_lines t.now))) verdict) }
{
    let verdict = check(alloc, script, t)?;
    let line = load_line(callers, event_count(script), shown_len(t), verdict);
    Ok(line)
}

// Runs a load, checks its transcript, and returns the line that sums up the load.
fn summary<R: Threads + Wait + Sync, G: Gate>(
    rt: &R,
    alloc: Global,
    load: LoadRequest,
    gate: &G,
) -> Result<ShortLine, NoMemory>
    requires { IsSmall load }
    ensures { IfOk result (λ line. LoadOf load.start load.callers load.events line.bytes) }
{
    let script = Script::load(alloc, load.start, load.callers, load.events)?;
    let transcript = transcript_of(rt, alloc, &script, gate)?;
    let line = checked_line(alloc, load.callers, &script, &transcript)?;
    Ok(line)
}

/// Runs a load, and writes the line that sums up the load.
pub(crate) fn run_load<R: Threads + Wait + Sync, K: Sink, G: Gate>(
    rt: &R,
    alloc: Global,
    load: LoadRequest,
    sink: &mut K,
    gate: &G,
) -> Status
    requires { IsSmall load }
    ensures ends { LoadEnds load.start load.callers load.events result (K.held sink.old) (K.held sink.new) }
    ensures counted { CountsWriteFault result (K.faults sink.old) (K.faults sink.new) }
    ensures silent { result ≡ Status.NoMemory → sink.new ≡ sink.old }
{
    let Ok(line) = summary(rt, alloc, load, gate) else {
        return Status::NoMemory;
    };
    put_line(Status::Done, &line, sink)
}
