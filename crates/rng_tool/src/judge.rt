//! The commands `check` and `replay`. Their input is a script and then a transcript; they write an answer.
ghost use Rattle.std.specs.Prelude.{◌≡◌, ◌⊎◌, ◌≤◌, ◌^◌, List, ℕ, length, IfSome, Some};
ghost use Rattle.key_names.specs.Texts.ScriptGrammar.{WellFormed};
ghost use Rattle.key_names.specs.Texts.TranscriptGrammar.{transcript_text};
ghost use Rattle.rng_tool.specs.JudgeOutcome.{IsJudge, JudgeCalls, JudgeEnds, SaidOf, word_of, yes_line};
ghost use Rattle.rng_tool.specs.Outcome.{RunOf};
ghost use Rattle.tool_ends.specs.After.{HoldsText, IsApart, compared_with};
ghost use Rattle.tool_ends.specs.Ends.{CountsReadFault, CountsWriteFault};
ghost use Rattle.tool_ends.specs.Reads.{WritesEnds};

use crate::rerun::Rerun;
use arrayvec::ArrayString;
use event_script::Script;
use io_edges::{Failed, Sink, Source};
use serial_replay::replay::{Replayed, replay};
use std::alloc::Global;
use std::sync::Wait;
use std::thread::Threads;
use tool_ends::following::After;
use tool_ends::pair::read_apart;
use tool_ends::short_lines::{ShortLine, no_line};
use tool_ends::{Status, put_line, put_refusal};
use transcript_check::check::{Verdict, check};
use transcript_text::{Transcript, write_all};

/// A command about a script and a transcript: check whether the transcript is lawful, or make its answers and data
/// again.
#[derive(Clone, Copy, Debug, PartialEq, Eq)]
pub(crate) enum Judge {
    /// `check`
    Check,
    /// `replay`
    Replay,
}

// The command that a word names, if the word is `check` or `replay`.
fn judge_by(word: &str) -> Option<Judge>
    ensures found { IfSome result (λ judge. word.now ≡ word_of judge) }
    ensures only { (judge : Judge) → word.now ≡ word_of judge → result ≡ Some judge }
{
    if word == "check" {
        return Some(Judge::Check);
    }
    if word == "replay" {
        return Some(Judge::Replay);
    }
    None
}

/// The command that the words name, if it is `check` or `replay`.
pub(crate) fn judge_of(words: &[String]) -> Option<Judge>
    ensures found { IfSome result (λ judge. IsJudge words.now judge) }
    ensures only { (judge : Judge) → IsJudge words.now judge → result ≡ Some judge }
{
    match words {
        [word] => judge_by(word.as_str()),
        _ => None,
    }
}

fn yes_line() -> ShortLine
    ensures { result.bytes ≡ yes_line }
{
    let mut line = ArrayString::new();
    line.push_str("yes\n");
    line
}

// Writes whether the transcript is lawful.
fn say_checked<K: Sink>(alloc: Global, script: &Script, t: &Transcript, sink: &mut K) -> Status
    requires { WellFormed script.now }
    ensures ends { WritesEnds (SaidOf Judge.Check script.now t.now) result (K.held sink.old) (K.held sink.new) }
    ensures counted { CountsWriteFault result (K.faults sink.old) (K.faults sink.new) }
    ensures silent { result ≡ Status.NoMemory → sink.new ≡ sink.old }
{
    match check(alloc, script, t) {
        Ok(Verdict::Yes) => put_line(Status::Done, &yes_line(), sink),
        Ok(Verdict::No(clause)) => put_line(Status::No, &no_line(clause.number()), sink),
        Err(_) => Status::NoMemory,
    }
}

// Makes the transcript's answers and data again, and writes the result.
fn say_replayed<K: Sink>(alloc: Global, script: &Script, t: &Transcript, sink: &mut K) -> Status
    requires { WellFormed script.now }
    ensures ends { WritesEnds (SaidOf Judge.Replay script.now t.now) result (K.held sink.old) (K.held sink.new) }
    ensures counted { CountsWriteFault result (K.faults sink.old) (K.faults sink.new) }
    ensures silent { result ≡ Status.NoMemory → sink.new ≡ sink.old }
{
    match replay(alloc, script, t) {
        Ok(Replayed::Made(made)) => match write_all(sink, &made) {
            Ok(()) => Status::Done,
            Err(Failed) => Status::WriteFault,
        },
        Ok(Replayed::No(clause)) => put_line(Status::No, &no_line(clause.number()), sink),
        Err(_) => Status::NoMemory,
    }
}

// Writes the answer about a transcript.
fn say<K: Sink>(
    alloc: Global,
    judge: Judge,
    script: &Script,
    t: &Transcript,
    sink: &mut K,
) -> Status
    requires { WellFormed script.now }
    ensures ends { WritesEnds (SaidOf judge script.now t.now) result (K.held sink.old) (K.held sink.new) }
    ensures counted { CountsWriteFault result (K.faults sink.old) (K.faults sink.new) }
    ensures silent { result ≡ Status.NoMemory → sink.new ≡ sink.old }
{
    match judge {
        Judge::Check => say_checked(alloc, script, t, sink),
        Judge::Replay => say_replayed(alloc, script, t, sink),
    }
}

// Writes the answer about a script and the text after it. If a run was made, the text was compared with the run's
// output.
fn say_of_text<K: Sink>(
    alloc: Global,
    judge: Judge,
    script: &Script,
    following: After,
    sink: &mut K,
) -> Status
    requires well { WellFormed script.now }
    requires short { (text : List ℕ) × HoldsText text following × (length text ≤ 2 ^ 31) }
    requires run { IfSome (compared_with following) (λ t. (judge ≡ Judge.Check) × RunOf script.now (transcript_text t)) }
    ensures ends { (input : List ℕ) → IsApart input script.now following
        → WritesEnds (JudgeCalls judge input) result (K.held sink.old) (K.held sink.new) }
    ensures was_read { result ≡ Status.ReadFault → ⊥ }
    ensures counted { CountsWriteFault result (K.faults sink.old) (K.faults sink.new) }
    ensures silent { result ≡ Status.NoMemory → sink.new ≡ sink.old }
{
    // The text equals the output of a run, and such an output is lawful.
    if following.is_whole() {
        return put_line(Status::Done, &yes_line(), sink);
    }
    match following.transcript(alloc) {
        Ok(t) => say(alloc, judge, script, &t, sink),
        Err(why) => put_refusal(&why, sink),
    }
}

/// Writes the answer about the script and the transcript that the source gives. If the script is refused, writes the
/// refusal.
pub(crate) fn judge_input<R: Threads + Wait + Sync, S: Source, K: Sink>(
    rt: &R,
    alloc: Global,
    judge: Judge,
    source: &mut S,
    sink: &mut K,
) -> Status
    ensures ends { JudgeEnds judge result (S.left source.old) (S.left source.new) (K.held sink.old)
        (K.held sink.new) }
    ensures silent { (result ≡ Status.ReadFault) ⊎ (result ≡ Status.NoMemory) → sink.new ≡ sink.old }
    ensures read_counted { CountsReadFault result (S.faults source.old) (S.faults source.new) }
    ensures counted { CountsWriteFault result (K.faults sink.old) (K.faults sink.new) }
{
    match read_apart(alloc, source, &Rerun { rt, judge }) {
        Ok((script, following)) => say_of_text(alloc, judge, &script, following, sink),
        Err(why) => put_refusal(&why, sink),
    }
}
