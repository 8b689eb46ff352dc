//! Writes the transcript that given words and steps determine.
ghost use Rattle.std.specs.Prelude.{◌≡◌, ◌^◌, ◌<◌, ◌∷◌, [], ◌++◌, List, length, Some, IfOk, OnOk, slice_get};
ghost use Rattle.std.specs.List.{AllByRecursion};
ghost use Rattle.key_names.specs.Transcripts.IsTranscript.{IsTranscript};
ghost use Rattle.key_names.specs.Transcripts.SameSteps.{SameSteps};
ghost use Rattle.key_names.specs.Transcripts.SeenLine.{SeenLine};
ghost use Rattle.key_names.specs.Texts.TranscriptGrammar.{LineFits, ShownFits};
ghost use Rattle.key_names.specs.declared.events.Word.{Word as EventWord};
ghost use Rattle.judge_lines.specs.Clauses.{clause_of};
ghost use Rattle.transcript_text.specs.Views.{bytes_of, seen, seen_shown};
ghost use Rattle.judge_log.specs.Said.{shown_by};
ghost use Rattle.serial_replay.specs.Agreement.{Agrees, AllAgree};
ghost use Rattle.serial_replay.specs.Remade.{said_lists};
ghost use Rattle.serial_replay.specs.Replayed.{IsReplay, StepsFail};
ghost use Rattle.serial_replay.specs.Written.{bytes_said, said_of, lines_said, said_into, IsFor, MayShow};

use crate::remake::{Remade, remake};
use event_script::Script;
use judge_lines::clause::Clause;
use judge_log::said::{MadeLine, ShownRecipe, Whole};
use std::alloc::{AllocError, Global};
use transcript_text::{CallerLines, LineView, Shown, Transcript};

/// A transcript that was made again, or the clause that stopped the replay.
#[derive(Drop)]
pub enum Replayed {
    Made(Transcript),
    /// The first clause that fails, among those on lines, marks, forms and looks. These clauses do not depend on
    /// answers or data.
    No(Clause),
}

// Adds a line to the lines of its caller.
fn push_line(lines: &mut CallerLines, line: LineView<'_>) -> Result<(), AllocError>
    requires fits { LineFits (seen line) }
    requires short { length (bytes_of line.shown) < 2 ^ 32 }
    ensures { OnOk result (lines.new.lines ≡ lines.old.lines ++ seen line.entry ∷ []) }
{
    lines.reserve(line)?;
    lines.push(line);
    Ok(())
}

// Replaces the content of the buffer by the bytes of the data in `said`.
fn put_bytes(buffer: &mut Vec<u8>, said: &MadeLine) -> Result<(), AllocError>
    ensures bytes { OnOk result (buffer.new.items ≡ bytes_said said.now.shows) }
    ensures short { OnOk result (length buffer.new.items < 2 ^ 32) }
{
    buffer.clear();
    match &said.shows {
        ShownRecipe::Served(served) => served.put(buffer),
        ShownRecipe::Nothing | ShownRecipe::Count(_) => Ok(()),
    }
}

// The data of `said`. If these data are bytes, `bytes` has them, already made.
fn shown_as<'a>(said: &MadeLine, bytes: &'a [u8]) -> Shown<'a>
    requires bytes { bytes.now ≡ bytes_said said.now.shows }
    requires short { length bytes.now < 2 ^ 32 }
    ensures shown { seen_shown result ≡ shown_by said.now.shows }
    ensures short { length (bytes_of result) < 2 ^ 32 }
    ensures fits { (word : EventWord) → IsFor word (seen_shown result) → ShownFits word (seen_shown result) }
{
    match &said.shows {
        ShownRecipe::Nothing => Shown::None,
        ShownRecipe::Count(number) => Shown::Count(*number),
        ShownRecipe::Served(_) => Shown::Bytes(bytes),
    }
}

// The line `line`, with the answer and data of `said` instead of its own.
fn inferred_line<'a>(line: LineView<'a>, said: &MadeLine, bytes: &'a [u8]) -> LineView<'a>
    requires fits { LineFits (seen line) }
    requires kind { MayShow (seen line) said.now }
    requires bytes { bytes.now ≡ bytes_said said.now.shows }
    requires short { length bytes.now < 2 ^ 32 }
    ensures inferred { seen result ≡ said_of (seen line.entry) (Some said.now) }
    ensures short { length (bytes_of result.shown) < 2 ^ 32 }
    ensures fits { LineFits (seen result) }
{
    let shown = shown_as(said, bytes);
    LineView {
        caller: line.caller,
        event: line.event,
        word: line.word,
        answer: said.answer,
        steps: line.steps,
        shown,
    }
}

// Adds a line with the answer and data of `said`. The bytes of these data are first put into the buffer.
fn push_said(
    lines: &mut CallerLines,
    line: LineView<'_>,
    said: &MadeLine,
    buffer: &mut Vec<u8>,
) -> Result<(), AllocError>
    requires fits { LineFits (seen line) }
    requires kind { MayShow (seen line) said.now }
    ensures { OnOk result (lines.new.lines ≡ lines.old.lines ++ said_of (seen line.entry) (Some said.now) ∷ []) }
{
    put_bytes(buffer, said)?;
    push_line(lines, inferred_line(line, said, buffer))
}

// Adds a line with the answer and data that were made for the line's event.
fn push_made(
    lines: &mut CallerLines,
    line: LineView<'_>,
    said: &[MadeLine],
    buffer: &mut Vec<u8>,
) -> Result<(), AllocError>
    requires fits { LineFits (seen line) }
    requires kind { Agrees MayShow said.now (seen line) }
    ensures { OnOk result (lines.new.lines
        ≡ lines.old.lines ++ said_of (seen line.entry) (slice_get said.now line.entry.event) ∷ []) }
{
    match said.get(line.event as usize) {
        Some(one) => push_said(lines, line, one, buffer),
        None => unreachable!(),
    }
}

fn caller_lines(
    alloc: Global,
    lines: &CallerLines,
    said: &[MadeLine],
) -> Result<CallerLines, AllocError>
    requires { AllByRecursion (Agrees MayShow said.now) lines.now.lines }
    ensures { IfOk result (λ inferred. inferred.lines ≡ lines_said said.now lines.now.lines) }
{
    let mut inferred = CallerLines::with_room(alloc, lines.len(), 0, 0)?;
    let mut buffer = Vec::new(alloc);
    for number in 0..lines.len() {
        push_made(&mut inferred, lines.line(number), said, &mut buffer)?;
    }
    Ok(inferred)
}

fn all_lines(
    alloc: Global,
    steps: &Transcript,
    said: &[Vec<MadeLine>],
) -> Result<Transcript, AllocError>
    requires long { length said.now ≡ length steps.now }
    requires kinds { AllAgree MayShow (said_lists said.now) steps.now }
    ensures { IfOk result (λ inferred. inferred ≡ said_into (said_lists said.now) steps.now) }
{
    let mut callers = Vec::new(alloc);
    for caller in 0..steps.callers() {
        callers.push(caller_lines(alloc, steps.caller(caller), &said[caller as usize])?)?;
    }
    Ok(Transcript::of(callers))
}

// The transcript with the words and steps of `steps`, or the first clause that fails.
fn replay_steps(alloc: Global, script: &Script, steps: &Transcript) -> Result<Replayed, AllocError>
    ensures { IfOk result (λ replayed. IsReplay script.now steps.now replayed) }
{
    let made = match remake(alloc, script, steps, &Whole)? {
        Remade::No(clause) => return Ok(Replayed::No(clause)),
        Remade::Made(made) => made,
    };
    if !made.looks_conform {
        return Ok(Replayed::No(Clause::Looks));
    }
    // Frees the memory of the lists before the lines are written.
    drop(made.basis);
    Ok(Replayed::Made(all_lines(alloc, steps, &made.callers)?))
}

/// The transcript with the words and steps of `steps`, and with its answers and data made again. If a clause on lines,
/// marks, forms or looks fails, returns the first that fails. The answers and data of `steps` are not read.
///
/// # Errors
///
/// `AllocError` if there is no memory to make the transcript.
pub fn replay(alloc: Global, script: &Script, steps: &Transcript) -> Result<Replayed, AllocError>
    ensures replay { IfOk result (λ replayed. IsReplay script.now steps.now replayed) }
    ensures made { (t : List (List SeenLine)) → SameSteps steps.now t → IsTranscript script.now t
        → IfOk result (λ replayed. replayed ≡ Replayed.Made t) }
    ensures stops { (clause : Clause) → StepsFail script.now steps.now (clause_of clause)
        → IfOk result (λ replayed. replayed ≡ Replayed.No clause) }
{
    replay_steps(alloc, script, steps)
}
