//! Judges the clauses on a transcript's lines and marks (visits as the lines print them), before any lane's list is
//! made.
ghost use Rattle.std.specs.Prelude.{◌≡◌, ◌≤◌, length, IfOk};
ghost use Rattle.key_names.specs.Texts.ScriptGrammar.{WellFormed};
ghost use Rattle.key_names.specs.Transcripts.IsTranscript.{HasLines, script_calls};
ghost use Rattle.judge_lines.specs.Seen.{seen_callers};
ghost use Rattle.judge_lines.specs.Called.{seen_calls};
ghost use Rattle.judge_lines.specs.Begun.{IsBegun};

use crate::along::all_may_follow;
use crate::bare::BareLine;
use crate::called::{CalledLines, caller_calls};
use crate::clause::Clause;
use crate::lines::lines_fit;
use crate::marks::{MarkOf, places_count, sorted_marks};
use crate::order::{Fork, all_forks};
use crate::stamps::Stamps;
use event_script::Script;
use std::alloc::{AllocError, Global};

/// What judging makes of a transcript whose lines and marks are lawful: its calls, its marks and its forks.
#[derive(Drop)]
pub struct TranscriptParts<'a> {
    pub calls: Vec<Vec<CalledLines<'a>>>,
    pub marks: Vec<MarkOf>,
    pub forks: Vec<Fork>,
}

/// The result of judging a transcript's lines and marks.
#[derive(Drop)]
pub enum Begun<'a> {
    Conforms(TranscriptParts<'a>),
    /// The first clause that fails, which is `Lines` or `Marks`.
    No(Clause),
}

// The calls of each caller, with their lines.
fn all_calls<'a>(
    alloc: Global,
    script: &'a Script,
    lines: &[Vec<BareLine<'a>>],
) -> Result<Vec<Vec<CalledLines<'a>>>, AllocError>
    requires few { length lines.now ≤ 64 }
    requires lines { HasLines script.now (seen_callers lines.now) }
    ensures { IfOk result (λ calls. seen_calls calls.items ≡ script_calls script.now (seen_callers lines.now)) }
{
    let mut calls = Vec::new(alloc);
    for (caller, caller_lines) in lines.iter().enumerate() {
        calls.push(caller_calls(alloc, script.events(caller as u32), caller_lines)?)?;
    }
    Ok(calls)
}

/// Judges lines and marks. Each caller must have exactly its lines. In each lane the places must be 0, 1, 2 and so on.
/// Stamps must rise in each lane, and along each caller's order: its ancestors' steps before the fork, then its own.
///
/// # Errors
///
/// `AllocError` if there is no memory for the parts.
pub fn begin<'a>(
    alloc: Global,
    script: &'a Script,
    lines: &[Vec<BareLine<'a>>],
) -> Result<Begun<'a>, AllocError>
    requires well { WellFormed script.now }
    ensures { IfOk result (λ begun. IsBegun script.now (seen_callers lines.now) begun) }
{
    if !lines_fit(script, lines) {
        return Ok(Begun::No(Clause::Lines));
    }
    let marks = sorted_marks(alloc, lines)?;
    if !places_count(&marks) {
        return Ok(Begun::No(Clause::Marks));
    }
    let calls = all_calls(alloc, script, lines)?;
    let forks = all_forks(alloc, &calls)?;
    if !all_may_follow(alloc, &calls, &forks, &Stamps)? {
        return Ok(Begun::No(Clause::Marks));
    }
    Ok(Begun::Conforms(TranscriptParts {
        calls,
        marks,
        forks,
    }))
}
