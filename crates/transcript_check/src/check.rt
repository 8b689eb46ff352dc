//! Checks whether a transcript is lawful for a script.
ghost use Rattle.std.specs.Prelude.{◌≡◌, IfOk, map};
ghost use Rattle.key_names.specs.Texts.ScriptGrammar.{WellFormed};
ghost use Rattle.key_names.specs.Transcripts.IsTranscript.{IsTranscript, FirstFails};
ghost use Rattle.key_names.specs.Transcripts.SameSteps.{bare};
ghost use Rattle.judge_lines.specs.Clauses.{clause_of};
ghost use Rattle.transcript_check.specs.Judged.{HasLists, IsJudged, verdict_of};

use crate::compare::{Compare, ComparedAnswer, ComparedData, all_agree};
use event_script::Script;
use judge_lines::clause::Clause;
use serial_replay::lists::Basis;
use serial_replay::remake::{Remade, remake};
use std::alloc::{AllocError, Global};
use transcript_text::Transcript;

/// Whether a transcript is lawful.
#[derive(Clone, Copy, Debug, PartialEq, Eq)]
pub enum Verdict {
    Yes,
    /// This clause is the first that fails.
    No(Clause),
}

/// The lists of a lawful transcript, or the reason why the transcript is not lawful.
#[derive(Drop)]
pub enum Judged<'a> {
    Lawful(Basis<'a>),
    /// This clause is the first that fails.
    Unlawful(Clause),
}

impl Judged<'_> {
    /// Whether the transcript is lawful.
    pub fn verdict(&self) -> Verdict
        ensures { result ≡ verdict_of self.now }
    {
        match self {
            Judged::Lawful(_) => Verdict::Yes,
            Judged::Unlawful(clause) => Verdict::No(*clause),
        }
    }
}

// The lists of a lawful transcript, or the first clause that fails.
fn judge<'a>(alloc: Global, script: &'a Script, t: &'a Transcript) -> Result<Judged<'a>, AllocError>
    requires { WellFormed script.now }
    ensures judged { IfOk result (λ judged. IsJudged script.now t.now (verdict_of judged)) }
    ensures lists { IfOk result (λ judged. HasLists script.now (map (map bare) t.now) judged) }
{
    let made = match remake(alloc, script, t, &Compare { t })? {
        Remade::No(clause) => return Ok(Judged::Unlawful(clause)),
        Remade::Made(made) => made,
    };
    if !all_agree(&ComparedAnswer, t, &made.callers) {
        return Ok(Judged::Unlawful(Clause::Answers));
    }
    if !all_agree(&ComparedData, t, &made.callers) {
        return Ok(Judged::Unlawful(Clause::Data));
    }
    if made.looks_conform {
        Ok(Judged::Lawful(made.basis))
    } else {
        Ok(Judged::Unlawful(Clause::Looks))
    }
}

/// Whether a transcript is lawful for a script. If the transcript is lawful, returns the data kept about the lists of
/// its lanes; otherwise returns the first clause that fails. The lists are made from the transcript's words and steps
/// alone, and the transcript's answers and data agree with them.
///
/// # Errors
///
/// `AllocError` if there is no memory to judge it.
pub fn check_lists<'a>(
    alloc: Global,
    script: &'a Script,
    t: &'a Transcript,
) -> Result<Judged<'a>, AllocError>
    ensures judged { IfOk result (λ judged. IsJudged script.now t.now (verdict_of judged)) }
    ensures lists { IfOk result (λ judged. HasLists script.now (map (map bare) t.now) judged) }
{
    // This call is made for its contract, which states facts about every script.
    let _version = script.version();
    judge(alloc, script, t)
}

/// Whether a transcript is lawful for a script. If the transcript is not lawful, returns the first clause that fails.
///
/// # Errors
///
/// `AllocError` if there is no memory to judge it.
pub fn check(alloc: Global, script: &Script, t: &Transcript) -> Result<Verdict, AllocError>
    ensures judged { IfOk result (λ verdict. IsJudged script.now t.now verdict) }
    ensures yes { IsTranscript script.now t.now → IfOk result (λ verdict. verdict ≡ Verdict.Yes) }
    ensures no { (clause : Clause) → FirstFails script.now t.now (clause_of clause)
        → IfOk result (λ verdict. verdict ≡ Verdict.No clause) }
{
    let judged = check_lists(alloc, script, t)?;
    Ok(judged.verdict())
}
