//! Makes every answer and all data of a transcript again, from its words and steps.
ghost use Rattle.std.specs.Prelude.{◌≡◌, ◌≤◌, List, length, IfOk, IfSome, IsSome, map};
ghost use Rattle.std.specs.List.{AllByRecursion};
ghost use Rattle.key_names.specs.Lanes.Book.{Lists as BookLists, LawfulLanes, list_at};
ghost use Rattle.key_names.specs.Transcripts.IsTranscript.{start_setting};
ghost use Rattle.key_names.specs.Transcripts.SameSteps.{bare};
ghost use Rattle.key_names.specs.Texts.ScriptGrammar.{Script as ScriptLines, WellFormed};
ghost use Rattle.key_names.specs.Transcripts.SeenLine.{SeenLine};
ghost use Rattle.judge_lines.specs.Called.{seen_calls};
ghost use Rattle.judge_lines.specs.Seen.{seen_callers};
ghost use Rattle.judge_log.specs.Kept.{Keeps};
ghost use Rattle.judge_log.specs.Filled.{AllCallsFill};
ghost use Rattle.judge_log.specs.Said.{CallInRange, IsSaid};
ghost use Rattle.serial_replay.specs.Found.{ConformsOn};
ghost use Rattle.serial_replay.specs.Remade.{IsRemade, CallersConform, StepsFit, AllMeanSome, AllSaid};

use crate::lists::{Basis, FoundLists, find_lists};
use crate::looks::Looks;
use event_script::Script;
use judge_lines::along::all_may_follow;
use judge_lines::bare::BareLine;
use judge_lines::called::CalledLines;
use judge_lines::clause::Clause;
use judge_lines::seen::bare_callers;
use judge_lines::setting::LineSetting;
use judge_log::Lists;
use judge_log::calls::caller_said;
use judge_log::said::Note;
use std::alloc::{AllocError, Global};
use transcript_text::Transcript;

/// The notes of each caller's lines, whether the looks of the transcript are lawful, and the lists from which the notes
/// were made. The note of a line is at the line's event number.
#[derive(Drop)]
pub struct Made<'a, T: Drop> {
    pub callers: Vec<Vec<T>>,
    pub looks_conform: bool,
    pub basis: Basis<'a>,
}

/// The result for a transcript's steps: notes of each caller's lines; or, among the clauses on lines, marks and forms,
/// the first that fails. Notes are made even if a look is not lawful.
#[derive(Drop)]
pub enum Remade<'a, T: Drop> {
    Made(Made<'a, T>),
    /// The first clause that fails, among clauses 2, 3 and 4 (lines, marks and forms).
    No(Clause),
}

// The notes of each caller's lines. `None` if the steps of some line match no form of its call.
fn all_said<N: Note>(
    alloc: Global,
    calls: &[Vec<CalledLines<'_>>],
    settings: &[Vec<LineSetting>],
    kept: &Lists,
    how: &N,
) -> Result<Option<Vec<Vec<N::Noted>>>, AllocError>
    requires few { length calls.now ≤ 64 }
    requires long { length settings.now ≡ length calls.now }
    requires in_range { AllByRecursion (AllByRecursion CallInRange) (seen_calls calls.now) }
    ensures some { (script : ScriptLines) (t : List (List SeenLine)) (lists : BookLists) →
        CallersConform script t (seen_calls calls.now) settings.now → Keeps kept.now lists → LawfulLanes lists →
        AllCallsFill lists (seen_calls calls.now) →
        IfOk result (λ o. IfSome o (λ noted. AllSaid (N.IsNoted how.now) lists (seen_calls calls.now) noted.items)) }
    ensures only { (script : ScriptLines) (t : List (List SeenLine)) (lists : BookLists) →
        CallersConform script t (seen_calls calls.now) settings.now → Keeps kept.now lists → LawfulLanes lists →
        AllMeanSome lists (seen_calls calls.now) → IfOk result (λ o. IsSome o) }
{
    let mut callers = Vec::new(alloc);
    for (caller, caller_calls) in calls.iter().enumerate() {
        match caller_said(
            alloc,
            caller_calls,
            &settings[caller],
            kept,
            how,
            caller as u32,
        )? {
            Some(noted) => callers.push(noted)?,
            None => return Ok(None),
        }
    }
    Ok(Some(callers))
}

fn of_lines<'a, N: Note>(
    alloc: Global,
    script: &'a Script,
    lines: &[Vec<BareLine<'a>>],
    how: &N,
) -> Result<Remade<'a, N::Noted>, AllocError>
    requires well { WellFormed script.now }
    requires fit { StepsFit (seen_callers lines.now) }
    ensures made { IfOk result (λ remade. IsRemade (N.IsNoted how.now) script.now (seen_callers lines.now) remade) }
    ensures basis { IfOk result (λ remade. ConformsOn script.now (seen_callers lines.now) remade) }
{
    let basis = match find_lists(alloc, script, lines)? {
        FoundLists::No(clause) => return Ok(Remade::No(clause)),
        FoundLists::Conforms(basis) => basis,
    };
    let parts = &basis.parts;
    let Some(callers) = all_said(alloc, &parts.calls, &basis.settings, &basis.lists, how)? else {
        return Ok(Remade::No(Clause::Forms));
    };
    let looks = Looks::of(&basis.lists);
    let looks_conform = all_may_follow(alloc, &parts.calls, &parts.forks, &looks)?;
    Ok(Remade::Made(Made {
        callers,
        looks_conform,
        basis,
    }))
}

/// Makes every answer and all data of a transcript again, from its words and steps alone. `how` determines what is
/// noted of these answers and data. The result also has the lists from which the answers and data were made.
///
/// # Errors
///
/// `AllocError` if there is no memory for the notes or the lists.
pub fn remake<'a, N: Note>(
    alloc: Global,
    script: &'a Script,
    t: &'a Transcript,
    how: &N,
) -> Result<Remade<'a, N::Noted>, AllocError>
    ensures made { IfOk result (λ remade. IsRemade (N.IsNoted how.now) script.now t.now remade) }
    ensures of_steps { IfOk result (λ remade. IsRemade (N.IsNoted how.now) script.now (map (map bare) t.now) remade) }
    ensures basis { IfOk result (λ remade. ConformsOn script.now (map (map bare) t.now) remade) }
{
    // These two calls are made for their contracts, which state facts about every script and every transcript.
    let _version = script.version();
    let _callers = t.callers();
    let lines = bare_callers(alloc, t)?;
    of_lines(alloc, script, &lines, how)
}
