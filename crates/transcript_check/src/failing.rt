//! Finds the first failing line of a transcript.
ghost use Rattle.std.specs.Prelude.{◌≡◌, IfOk, IfSome};
ghost use Rattle.key_names.specs.Texts.ScriptGrammar.{WellFormed};
ghost use Rattle.serial_replay.specs.Agreement.{SameAnswer, SameShown};
ghost use Rattle.transcript_check.specs.Others.{HasOther};

use crate::compare::{ComparedAnswer, ComparedData};
use crate::other_events::first_other_event;
use crate::other_forms::first_other_form;
use crate::other_lines::first_other;
use crate::paths::{Carried, first_off_path};
use crate::place::FailedLine;
use crate::uncounted::first_uncounted;
use event_script::Script;
use judge_lines::bare::BareLine;
use judge_lines::clause::Clause;
use judge_lines::seen::bare_callers;
use serial_replay::lists::{FoundLists, find_lists};
use std::alloc::{AllocError, Global};
use transcript_text::Transcript;

// The first line that has a visit at the wrong place, or a stamp that does not rise.
fn first_other_mark(
    alloc: Global,
    script: &Script,
    lines: &[Vec<BareLine<'_>>],
) -> Result<Option<FailedLine>, AllocError> {
    match first_uncounted(alloc, lines)? {
        Some(place) => Ok(Some(place)),
        None => first_off_path(alloc, script, lines, Carried::Stamp),
    }
}

// The first line with a look whose generation is too low or too high.
fn first_other_look(
    alloc: Global,
    script: &Script,
    lines: &[Vec<BareLine<'_>>],
) -> Result<Option<FailedLine>, AllocError>
    requires { WellFormed script.now }
{
    let basis = match find_lists(alloc, script, lines)? {
        FoundLists::Conforms(basis) => basis,
        FoundLists::No(_) => return Ok(None),
    };
    let lists = &basis.lists;
    let reseeds = match lists.base.last() {
        Some(kept) => kept.generation,
        None => 0,
    };
    first_off_path(alloc, script, lines, Carried::Seen { lists, reseeds })
}

/// The first line of a transcript at which this clause fails, and what was expected there. The clause must be the first
/// that fails.
///
/// - Lines: the first line that is missing, or that is not the line of its event.
/// - Marks: the visits of each lane are counted in the order of their stamps. The result is the first line with a visit
///   whose place is not the visit's count, or whose stamp another visit of the lane also has. If there is none, the
///   first line with a stamp that does not rise along its caller's steps.
/// - Forms: the first line that visits an absent CPU. If there is none, the line of the first visit (in the order of
///   stamps) at which the lane allows no entry that fits the line's steps. If there is none, the first line with steps
///   that match no form.
/// - Answers and data: the first line with an answer, or with data, that its steps do not give.
/// - Looks: the first line with a look whose generation is below the one that the line's caller had seen, or above the
///   number of reseeds.
///
/// The contract covers only the clauses on answers and data. Tests cover the other clauses, and that no earlier line
/// fails.
///
/// # Errors
///
/// `AllocError` if there is no memory to find the line.
pub fn first_failing_line(
    alloc: Global,
    script: &Script,
    t: &Transcript,
    clause: Clause,
) -> Result<Option<FailedLine>, AllocError>
    ensures answer { clause ≡ Clause.Answers → IfOk result (λ o. IfSome o (λ p.
        HasOther SameAnswer script.now t.now p.caller p.line)) }
    ensures data { clause ≡ Clause.Data → IfOk result (λ o. IfSome o (λ p.
        HasOther SameShown script.now t.now p.caller p.line)) }
{
    // This call is made for its contract, which states facts about every script.
    let _version = script.version();
    match clause {
        Clause::Lines => Ok(first_other_event(script, &bare_callers(alloc, t)?)),
        Clause::Marks => first_other_mark(alloc, script, &bare_callers(alloc, t)?),
        Clause::Forms => first_other_form(alloc, script, &bare_callers(alloc, t)?),
        Clause::Answers => first_other(alloc, script, t, &ComparedAnswer),
        Clause::Data => first_other(alloc, script, t, &ComparedData),
        Clause::Looks => first_other_look(alloc, script, &bare_callers(alloc, t)?),
    }
}
