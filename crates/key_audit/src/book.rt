//! The book of a transcript, made from the lanes' lists that the check of the transcript returns.
ghost use Rattle.std.specs.Prelude.{List, IfOk};
ghost use Rattle.key_names.specs.Transcripts.IsTranscript.{MadeBook, script_calls};
ghost use Rattle.key_names.specs.Transcripts.SeenLine.{SeenLine};
ghost use Rattle.key_names.specs.Texts.ScriptGrammar.{Script as ScriptLines};
ghost use Rattle.serial_replay.specs.Found.{BasisConforms};
ghost use Rattle.key_audit.specs.Audited.{IsAudited};
ghost use Rattle.key_audit.specs.Kept.{KeepsBook};

use audit_keys::entry::StateEntry;
use audit_keys::line_ends::{LineEnd, line_ends};
use audit_keys::lists::state_lists;
use event_script::Script;
use judge_lines::clause::Clause;
use judge_lines::marks::MarkOf;
use judge_log::Lists;
use serial_replay::lists::Basis;
use std::alloc::{AllocError, Global};
use transcript_check::check::{Judged, check_lists};
use transcript_text::Transcript;

/// What is kept of a transcript's book (the lists of its lanes and of its vgetrandom states).
#[derive(Drop)]
pub struct KeptBook {
    /// What is kept of each visit of each lane.
    pub lanes: Lists,
    /// For each caller and each of its sixteen vgetrandom states, the state's entries. Each entry has the call that
    /// left it.
    pub states: Vec<Vec<Vec<StateEntry>>>,
    /// The lines of each caller, and the call of each line.
    pub lines: Vec<Vec<LineEnd>>,
    /// The marks of all visits (lane, place and stamp), sorted by lane, and in each lane by stamp.
    pub marks: Vec<MarkOf>,
}

/// The kept book of a lawful transcript, or the first clause that an unlawful transcript fails.
#[derive(Drop)]
pub enum AuditedBook {
    Lawful(KeptBook),
    /// The first clause that the transcript fails.
    Unlawful(Clause),
}

// Makes the kept book from `basis`, the lists that the check made from the transcript's steps.
fn book_of(alloc: Global, basis: Basis<'_>) -> Result<KeptBook, AllocError>
    ensures { (script : ScriptLines) (t : List (List SeenLine)) → BasisConforms script t basis.entry →
        (made : MadeBook script t) →
        IfOk result (λ kept. KeepsBook kept t (script_calls script t) made.book made.meanings) }
{
    let states = state_lists(alloc, &basis.parts)?;
    let lines = line_ends(alloc, &basis.parts)?;
    Ok(KeptBook {
        lanes: basis.lists,
        states,
        lines,
        marks: basis.parts.marks,
    })
}

/// Judges a transcript, and keeps its book if the transcript is lawful. Frees the transcript, and the lists that were
/// made to judge the transcript.
///
/// # Errors
///
/// `AllocError` if there is no memory for the judging or the book.
pub fn audited_book(
    alloc: Global,
    script: &Script,
    t: Transcript,
) -> Result<AuditedBook, AllocError>
    ensures { IfOk result (λ audited. IsAudited script.now t audited) }
{
    match check_lists(alloc, script, &t)? {
        Judged::Lawful(basis) => {
            let book = book_of(alloc, basis)?;
            Ok(AuditedBook::Lawful(book))
        }
        Judged::Unlawful(clause) => Ok(AuditedBook::Unlawful(clause)),
    }
}
