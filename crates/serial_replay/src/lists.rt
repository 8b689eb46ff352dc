//! Makes the lists of the lanes again, from the lines and steps of a transcript.
ghost use Rattle.std.specs.Prelude.{IfOk};
ghost use Rattle.key_names.specs.Texts.ScriptGrammar.{WellFormed};
ghost use Rattle.judge_lines.specs.Seen.{seen_callers};
ghost use Rattle.serial_replay.specs.Found.{IsFound};

use event_script::Script;
use judge_lines::bare::BareLine;
use judge_lines::begin::{Begun, TranscriptParts, begin};
use judge_lines::clause::Clause;
use judge_lines::setting::LineSetting;
use judge_lines::settings::all_settings;
use judge_log::gather::gather;
use judge_log::{Lists, replay_lists};
use std::alloc::{AllocError, Global};

/// What the answers and data of a transcript are made from: the transcript's parts, the setting of each call, and the
/// data kept about the visits of each lane.
#[derive(Drop)]
pub struct Basis<'a> {
    pub parts: TranscriptParts<'a>,
    pub settings: Vec<Vec<LineSetting>>,
    pub lists: Lists,
}

/// The lists of a transcript's lanes, or the first clause that fails.
#[derive(Drop)]
pub enum FoundLists<'a> {
    Conforms(Basis<'a>),
    /// The first clause that fails, among those on lines, marks and forms.
    No(Clause),
}

/// Judges the lines and marks of a transcript. Infers entries from the steps, and makes the lists of the lanes from
/// these entries. Even if lists are returned, some line may have steps that match no form.
///
/// # Errors
///
/// `AllocError` if there is no memory for the lists.
pub fn find_lists<'a>(
    alloc: Global,
    script: &'a Script,
    lines: &[Vec<BareLine<'a>>],
) -> Result<FoundLists<'a>, AllocError>
    requires { WellFormed script.now }
    ensures { IfOk result (λ found. IsFound script.now (seen_callers lines.now) found) }
{
    let parts = match begin(alloc, script, lines)? {
        Begun::No(clause) => return Ok(FoundLists::No(clause)),
        Begun::Conforms(parts) => parts,
    };
    let settings = all_settings(alloc, &parts.calls, &parts.forks)?;
    let Some(inferred) = gather(alloc, script, &parts, &settings)? else {
        return Ok(FoundLists::No(Clause::Forms));
    };
    let Some(lists) = replay_lists(alloc, &inferred)? else {
        return Ok(FoundLists::No(Clause::Forms));
    };
    Ok(FoundLists::Conforms(Basis {
        parts,
        settings,
        lists,
    }))
}
