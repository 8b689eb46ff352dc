//! Whether each caller has exactly the lines that the script requires of it.
ghost use Rattle.std.specs.Prelude.{◌↔◌, IsTrue, map, length};
ghost use Rattle.key_names.specs.Transcripts.IsTranscript.{LineIs, LinesFit, HasLines};
ghost use Rattle.judge_lines.specs.Seen.{seen_bare, seen_callers};

use crate::bare::BareLine;
use event_script::Script;
use key_names::{Event, Word};

fn is_line(line: &BareLine<'_>, caller: u32, event: usize, word: Word) -> bool
    ensures { IsTrue result ↔ LineIs caller event word (seen_bare line.now) }
{
    line.caller == caller && line.event as usize == event && line.word == word
}

// Whether `lines` are the lines that the caller with these events must have.
fn caller_fits(caller: u32, events: &[Event], lines: &[BareLine<'_>]) -> bool
    ensures { IsTrue result ↔ LinesFit caller 0 events.now (map seen_bare lines.now) }
{
    if lines.len() != events.len() + 1 {
        return false;
    }
    for (number, event) in events.iter().enumerate() {
        if !is_line(&lines[number], caller, number, event.word()) {
            return false;
        }
    }
    is_line(&lines[events.len()], caller, events.len(), Word::End)
}

/// Whether each caller of the script has exactly its lines, and no further caller has any.
pub(crate) fn lines_fit(script: &Script, callers: &[Vec<BareLine<'_>>]) -> bool
    ensures { IsTrue result ↔ HasLines script.now (seen_callers callers.now) }
{
    if callers.len() != script.callers() as usize {
        return false;
    }
    for (caller, lines) in callers.iter().enumerate() {
        if !caller_fits(caller as u32, script.events(caller as u32), lines) {
            return false;
        }
    }
    true
}
