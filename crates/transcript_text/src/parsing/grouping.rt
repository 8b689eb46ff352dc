//! Groups the lines of a transcript by caller, as they come in sequence.
ghost use Rattle.std.specs.Prelude.{◌≡◌, ◌<◌, ◌≤◌, [], List, vec_len, OnOk, IfOk};
ghost use Rattle.key_names.specs.Transcripts.SeenLine.{SeenLine};
ghost use Rattle.transcript_text.specs.Grouping.{Groups, Gives, seen_callers};

use crate::caller_lines::CallerLines;
use crate::transcript::Transcript;
use std::alloc::{AllocError, Global};
use std::mem;

/// Makes `caller` the current caller. If another caller was current before, `caller` begins with no lines.
pub(crate) fn go_on_to(
    alloc: Global,
    done: &mut Vec<CallerLines>,
    current: &mut CallerLines,
    caller: u32,
) -> Result<(), AllocError>
    requires { vec_len done.old ≤ caller }
    ensures len { OnOk result (vec_len done.new ≡ caller) }
    ensures groups { OnOk result ((lines : List SeenLine) → Groups (seen_callers done.old.items) current.old.lines lines
        → Groups (seen_callers done.new.items) current.new.lines lines) }
{
    while done.len() < caller as usize {
        let next = CallerLines::with_room(alloc, 0, 0, 0)?;
        done.push(mem::replace(current, next))?;
    }
    Ok(())
}

/// The transcript of the callers in `done`, and of the current caller as the last.
pub(crate) fn finish(
    mut done: Vec<CallerLines>,
    current: CallerLines,
) -> Result<Transcript, AllocError>
    requires few { vec_len done < 64 }
    requires begun { current.lines ≡ [] → done.items ≡ [] }
    ensures { IfOk result (λ t. (lines : List SeenLine)
        → Groups (seen_callers done.items) current.lines lines → Gives t lines) }
{
    if current.is_empty() {
        return Ok(Transcript::of(done));
    }
    done.push(current)?;
    Ok(Transcript::of(done))
}
