//! The lines of a transcript without their answers and data: the part that a replay reads.
ghost use Rattle.std.specs.Prelude.{◌≡◌, ◌≤◌, length, map, IfOk};
ghost use Rattle.transcript_text.specs.Views.{seen};
ghost use Rattle.key_names.specs.Transcripts.SameSteps.{bare};
ghost use Rattle.judge_lines.specs.Seen.{seen_bare, seen_callers};

use crate::bare::BareLine;
use std::alloc::{AllocError, Global};
use transcript_text::{CallerLines, LineView, Transcript};

fn bare_line(line: LineView<'_>) -> BareLine<'_>
    requires { length line.steps.now ≤ 20 }
    ensures { seen_bare result ≡ bare (seen line.entry) }
{
    BareLine {
        caller: line.caller,
        event: line.event,
        word: line.word,
        steps: line.steps,
    }
}

fn bare_lines(alloc: Global, lines: &CallerLines) -> Result<Vec<BareLine<'_>>, AllocError>
    ensures { IfOk result (λ bares. map seen_bare bares.items ≡ map bare lines.now.lines) }
{
    let mut bares = Vec::with_capacity(alloc, lines.len())?;
    for number in 0..lines.len() {
        bares.push(bare_line(lines.line(number)))?;
    }
    Ok(bares)
}

/// The lines of each caller without their answers and data.
///
/// # Errors
///
/// `AllocError` if there is no memory for them.
pub fn bare_callers(alloc: Global, t: &Transcript) -> Result<Vec<Vec<BareLine<'_>>>, AllocError>
    ensures { IfOk result (λ callers. seen_callers callers.items ≡ map (map bare) t.now) }
{
    let mut callers = Vec::new(alloc);
    for caller in 0..t.callers() {
        callers.push(bare_lines(alloc, t.caller(caller))?)?;
    }
    Ok(callers)
}
