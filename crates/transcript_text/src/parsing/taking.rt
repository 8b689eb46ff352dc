//! Adding one more line to a transcript that is being read.
ghost use Rattle.std.specs.Prelude.{◌<◌, ◌≤◌, ◌^◌, length, vec_len, MatchBool, MatchOption, IfOk};
ghost use Rattle.transcript_text.specs.Grouping.{seen_callers};
ghost use Rattle.transcript_text.specs.ReadTexts.{AddsLine, IsNoLine, IsPassed, IsReadFrom};

use crate::caller_lines::CallerLines;
use crate::parsing::data::spells_data;
use crate::parsing::grouping::go_on_to;
use crate::parsing::line::{ReadLine, line_of};
use key_names::Trace;
use std::alloc::{AllocError, Global};

/// The most callers of a transcript.
const MOST_CALLERS: u32 = 64;

// Reads a line as `line_of` does, if the number of the line's caller is from `least` to 63.
fn line_from<'a>(least: usize, text: &'a [u8], trace: &'a mut Trace) -> Option<ReadLine<'a>>
    ensures { MatchOption result (IsNoLine text.now least) (IsReadFrom text.now least) }
{
    let read = line_of(text, trace)?;
    if read.caller >= MOST_CALLERS {
        return None;
    }
    if (read.caller as usize) < least {
        return None;
    }
    Some(read)
}

/// Reads a line from `text`, and adds it. Returns whether `text` is a line of the current caller or of a later one. One
/// trace serves all lines: a trace for each line would have to be cleared and moved.
pub(crate) fn take_line(
    alloc: Global,
    done: &mut Vec<CallerLines>,
    current: &mut CallerLines,
    trace: &mut Trace,
    text: &[u8],
) -> Result<bool, AllocError>
    requires { length text.now < 2 ^ 32 }
    ensures { IfOk result (λ is_line. MatchBool is_line
        (AddsLine text.now (seen_callers done.old.items) (seen_callers done.new.items)
        current.old.lines current.new.lines)
        (IsNoLine text.now (vec_len done.old))) }
{
    let Some(read) = line_from(done.len(), text, trace) else {
        return Ok(false);
    };
    go_on_to(alloc, done, current, read.caller)?;
    current.push_read(alloc, &read)
}

/// Reads a line as `take_line` does, and makes its caller the current one, but does not keep the line.
pub(crate) fn pass_line(
    alloc: Global,
    done: &mut Vec<CallerLines>,
    current: &mut CallerLines,
    trace: &mut Trace,
    text: &[u8],
) -> Result<bool, AllocError>
    ensures { IfOk result (λ is_line. MatchBool is_line
        (IsPassed text.now (vec_len done.old) (vec_len done.new))
        (IsNoLine text.now (vec_len done.old))) }
{
    let Some(read) = line_from(done.len(), text, trace) else {
        return Ok(false);
    };
    if !spells_data(read.word, read.shown) {
        return Ok(false);
    }
    go_on_to(alloc, done, current, read.caller)?;
    Ok(true)
}
