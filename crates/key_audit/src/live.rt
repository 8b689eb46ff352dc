//! The commands `live T` and `live C.E`: the keys, and the unserved rests of batches, that are in memory after a stamp
//! or after a line. Then the keys and bytes that can be computed from what is in memory.
ghost use Rattle.std.specs.Prelude.{◌≡◌, IfOk, List, Some};
ghost use Rattle.key_names.specs.Lanes.Book.{Book};
ghost use Rattle.key_names.specs.Callers.Calls.{Call};
ghost use Rattle.key_names.specs.Callers.Meaning.{CallMeaning};
ghost use Rattle.key_names.specs.Transcripts.SeenLine.{SeenLine};
ghost use Rattle.audit_keys.specs.declared.line_ends.LineEnd.{LineEnd};
ghost use Rattle.key_audit.specs.Asked.{line_end};
ghost use Rattle.key_audit.specs.Kept.{KeepsBook};
ghost use Rattle.key_audit.specs.Live.{lists_after, lists_until};
ghost use Rattle.key_audit.specs.Outcome.{TellsHeld};

use crate::asked::line_end;
use crate::book::KeptBook;
use crate::held::{held_at, held_rows, put_held, put_rests};
use crate::keys::rows_of;
use crate::moments::moments_of;
use crate::reach::reached_text;
use crate::row_index::RowIndex;
use crate::text::TextBuffer;
use crate::until::Until;
use audit_keys::moments::LineOf;
use std::alloc::{AllocError, Global};

/// The output lines of the keys, and of the unserved rests of batches, that are in memory at the moment `until`. Then
/// the lines of the keys and bytes that can be computed from what is in memory.
///
/// # Errors
///
/// `AllocError` if there is no memory for the text.
pub(crate) fn live_text(alloc: Global, until: Until, book: &KeptBook) -> Result<Vec<u8>, AllocError>
    ensures { (t : List (List SeenLine)) (callers : List (List Call)) (of : Book) (ms : List (List CallMeaning)) →
        KeepsBook book.now t callers of ms →
        IfOk result (λ text. TellsHeld (lists_until until callers of ms) callers of ms text.items) }
{
    let moments = moments_of(alloc, book)?;
    let rows = rows_of(alloc, book, &moments)?;
    let held = held_at(alloc, until, book, &moments)?;
    let index = RowIndex::of(alloc, &rows)?;
    let numbers = held_rows(alloc, &index, &held.keys)?;
    let mut text = TextBuffer::new(alloc);
    put_held(&mut text, &moments, &rows, &numbers)?;
    put_rests(&mut text, &held.rests)?;
    let reached = reached_text(alloc, &moments, &rows, &held.keys, &held.rests)?;
    text.bytes.extend_from_slice(&reached)?;
    Ok(text.bytes)
}

/// The output of `live_text` for the moment when the call of `line` was over. It is empty if the transcript has no such
/// line.
///
/// # Errors
///
/// `AllocError` if there is no memory for it.
pub(crate) fn after_text(
    alloc: Global,
    line: LineOf,
    book: &KeptBook,
) -> Result<Vec<u8>, AllocError>
    ensures { (t : List (List SeenLine)) (callers : List (List Call)) (of : Book) (ms : List (List CallMeaning)) →
        KeepsBook book.now t callers of ms → (end : LineEnd) → line_end callers line ≡ Some end →
        IfOk result (λ text. TellsHeld (lists_after line end callers of ms) callers of ms text.items) }
{
    match line_end(&book.lines, line) {
        Some(end) => {
            let until = Until::Call {
                stamp: end.stamp,
                caller: line.caller,
                call: end.call,
            };
            live_text(alloc, until, book)
        }
        None => Ok(Vec::new(alloc)),
    }
}
