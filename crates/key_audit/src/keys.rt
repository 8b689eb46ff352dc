//! The command `keys`: a row for each key that the entries of a book made.
ghost use Rattle.std.specs.Prelude.{◌≡◌, List, IfOk};
ghost use Rattle.key_names.specs.Lanes.Book.{Book};
ghost use Rattle.key_names.specs.Callers.Calls.{Call};
ghost use Rattle.key_names.specs.Callers.Meaning.{CallMeaning};
ghost use Rattle.key_names.specs.Transcripts.SeenLine.{SeenLine};
ghost use Rattle.audit_keys.specs.MadeOrder.{RowsByMaking};
ghost use Rattle.key_audit.specs.Kept.{KeepsBook};
ghost use Rattle.key_audit.specs.Outcome.{AreRows, TellsKeys};

use crate::book::KeptBook;
use crate::entries::all_entries;
use crate::moments::moments_of;
use crate::text::TextBuffer;
use audit_keys::listed::tell_book;
use audit_keys::moments::Moments;
use audit_keys::rows::{KeyRow, make_rows, sort_rows};
use std::alloc::{AllocError, Global};

/// The rows of the keys that the entries of a book made, in the order in which the keys were made.
///
/// # Errors
///
/// `AllocError` if there is no memory for them.
pub(crate) fn rows_of(
    alloc: Global,
    book: &KeptBook,
    moments: &Moments,
) -> Result<Vec<KeyRow>, AllocError>
    ensures are { (t : List (List SeenLine)) (callers : List (List Call)) (of : Book) (ms : List (List CallMeaning)) →
        KeepsBook book.now t callers of ms → IfOk result (λ rows. AreRows of rows.items) }
    ensures ordered { IfOk result (λ rows. RowsByMaking moments.now rows.items) }
{
    let entries = all_entries(alloc, &book.states)?;
    let listed = tell_book(alloc, &book.lanes, &entries)?;
    let mut rows = make_rows(alloc, listed)?;
    sort_rows(&mut rows, moments)?;
    Ok(rows)
}

/// The output of the command `keys`: the text of all rows.
///
/// # Errors
///
/// `AllocError` if there is no memory for it.
pub(crate) fn keys_text(alloc: Global, book: &KeptBook) -> Result<Vec<u8>, AllocError>
    ensures { (t : List (List SeenLine)) (callers : List (List Call)) (of : Book) (ms : List (List CallMeaning)) →
        KeepsBook book.now t callers of ms → IfOk result (λ text. TellsKeys callers of ms text.items) }
{
    let moments = moments_of(alloc, book)?;
    let rows = rows_of(alloc, book, &moments)?;
    let mut text = TextBuffer::new(alloc);
    text.rows(&moments, &rows)?;
    Ok(text.bytes)
}
