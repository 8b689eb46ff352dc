//! The keys, and the unserved rests of batches, that are in memory at a moment; and the output's lines for them.
ghost use Rattle.std.specs.Prelude.{◌≡◌, ◌++◌, IfOk, List, OnOk, filter, slice_get};
ghost use Rattle.std.specs.List.{flat_map};
ghost use Rattle.key_names.specs.Lanes.Book.{Book};
ghost use Rattle.key_names.specs.Callers.Calls.{Call};
ghost use Rattle.key_names.specs.Callers.Meaning.{CallMeaning};
ghost use Rattle.key_names.specs.Transcripts.SeenLine.{SeenLine};
ghost use Rattle.key_audit.specs.Kept.{KeepsBook};
ghost use Rattle.key_audit.specs.Moments.{AreMoments};
ghost use Rattle.key_audit.specs.Texts.{piece_text};
ghost use Rattle.key_audit.specs.Live.{AreRowsOf, IsHeld, lists_until, batch_holder_text, became_key};
ghost use Rattle.key_audit.specs.Live.{held_line, held_lines, kept_line, rest_line};

use crate::book::KeptBook;
use crate::entries::entries_until;
use crate::row_index::RowIndex;
use crate::text::TextBuffer;
use crate::until::Until;
use audit_keys::cut::kept_to;
use audit_keys::held::{BatchHolder, HeldKey, HeldMaterial, HeldRest};
use audit_keys::held_book::hold_book;
use audit_keys::lives::Holder;
use audit_keys::moments::Moments;
use audit_keys::rows::{Fate, KeyPiece, KeyRow};
use std::alloc::{AllocError, Global};

/// The keys, and the unserved rests of batches, that are in memory at the moment `until`.
///
/// # Errors
///
/// `AllocError` if there is no memory for them.
pub(crate) fn held_at(
    alloc: Global,
    until: Until,
    book: &KeptBook,
    moments: &Moments,
) -> Result<HeldMaterial, AllocError>
    ensures { (t : List (List SeenLine)) (callers : List (List Call)) (of : Book) (ms : List (List CallMeaning)) →
        KeepsBook book.now t callers of ms → AreMoments callers of ms moments.now →
        IfOk result (λ held. IsHeld (lists_until until callers of ms) held) }
{
    let lanes = kept_to(alloc, until.stamp(), &book.lanes, moments)?;
    let entries = entries_until(alloc, until, &book.states)?;
    let held = hold_book(alloc, &lanes, &entries)?;
    Ok(held)
}

/// For each of `keys`, the number of the row that describes it. Each held key has a row, since an entry made the key.
/// If a held key had no row, the call would fail rather than leave the key out.
///
/// # Errors
///
/// `AllocError` if there is no memory for them.
pub(crate) fn held_rows(
    alloc: Global,
    index: &RowIndex<'_>,
    keys: &[HeldKey],
) -> Result<Vec<usize>, AllocError>
    ensures { IfOk result (λ numbers. AreRowsOf index.now.rows.now keys.now numbers.items) }
{
    let mut numbers = Vec::with_capacity(alloc, keys.len())?;
    for held in keys {
        let number = index.find(held.key).ok_or(AllocError)?;
        numbers.push(number)?;
    }
    Ok(numbers)
}

fn became_key(fate: Fate) -> bool
    ensures { result ≡ became_key fate }
{
    matches!(fate, Fate::Became(_))
}

// Adds the texts of those `pieces` (spans of a key's keystream) that became keys.
fn put_became(
    text: &mut TextBuffer,
    moments: &Moments,
    pieces: &[KeyPiece],
) -> Result<(), AllocError>
    ensures { OnOk result (text.new.bytes.items ≡ text.old.bytes.items
        ++ flat_map (piece_text moments.now) (filter (λ piece. became_key piece.fate) pieces.now)) }
{
    for piece in pieces {
        if became_key(piece.fate) {
            text.piece(moments, *piece)?;
        }
    }
    Ok(())
}

/// Adds an output line: `word`, and then the row of a key, with only those of its pieces that became keys.
///
/// # Errors
///
/// `AllocError` if there is no memory for the text.
pub(crate) fn put_kept(
    text: &mut TextBuffer,
    word: &str,
    moments: &Moments,
    row: &KeyRow,
) -> Result<(), AllocError>
    ensures { OnOk result (text.new.bytes.items ≡ text.old.bytes.items ++ kept_line word.now moments.now row.now) }
{
    text.word(word)?;
    text.key(moments, row)?;
    put_became(text, moments, &row.pieces)?;
    text.word("\n")
}

// Adds the output line of a held key, which is given by the number of its row.
fn put_held_at(
    text: &mut TextBuffer,
    moments: &Moments,
    rows: &[KeyRow],
    number: usize,
) -> Result<(), AllocError>
    ensures { OnOk result (text.new.bytes.items
        ≡ text.old.bytes.items ++ held_line moments.now (slice_get rows.now number)) }
{
    match rows.get(number) {
        Some(row) => put_kept(text, "held ", moments, row),
        None => Ok(()),
    }
}

/// Adds the output lines of held keys, which are given by the numbers of their rows.
///
/// # Errors
///
/// `AllocError` if there is no memory for the text.
pub(crate) fn put_held(
    text: &mut TextBuffer,
    moments: &Moments,
    rows: &[KeyRow],
    numbers: &[usize],
) -> Result<(), AllocError>
    ensures { OnOk result (text.new.bytes.items
        ≡ text.old.bytes.items ++ held_lines moments.now rows.now numbers.now) }
{
    for number in numbers {
        put_held_at(text, moments, rows, *number)?;
    }
    Ok(())
}

fn put_batch_holder(text: &mut TextBuffer, holder: BatchHolder) -> Result<(), AllocError>
    ensures { OnOk result (text.new.bytes.items ≡ text.old.bytes.items ++ batch_holder_text holder) }
{
    match holder {
        BatchHolder::Cpu { cpu, .. } => text.holder(Holder::Cpu(cpu)),
        BatchHolder::State(of) => text.holder(Holder::State(of)),
    }
}

fn put_rest(text: &mut TextBuffer, rest: &HeldRest) -> Result<(), AllocError>
    ensures { OnOk result (text.new.bytes.items ≡ text.old.bytes.items ++ rest_line rest.now) }
{
    text.word("rest ")?;
    text.name(rest.span.key)?;
    text.word(" ")?;
    put_batch_holder(text, rest.holder)?;
    text.word(" ")?;
    text.span(rest.span)?;
    text.word("\n")
}

/// Adds an output line for each of `rests`, the unserved rests of batches.
///
/// # Errors
///
/// `AllocError` if there is no memory for the text.
pub(crate) fn put_rests(text: &mut TextBuffer, rests: &[HeldRest]) -> Result<(), AllocError>
    ensures { OnOk result (text.new.bytes.items ≡ text.old.bytes.items ++ flat_map rest_line rests.now) }
{
    for rest in rests {
        put_rest(text, rest)?;
    }
    Ok(())
}
