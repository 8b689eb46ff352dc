//! The keys and bytes that can be computed from what is in memory (keys, and unserved rests of batches): keys that are
//! made later, and bytes of later lines.
ghost use Rattle.std.specs.Prelude.{◌≡◌, ◌++◌, IfOk, OnOk, IsPermutation, IsSortedByKey, map};
ghost use Rattle.std.specs.BTreeSet.{contains};
ghost use Rattle.std.specs.List.Sorted.{IsStableByKey};
ghost use Rattle.key_names.specs.contracts.names.KeyNameOrd.TheImpl.{ghosts as names};
ghost use Rattle.audit_keys.specs.contracts.moments.LineOfOrd.TheImpl.{ghosts as lines};
ghost use Rattle.key_audit.specs.Reach.{TellsReached, copied_bytes, copied_lines, copied_piece, copied_row, copied_text};
ghost use Rattle.key_audit.specs.Reach.{has_piece, is_in_rest, is_line, line_begin, line_end, next_lines, rest_keys};
ghost use Rattle.key_audit.specs.Reach.{row_rest_keys};

use crate::edges::{edges_of, reached_by, set_of};
use crate::held::put_kept;
use crate::text::{TextBuffer, moment_at};
use audit_keys::held::{HeldKey, HeldRest};
use audit_keys::moments::{LineOf, Moments};
use audit_keys::rows::{Fate, KeyPiece, KeyRow};
use key_names::{KeyName, Span};
use std::alloc::{AllocError, Global};
use std::collections::BTreeSet;

/// Bytes of a key's keystream that were served, and the line that they were served for.
#[derive(Clone, Copy)]
struct Copied {
    line: LineOf,
    span: Span,
}

// Whether the first byte of `piece` is among the bytes of `rest`, the unserved rest of a batch.
fn has_piece(rest: &HeldRest, piece: &KeyPiece) -> bool
    ensures { result ≡ has_piece rest.now piece.now }
{
    rest.span.key == piece.span.key
        && rest.span.from <= piece.span.from
        && piece.span.from - rest.span.from < rest.span.len
}

fn is_in_rest(rests: &[HeldRest], piece: &KeyPiece) -> bool
    ensures { result ≡ is_in_rest rests.now piece.now }
{
    rests.iter().any(|rest| has_piece(rest, piece))
}

// Adds each key that a piece of the row became, if the first byte of this piece is in one of `rests`.
fn push_rest_keys(
    keys: &mut Vec<KeyName>,
    rests: &[HeldRest],
    row: &KeyRow,
) -> Result<(), AllocError>
    ensures { OnOk result (keys.new.items ≡ keys.old.items ++ row_rest_keys rests.now row.now) }
{
    for piece in &row.pieces {
        if let Fate::Became(key) = piece.fate {
            if is_in_rest(rests, piece) {
                keys.push(key)?;
            }
        }
    }
    Ok(())
}

// The keys in `keys`, and the keys that bytes of `rests` became.
fn with_rest_keys(
    alloc: Global,
    keys: &[KeyName],
    rests: &[HeldRest],
    rows: &[KeyRow],
) -> Result<Vec<KeyName>, AllocError>
    ensures { IfOk result (λ all. all.items ≡ keys.now ++ rest_keys rests.now rows.now) }
{
    let mut all = Vec::from_slice(alloc, keys)?;
    for row in rows {
        push_rest_keys(&mut all, rests, row)?;
    }
    Ok(all)
}

// If the bytes of a piece were served, and their key is known or their first byte is in one of the rests, adds them to
// `all`.
fn push_piece(
    all: &mut Vec<Copied>,
    moments: &Moments,
    is_known: bool,
    rests: &[HeldRest],
    piece: &KeyPiece,
) -> Result<(), AllocError>
    ensures { OnOk result (all.new.items
        ≡ all.old.items ++ copied_piece moments.now is_known rests.now piece.now) }
{
    if is_known || is_in_rest(rests, piece) {
        if let Fate::Served(by) = piece.fate {
            all.push(Copied {
                line: moment_at(moments, by).line,
                span: piece.span,
            })?;
        }
    }
    Ok(())
}

fn push_row(
    all: &mut Vec<Copied>,
    moments: &Moments,
    known: &BTreeSet<KeyName>,
    rests: &[HeldRest],
    row: &KeyRow,
) -> Result<(), AllocError>
    ensures { OnOk result (all.new.items
        ≡ all.old.items ++ copied_row moments.now (contains names.cmp known.now) rests.now row.now) }
{
    let is_known = known.contains(&row.key);
    for piece in &row.pieces {
        push_piece(all, moments, is_known, rests, piece)?;
    }
    Ok(())
}

// All served bytes that can be computed, in the order of the rows.
fn copied_bytes(
    alloc: Global,
    moments: &Moments,
    known: &BTreeSet<KeyName>,
    rests: &[HeldRest],
    rows: &[KeyRow],
) -> Result<Vec<Copied>, AllocError>
    ensures { IfOk result (λ all. all.items
        ≡ copied_bytes moments.now (contains names.cmp known.now) rests.now rows.now) }
{
    let mut all = Vec::new(alloc);
    for row in rows {
        push_row(&mut all, moments, known, rests, row)?;
    }
    Ok(all)
}

// Sorts served bytes by line. The bytes of a line keep their order.
fn sort_by_line(all: &mut Vec<Copied>) -> Result<(), AllocError>
    ensures each { IsPermutation all.old.items all.new.items }
    ensures ordered { OnOk result (IsSortedByKey (λ one. one.line) lines.cmp all.new.items) }
    ensures stable { OnOk result (IsStableByKey (λ one. one.line) lines.cmp all.old.items all.new.items) }
{
    all.sort_by_key(|one| one.line)?;
    Ok(())
}

fn end_line(text: &mut TextBuffer, last: Option<LineOf>) -> Result<(), AllocError>
    ensures { OnOk result (text.new.bytes.items ≡ text.old.bytes.items ++ line_end last) }
{
    match last {
        Some(_) => text.word("\n"),
        None => Ok(()),
    }
}

fn is_line(last: Option<LineOf>, line: LineOf) -> bool
    ensures { result ≡ is_line last line }
{
    match last {
        Some(last) => last == line,
        None => false,
    }
}

// Begins the output line for `line`, unless `last`, the line of the bytes before, is the same line.
fn begin_line(text: &mut TextBuffer, last: Option<LineOf>, line: LineOf) -> Result<(), AllocError>
    ensures { OnOk result (text.new.bytes.items ≡ text.old.bytes.items ++ line_begin last line) }
{
    if is_line(last, line) {
        return Ok(());
    }
    end_line(text, last)?;
    text.word("line ")?;
    text.line(line)
}

fn put_copied(text: &mut TextBuffer, one: Copied) -> Result<(), AllocError>
    ensures { OnOk result (text.new.bytes.items ≡ text.old.bytes.items ++ copied_text one) }
{
    text.word(" ")?;
    text.span(one.span)?;
    text.word("<")?;
    text.name(one.span.key)
}

fn put_lines(text: &mut TextBuffer, all: &[Copied]) -> Result<(), AllocError>
    ensures { OnOk result (text.new.bytes.items ≡ text.old.bytes.items ++ copied_lines all.now) }
{
    let mut last = None;
    for one in all {
        begin_line(text, last, one.line)?;
        put_copied(text, *one)?;
        last = Some(one.line);
    }
    end_line(text, last)
}

// Adds an output line for each key that can be computed and is not held.
fn put_next(
    text: &mut TextBuffer,
    moments: &Moments,
    held: &BTreeSet<KeyName>,
    known: &BTreeSet<KeyName>,
    rows: &[KeyRow],
) -> Result<(), AllocError>
    ensures { OnOk result (text.new.bytes.items ≡ text.old.bytes.items
        ++ next_lines moments.now (contains names.cmp held.now) (contains names.cmp known.now) rows.now) }
{
    for row in rows {
        if known.contains(&row.key) && !held.contains(&row.key) {
            put_kept(text, "next ", moments, row)?;
        }
    }
    Ok(())
}

fn names_of(alloc: Global, keys: &[HeldKey]) -> Result<Vec<KeyName>, AllocError>
    ensures { IfOk result (λ names. names.items ≡ map (λ held. held.key) keys.now) }
{
    keys.iter().map(|held| held.key).collect(alloc)
}

/// The output lines of all keys and bytes that can be computed from the held keys `keys` and from `rests`, the unserved
/// rests of batches.
///
/// # Errors
///
/// `AllocError` if there is no memory for them.
pub(crate) fn reached_text(
    alloc: Global,
    moments: &Moments,
    rows: &[KeyRow],
    keys: &[HeldKey],
    rests: &[HeldRest],
) -> Result<Vec<u8>, AllocError>
    ensures { IfOk result (λ text.
        TellsReached moments.now rows.now (map (λ held. held.key) keys.now) rests.now text.items) }
{
    let names = names_of(alloc, keys)?;
    let edges = edges_of(alloc, rows)?;
    let held = set_of(alloc, &names)?;
    let start = with_rest_keys(alloc, &names, rests, rows)?;
    let known = reached_by(alloc, &edges, &start)?;
    let mut copied = copied_bytes(alloc, moments, &known, rests, rows)?;
    sort_by_line(&mut copied)?;
    let mut text = TextBuffer::new(alloc);
    put_next(&mut text, moments, &held, &known, rows)?;
    put_lines(&mut text, &copied)?;
    Ok(text.bytes)
}
