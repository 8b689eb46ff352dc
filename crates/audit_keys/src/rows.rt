//! A row for each key: the key's holder, the entries that made and erased the key, and the fates of its bytes.
ghost use Rattle.std.specs.Prelude.{◌≡◌, ◌++◌, IfOk, OnOk, All, map, option_map, slice_get, IsPermutation};
ghost use Rattle.std.specs.List.Sorted.{IsNonDecreasingBy};
ghost use Rattle.key_names.specs.declared.names.KeyName.{KeyName as BookName};
ghost use Rattle.audit_keys.specs.Rows.{used_piece, given_up_piece, held_piece, all_pieces};
ghost use Rattle.audit_keys.specs.Rows.{pieces_of, endings_of, birth_of, IsRow};
ghost use Rattle.audit_keys.specs.Ranks.{PiecesByKey, EndingsByKey};
ghost use Rattle.audit_keys.specs.MadeOrder.{made_rank, RowsByMaking};

use crate::held::{HeldMaterial, HeldRest};
use crate::listed::ListedKeys;
use crate::lives::{Birth, Ending, GivenUp, Holder, Lives};
use crate::moments::Moments;
use crate::used::{Origin, Purpose, Used};
use key_names::{KeyName, Span};
use std::alloc::{AllocError, Global};

/// The fate of bytes of a key.
#[derive(Clone, Copy, Debug, PartialEq, Eq)]
pub enum Fate {
    /// The bytes became this key.
    Became(KeyName),
    /// This entry served the bytes.
    Served(Origin),
    /// The bytes were in the rest of a batch, and this entry gave up that rest.
    GivenUp(Origin),
    /// The bytes are in a batch, and were not served.
    Held,
}

/// Bytes of a key, and their fate.
#[derive(Clone, Copy, Debug, PartialEq, Eq)]
pub struct KeyPiece {
    pub span: Span,
    pub fate: Fate,
}

/// A key, the entries that made and ended the key, and the fates of its bytes.
#[derive(Debug, Drop)]
pub struct KeyRow {
    pub key: KeyName,
    pub holder: Holder,
    /// The entry that made the key.
    pub made: Origin,
    /// The entry that erased or replaced the key, if there is one.
    pub ended: Option<Origin>,
    /// Pieces of the key's keystream with their fates, in the order of their first bytes.
    pub pieces: Vec<KeyPiece>,
}

fn used_piece(used: Used) -> KeyPiece
    ensures { result ≡ used_piece used }
{
    let fate = match used.purpose {
        Purpose::Kept(name) => Fate::Became(name),
        Purpose::Served => Fate::Served(used.by),
    };
    KeyPiece {
        span: used.span,
        fate,
    }
}

fn push_used(pieces: &mut Vec<KeyPiece>, uses: &[Used]) -> Result<(), AllocError>
    ensures { OnOk result (pieces.new.items ≡ pieces.old.items ++ map used_piece uses.now) }
{
    for used in uses {
        pieces.push(used_piece(*used))?;
    }
    Ok(())
}

fn push_given_up(pieces: &mut Vec<KeyPiece>, rests: &[GivenUp]) -> Result<(), AllocError>
    ensures { OnOk result (pieces.new.items ≡ pieces.old.items ++ map given_up_piece rests.now) }
{
    for rest in rests {
        pieces.push(KeyPiece {
            span: rest.span,
            fate: Fate::GivenUp(rest.by),
        })?;
    }
    Ok(())
}

fn push_held(pieces: &mut Vec<KeyPiece>, rests: &[HeldRest]) -> Result<(), AllocError>
    ensures { OnOk result (pieces.new.items ≡ pieces.old.items ++ map held_piece rests.now) }
{
    for rest in rests {
        pieces.push(KeyPiece {
            span: rest.span,
            fate: Fate::Held,
        })?;
    }
    Ok(())
}

// The uses and the rests of all keys, as pieces of keystreams. The uses themselves are freed, since they take as much
// memory as the pieces.
fn all_pieces(
    alloc: Global,
    uses: Vec<Used>,
    lives: &Lives,
    held: &HeldMaterial,
) -> Result<Vec<KeyPiece>, AllocError>
    ensures { IfOk result (λ pieces. pieces.items
        ≡ all_pieces (record { lives = lives.now; held = held.now; uses = uses })) }
{
    let mut pieces = Vec::new(alloc);
    push_used(&mut pieces, &uses)?;
    push_given_up(&mut pieces, &lives.given_up)?;
    push_held(&mut pieces, &held.rests)?;
    Ok(pieces)
}

// The pieces of a key. `all` has the pieces of all keys, sorted by the keys' names.
fn pieces_of(all: &[KeyPiece], key: KeyName) -> &[KeyPiece]
    requires { PiecesByKey all.now }
    ensures { result.now ≡ pieces_of key all.now }
{
    let first = all.partition_point(|piece| piece.span.key < key);
    let following = &all[first..];
    let count = following.partition_point(|piece| piece.span.key <= key);
    &following[..count]
}

// The endings of a key. `all` has the endings of all keys, sorted by the keys' names.
fn endings_of(all: &[Ending], key: KeyName) -> &[Ending]
    requires { EndingsByKey all.now }
    ensures { result.now ≡ endings_of key all.now }
{
    let first = all.partition_point(|ending| ending.key < key);
    let following = &all[first..];
    let count = following.partition_point(|ending| ending.key <= key);
    &following[..count]
}

// The pieces of a key, in the order of their first bytes.
fn row_pieces(alloc: Global, all: &[KeyPiece], key: KeyName) -> Result<Vec<KeyPiece>, AllocError>
    requires { PiecesByKey all.now }
    ensures all { IfOk result (λ pieces. IsPermutation (pieces_of key all.now) pieces.items) }
    ensures ordered { IfOk result (λ pieces. IsNonDecreasingBy (λ piece. piece.span.from) pieces.items) }
{
    let mut pieces = Vec::from_slice(alloc, pieces_of(all, key))?;
    pieces.sort_by_key(|piece| piece.span.from)?;
    Ok(pieces)
}

// The entry that ended a key, if one did.
fn ended_by(all: &[Ending], key: KeyName) -> Option<Origin>
    requires { EndingsByKey all.now }
    ensures { result ≡ option_map (λ ending. ending.by) (slice_get (endings_of key all.now) 0) }
{
    endings_of(all, key).first().map(|ending| ending.by)
}

// The row of the key whose birth is `birth`.
fn row_of(
    alloc: Global,
    birth: &Birth,
    pieces: &[KeyPiece],
    endings: &[Ending],
) -> Result<KeyRow, AllocError>
    requires pieces { PiecesByKey pieces.now }
    requires endings { EndingsByKey endings.now }
    ensures birth { IfOk result (λ row. birth_of row ≡ birth.now) }
    ensures row { IfOk result (λ row. IsRow pieces.now endings.now row) }
{
    Ok(KeyRow {
        key: birth.key,
        holder: birth.holder,
        made: birth.by,
        ended: ended_by(endings, birth.key),
        pieces: row_pieces(alloc, pieces, birth.key)?,
    })
}

// The uses and the rests of all keys, as pieces in the order of the keys' names.
fn sorted_pieces(
    alloc: Global,
    uses: Vec<Used>,
    lives: &Lives,
    held: &HeldMaterial,
) -> Result<Vec<KeyPiece>, AllocError>
    ensures sorted { IfOk result (λ pieces. PiecesByKey pieces.items) }
    ensures same { (key : BookName) → IfOk result (λ pieces. pieces_of key pieces.items
        ≡ pieces_of key (all_pieces (record { lives = lives.now; held = held.now; uses = uses }))) }
{
    let mut pieces = all_pieces(alloc, uses, lives, held)?;
    pieces.sort_by_key(|piece| piece.span.key)?;
    Ok(pieces)
}

// Endings in the order of the keys' names.
fn sorted_endings(alloc: Global, all: &[Ending]) -> Result<Vec<Ending>, AllocError>
    ensures sorted { IfOk result (λ endings. EndingsByKey endings.items) }
    ensures same { (key : BookName) → IfOk result (λ endings. endings_of key endings.items ≡ endings_of key all.now) }
{
    let mut endings = Vec::from_slice(alloc, all)?;
    endings.sort_by_key(|ending| ending.key)?;
    Ok(endings)
}

// A row for each birth of a key.
fn rows_of(
    alloc: Global,
    births: &[Birth],
    pieces: &[KeyPiece],
    endings: &[Ending],
) -> Result<Vec<KeyRow>, AllocError>
    requires pieces { PiecesByKey pieces.now }
    requires endings { EndingsByKey endings.now }
    ensures births { IfOk result (λ rows. map birth_of rows.items ≡ births.now) }
    ensures rows { IfOk result (λ rows. All (IsRow pieces.now endings.now) rows.items) }
{
    let mut rows = Vec::new(alloc);
    for birth in births {
        rows.push(row_of(alloc, birth, pieces, endings)?)?;
    }
    Ok(rows)
}

/// The row of each key that is made, in the order of the births.
///
/// # Errors
///
/// `AllocError` if there is no memory for them.
pub fn make_rows(alloc: Global, listed: ListedKeys) -> Result<Vec<KeyRow>, AllocError>
    ensures births { IfOk result (λ rows. map birth_of rows.items ≡ listed.lives.births.items) }
    ensures rows { IfOk result (λ rows. All (IsRow (all_pieces listed) listed.lives.endings.items) rows.items) }
{
    let pieces = sorted_pieces(alloc, listed.uses, &listed.lives, &listed.held)?;
    let endings = sorted_endings(alloc, &listed.lives.endings)?;
    let rows = rows_of(alloc, &listed.lives.births, &pieces, &endings)?;
    Ok(rows)
}

/// The rank of a row in the order in which keys were made. If one visit made two keys, the key that the erasure kept
/// comes first.
#[derive(Clone, Copy, PartialEq, Eq, PartialOrd, Ord)]
struct MadeRank {
    /// The stamp of the entry that made the key, or 0 if the entry has no moment.
    stamp: u64,
    made: Origin,
    is_call_key: bool,
}

fn made_rank(moments: &Moments, row: &KeyRow) -> MadeRank
    ensures { result ≡ made_rank moments.now row.now }
{
    MadeRank {
        stamp: moments.at(row.made).map_or(0, |moment| moment.stamp),
        made: row.made,
        is_call_key: matches!(row.key, KeyName::Call(..)),
    }
}

/// Puts rows in the order in which their keys were made.
///
/// # Errors
///
/// `AllocError` if there is no memory to sort them.
pub fn sort_rows(rows: &mut Vec<KeyRow>, moments: &Moments) -> Result<(), AllocError>
    ensures same { IsPermutation rows.old.items rows.new.items }
    ensures ordered { OnOk result (RowsByMaking moments.now rows.new.items) }
{
    rows.sort_by_key(|row| made_rank(moments, row))?;
    Ok(())
}
