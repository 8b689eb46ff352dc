//! Edges between keys: if bytes of a key's keystream became another key, an edge leads from the first key to the
//! second. Following edges finds all keys that can be reached from given keys.
ghost use Rattle.std.specs.Prelude.{◌≡◌, ◌++◌, ◌↔◌, IfOk, OnOk, IsTrue, Contains, map, reverse};
ghost use Rattle.std.specs.BTreeSet.{contains};
ghost use Rattle.key_names.specs.declared.names.KeyName.{KeyName as BookName};
ghost use Rattle.key_names.specs.contracts.names.KeyNameOrd.TheImpl.{ghosts as names};
ghost use Rattle.key_audit.specs.Edges.{Follows, HasPassed, IsReached, edges_of, row_edges, turned};

use audit_keys::rows::{Fate, KeyRow};
use key_names::KeyName;
use std::alloc::{AllocError, Global};
use std::collections::BTreeSet;

/// Bytes of the keystream of the key `from` became the key `to`.
#[derive(Clone, Copy)]
pub(crate) struct Edge {
    pub(crate) from: KeyName,
    pub(crate) to: KeyName,
}

// Adds the edges that begin at the key of `row`: one for each key that bytes of its keystream became.
fn push_edges(edges: &mut Vec<Edge>, row: &KeyRow) -> Result<(), AllocError>
    ensures { OnOk result (edges.new.items ≡ edges.old.items ++ row_edges row.now) }
{
    for piece in &row.pieces {
        if let Fate::Became(to) = piece.fate {
            edges.push(Edge { from: row.key, to })?;
        }
    }
    Ok(())
}

/// The edges of all rows, in the order of the rows.
///
/// # Errors
///
/// `AllocError` if there is no memory for them.
pub(crate) fn edges_of(alloc: Global, rows: &[KeyRow]) -> Result<Vec<Edge>, AllocError>
    ensures { IfOk result (λ edges. edges.items ≡ edges_of rows.now) }
{
    let mut edges = Vec::new(alloc);
    for row in rows {
        push_edges(&mut edges, row)?;
    }
    Ok(edges)
}

fn turned(edge: Edge) -> Edge
    ensures { result ≡ turned edge }
{
    Edge {
        from: edge.to,
        to: edge.from,
    }
}

/// The edges turned round, the last edge first. If bytes of one key's keystream became another key, a turned edge leads
/// from the second key to the first.
///
/// # Errors
///
/// `AllocError` if there is no memory for them.
pub(crate) fn edges_back(alloc: Global, edges: &[Edge]) -> Result<Vec<Edge>, AllocError>
    ensures { IfOk result (λ back. back.items ≡ map turned (reverse edges.now)) }
{
    edges.iter().rev().map(|edge| turned(*edge)).collect(alloc)
}

/// The keys `keys`, as a set.
///
/// # Errors
///
/// `AllocError` if there is no memory for it.
pub(crate) fn set_of(alloc: Global, keys: &[KeyName]) -> Result<BTreeSet<KeyName>, AllocError>
    ensures { (key : BookName) → IfOk result (λ set. IsTrue (contains names.cmp set key) ↔ Contains keys.now key) }
{
    let mut set = BTreeSet::new(alloc);
    for key in keys {
        set.insert(*key)?;
    }
    Ok(set)
}

// If `edge` begins at a known key, adds the key to which it leads. Returns whether that key was not known before.
fn follow(known: &mut BTreeSet<KeyName>, edge: Edge) -> Result<bool, AllocError>
    ensures { IfOk result (λ more. Follows edge known.old known.new more) }
{
    if known.contains(&edge.from) {
        return Ok(known.insert(edge.to)?);
    }
    Ok(false)
}

// Follows each edge that begins at a known key. Returns whether a key was found that was not known before.
fn pass(known: &mut BTreeSet<KeyName>, edges: &[Edge]) -> Result<bool, AllocError>
    ensures { IfOk result (λ more. HasPassed edges.now known.old known.new more) }
{
    let mut more = false;
    for edge in edges {
        if follow(known, *edge)? {
            more = true;
        }
    }
    Ok(more)
}

/// The keys in `start`, and all keys to which edges lead from them, directly or through other keys.
///
/// # Errors
///
/// `AllocError` if there is no memory for them.
pub(crate) fn reached_by(
    alloc: Global,
    edges: &[Edge],
    start: &[KeyName],
) -> Result<BTreeSet<KeyName>, AllocError>
    ensures { (key : BookName) →
        IfOk result (λ known. IsTrue (contains names.cmp known key) ↔ IsReached edges.now start.now key) }
{
    let mut known = set_of(alloc, start)?;
    let mut more = true;
    while more {
        more = pass(&mut known, edges)?;
    }
    Ok(known)
}
