//! The command `line C.E`: the keys and the extractions that the bytes of a line come from.
ghost use Rattle.std.specs.Prelude.{◌≡◌, ◌≤◌, ◌++◌, ◌↔◌, List, IfOk, OnOk, IsTrue, filter, map, reverse, slice_get, take};
ghost use Rattle.std.specs.BTreeSet.{contains};
ghost use Rattle.std.specs.List.{flat_map};
ghost use Rattle.key_names.specs.declared.names.KeyName.{KeyName as BookName};
ghost use Rattle.key_names.specs.contracts.names.KeyNameOrd.TheImpl.{ghosts as names};
ghost use Rattle.key_names.specs.Lanes.Book.{Book};
ghost use Rattle.key_names.specs.Callers.Calls.{Call};
ghost use Rattle.key_names.specs.Callers.Meaning.{CallMeaning};
ghost use Rattle.key_names.specs.Transcripts.SeenLine.{SeenLine};
ghost use Rattle.key_audit.specs.Edges.{IsReached};
ghost use Rattle.key_audit.specs.KeptPool.{is_kept_sample, kept_bits, kept_samples, sample_count};
ghost use Rattle.key_audit.specs.Kept.{KeepsBook};
ghost use Rattle.key_audit.specs.Outcome.{TellsLine};
ghost use Rattle.key_audit.specs.Sources.{TellsSources, edges_back, event_at, extraction_text, hands_sample, is_served_for};
ghost use Rattle.key_audit.specs.Sources.{counts_text, root_text, serves, serving};
ghost use Rattle.key_audit.specs.Texts.{rows_text};

use crate::book::KeptBook;
use crate::edges::{edges_back, edges_of, reached_by};
use crate::keys::rows_of;
use crate::moments::moments_of;
use crate::text::{TextBuffer, moment_at};
use audit_keys::moments::{LineOf, Moment, Moments};
use audit_keys::rows::{Fate, KeyRow};
use audit_keys::used::Origin;
use event_script::Script;
use judge_log::KeptPool;
use key_names::{Event, KeyName, LaneId};
use std::alloc::{AllocError, Global};
use std::collections::BTreeSet;

fn is_served_for(moments: &Moments, line: LineOf, fate: Fate) -> bool
    ensures { result ≡ is_served_for moments.now line fate }
{
    match fate {
        Fate::Served(by) => moment_at(moments, by).line == line,
        _ => false,
    }
}

// Whether bytes of the keystream of the row's key were served for `line`.
fn serves(moments: &Moments, line: LineOf, row: &KeyRow) -> bool
    ensures { result ≡ serves moments.now line row.now }
{
    row.pieces
        .iter()
        .any(|piece| is_served_for(moments, line, piece.fate))
}

fn serving(
    alloc: Global,
    moments: &Moments,
    line: LineOf,
    rows: &[KeyRow],
) -> Result<Vec<KeyName>, AllocError>
    ensures { IfOk result (λ keys. keys.items ≡ serving moments.now line rows.now) }
{
    let mut keys = Vec::new(alloc);
    for row in rows {
        if serves(moments, line, row) {
            keys.push(row.key)?;
        }
    }
    Ok(keys)
}

// The names of all keys that the bytes of `line` come from, directly or through other keys.
fn sources(
    alloc: Global,
    moments: &Moments,
    line: LineOf,
    rows: &[KeyRow],
) -> Result<BTreeSet<KeyName>, AllocError>
    ensures { (key : BookName) → IfOk result (λ keys. IsTrue (contains names.cmp keys key)
        ↔ IsReached (edges_back rows.now) (serving moments.now line rows.now) key) }
{
    let serving = serving(alloc, moments, line, rows)?;
    let edges = edges_of(alloc, rows)?;
    let back = edges_back(alloc, &edges)?;
    reached_by(alloc, &back, &serving)
}

// The rows of the keys in `keys`. The row of the key made last comes first.
fn rows_back<'a>(
    alloc: Global,
    keys: &BTreeSet<KeyName>,
    rows: &'a [KeyRow],
) -> Result<Vec<&'a KeyRow>, AllocError>
    ensures { IfOk result (λ chosen. map (λ row. row.now) chosen.items
        ≡ filter (λ row. contains names.cmp keys.now row.key) (reverse rows.now)) }
{
    rows.iter()
        .rev()
        .filter(|row| keys.contains(&row.key))
        .collect(alloc)
}

// Whether the event of `line` hands a sample to the pool. All events do so except those that ask for bits or credit
// bits.
fn hands_sample(script: &Script, line: LineOf) -> bool
    ensures { result ≡ hands_sample (event_at script.now line.caller line.event) }
{
    if line.caller >= script.callers() {
        return false;
    }
    match script.events(line.caller).get(line.event as usize) {
        Some(Event::Bits | Event::Credit { .. }) | None => false,
        Some(_) => true,
    }
}

// Whether the pool's visit `kept`, which was made at `moment`, was made for a sample (bytes that an event hands over).
fn is_sample(script: &Script, kept: &KeptPool, moment: &Moment) -> bool
    ensures { result ≡ is_kept_sample script.now kept.now moment.now }
{
    kept.root.is_none() && hands_sample(script, moment.line)
}

// The pool's first `count` visits.
fn first_visits(pool: &[KeptPool], count: u64) -> &[KeptPool]
    ensures { result.now ≡ take count pool.now }
{
    pool.get(..count as usize).unwrap_or(pool)
}

// 1 if the pool's visit at `place` was made for a sample, and 0 otherwise.
fn sample_count(script: &Script, kept: &KeptPool, moments: &[Moment], place: usize) -> u64
    ensures count { result ≡ sample_count script.now kept.now (slice_get moments.now place) }
    ensures small { result ≤ 1 }
{
    match moments.get(place) {
        Some(moment) => u64::from(is_sample(script, kept, moment)),
        None => 0,
    }
}

// How many of the pool's visits were made for a sample.
fn samples_in(script: &Script, pool: &[KeptPool], moments: &[Moment]) -> u64
    ensures { result ≡ kept_samples script.now 0 pool.now moments.now }
{
    let mut count: u64 = 0;
    for (place, kept) in pool.iter().enumerate() {
        count += sample_count(script, kept, moments, place);
    }
    count
}

fn bits_at(pool: &[KeptPool], place: u64) -> u32
    ensures { result ≡ kept_bits (slice_get pool.now place) }
{
    match pool.get(place as usize) {
        Some(kept) => kept.before,
        None => 0,
    }
}

fn put_root(text: &mut TextBuffer, moments: &Moments, place: u64) -> Result<(), AllocError>
    ensures { OnOk result (text.new.bytes.items ≡ text.old.bytes.items ++ root_text moments.now place) }
{
    text.word("extraction ")?;
    text.name(KeyName::Root(place))?;
    text.word(" ")?;
    text.entry(moments, Origin::Lane(LaneId::Pool, place))
}

fn put_counts(text: &mut TextBuffer, samples: u64, bits: u32) -> Result<(), AllocError>
    ensures { OnOk result (text.new.bytes.items ≡ text.old.bytes.items ++ counts_text samples bits) }
{
    text.number(" samples ", samples)?;
    text.number(" bits ", u64::from(bits))?;
    text.word("\n")
}

// Adds the output line of the extraction that made a root, if the key is a root.
fn put_extraction(
    text: &mut TextBuffer,
    script: &Script,
    pool: &[KeptPool],
    moments: &Moments,
    key: KeyName,
) -> Result<(), AllocError>
    ensures { OnOk result (text.new.bytes.items ≡ text.old.bytes.items ++ extraction_text moments.now
        (λ place. kept_samples script.now 0 (take place pool.now) moments.now.pool.items)
        (λ place. kept_bits (slice_get pool.now place)) key) }
{
    match key {
        KeyName::Root(place) => {
            let samples = samples_in(script, first_visits(pool, place), &moments.pool);
            put_root(text, moments, place)?;
            put_counts(text, samples, bits_at(pool, place))
        }
        _ => Ok(()),
    }
}

fn put_rows(text: &mut TextBuffer, moments: &Moments, rows: &[&KeyRow]) -> Result<(), AllocError>
    ensures { OnOk result (text.new.bytes.items
        ≡ text.old.bytes.items ++ rows_text moments.now (map (λ row. row.now) rows.now)) }
{
    for row in rows {
        text.row(moments, row)?;
    }
    Ok(())
}

fn put_extractions(
    text: &mut TextBuffer,
    script: &Script,
    pool: &[KeptPool],
    moments: &Moments,
    rows: &[&KeyRow],
) -> Result<(), AllocError>
    ensures { OnOk result (text.new.bytes.items ≡ text.old.bytes.items ++ flat_map (λ row. extraction_text moments.now
        (λ place. kept_samples script.now 0 (take place pool.now) moments.now.pool.items)
        (λ place. kept_bits (slice_get pool.now place)) row.key) (map (λ row. row.now) rows.now)) }
{
    for row in rows {
        put_extraction(text, script, pool, moments, row.key)?;
    }
    Ok(())
}

// The output for `line`. Samples and bits are counted from the kept visits of the pool.
fn origin_text(
    alloc: Global,
    line: LineOf,
    script: &Script,
    pool: &[KeptPool],
    moments: &Moments,
    rows: &[KeyRow],
) -> Result<Vec<u8>, AllocError>
    ensures { IfOk result (λ text. TellsSources moments.now rows.now line
        (λ place. kept_samples script.now 0 (take place pool.now) moments.now.pool.items)
        (λ place. kept_bits (slice_get pool.now place)) text.items) }
{
    let keys = sources(alloc, moments, line, rows)?;
    let chosen = rows_back(alloc, &keys, rows)?;
    let mut text = TextBuffer::new(alloc);
    put_rows(&mut text, moments, &chosen)?;
    put_extractions(&mut text, script, pool, moments, &chosen)?;
    Ok(text.bytes)
}

/// The rows of all keys that the bytes of `line` come from, from the key made last to the key made first. Then the
/// extraction of each root among these keys.
///
/// # Errors
///
/// `AllocError` if there is no memory for them.
pub(crate) fn sources_text(
    alloc: Global,
    line: LineOf,
    script: &Script,
    book: &KeptBook,
) -> Result<Vec<u8>, AllocError>
    ensures { (t : List (List SeenLine)) (callers : List (List Call)) (of : Book) (ms : List (List CallMeaning)) →
        KeepsBook book.now t callers of ms → IfOk result (λ text. TellsLine line script.now callers of ms text.items) }
{
    let moments = moments_of(alloc, book)?;
    let rows = rows_of(alloc, book, &moments)?;
    let text = origin_text(alloc, line, script, &book.lanes.pool, &moments, &rows)?;
    Ok(text)
}
