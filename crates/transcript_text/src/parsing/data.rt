//! Reading the data of a line.
ghost use Rattle.std.specs.Prelude.{◌≡◌, ◌<◌, ◌^◌, ◌↔◌, length, take, IsTrue, IfOk, IfSome, MatchBool};
ghost use Rattle.std.specs.Option.{option_map};
ghost use Rattle.key_names.specs.Transcripts.SeenLine.{shown_in};
ghost use Rattle.key_names.specs.declared.events.Word.TheVariants.{Bits};
ghost use Rattle.key_names.specs.Texts.ScriptFaults.{bytes_of as bytes_spelt};
ghost use Rattle.key_names.specs.Texts.TranscriptGrammar.{shown_text, ShownFits};
ghost use Rattle.transcript_text.specs.Gathered.{IsWithin};
ghost use Rattle.transcript_text.specs.Reading.{Reads};
ghost use Rattle.transcript_text.specs.Shows.{AppendsSpelt, KeepsSpelt, SpellsData, SpellsNoData};

use crate::parsing::lexing::{is_dash, number_u32};
use key_names::hexes::{bytes_of, decode, spells_bytes};
use key_names::{Data, Word};
use std::alloc::{AllocError, Global};

/// `append_bytes` decodes this many bytes at a time.
const PIECE_BYTES: usize = 2048;

fn is_bits(word: Word) -> bool
    ensures { IsTrue result ↔ (word ≡ Bits) }
{
    matches!(word, Word::Bits)
}

/// Appends the bytes that `text` spells in hex digits. A long text is decoded in pieces, so that it needs no second
/// buffer of its length. Returns false if `text` spells no bytes; even then some bytes may have been appended.
fn append_bytes(alloc: Global, kept: &mut Vec<u8>, text: &[u8]) -> Result<bool, AllocError>
    ensures spelt { IfOk result (λ spells. MatchBool spells (AppendsSpelt text.now kept.old.items kept.new.items)
        (bytes_spelt text.now ≡ None)) }
    ensures before { take (length kept.old.items) kept.new.items ≡ kept.old.items }
{
    if text.len() <= 2 * PIECE_BYTES || text.len() % 2 != 0 {
        let Some(bytes) = bytes_of(alloc, text)? else {
            return Ok(false);
        };
        kept.extend_from_slice(&bytes)?;
        return Ok(true);
    }
    kept.reserve(text.len() / 2)?;
    let mut piece = [0; PIECE_BYTES];
    let mut rest = text;
    while !rest.is_empty() {
        let (front, following) = rest.split_at(rest.len().min(2 * PIECE_BYTES));
        let bytes = &mut piece[..front.len() / 2];
        if !decode(front, bytes) {
            return Ok(false);
        }
        kept.extend_from_slice(bytes)?;
        rest = following;
    }
    Ok(true)
}

/// Appends the bytes that `text` spells in hex digits, and returns the data of a line with these bytes. `None` if
/// `text` spells no bytes.
fn keep_bytes(alloc: Global, kept: &mut Vec<u8>, text: &[u8]) -> Result<Option<Data>, AllocError>
    requires { length text.now < 2 ^ 32 }
    ensures data { IfOk result (KeepsSpelt text.now kept.old.items kept.new.items) }
    ensures before { take (length kept.old.items) kept.new.items ≡ kept.old.items }
{
    let start = kept.len();
    if !append_bytes(alloc, kept, text)? {
        return Ok(None);
    }
    let len = kept.len() - start;
    if len == 0 {
        return Ok(Some(Data::None));
    }
    Ok(Some(Data::Bytes {
        len: len as u32,
        start: start as u64,
    }))
}

/// The data that `text` spells as the last field of a line with this word. If the data are bytes, they are appended to
/// `kept`.
pub(crate) fn keep_data(
    alloc: Global,
    kept: &mut Vec<u8>,
    word: Word,
    text: &[u8],
) -> Result<Option<Data>, AllocError>
    requires { length text.now < 2 ^ 32 }
    ensures data { IfOk result (λ named. Reads shown_text (ShownFits word) text.now
        (option_map (shown_in kept.new.items) named)) }
    ensures within { IfOk result (λ named. IfSome named (IsWithin (length kept.new.items))) }
    ensures before { take (length kept.old.items) kept.new.items ≡ kept.old.items }
{
    if is_dash(text) {
        return Ok(Some(Data::None));
    }
    if !is_bits(word) {
        return keep_bytes(alloc, kept, text);
    }
    match number_u32(text) {
        Some(number) => Ok(Some(Data::Count(number))),
        None => Ok(None),
    }
}

/// Whether `text` spells data, as the last field of a line with this word.
pub(crate) fn spells_data(word: Word, text: &[u8]) -> bool
    ensures { MatchBool result (SpellsData word text.now) (SpellsNoData word text.now) }
{
    if is_dash(text) {
        return true;
    }
    if !is_bits(word) {
        return spells_bytes(text);
    }
    number_u32(text).is_some()
}
