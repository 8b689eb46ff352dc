//! Events that a word and at most two numbers spell, read in place.
//!
//! Most lines of a long script spell such events. These lines are read in one pass, byte by byte, without a search for
//! the line end or the fields. If the functions here return `None`, the line is read field by field. A line with a
//! fault is always read field by field.

ghost use Rattle.std.specs.Prelude.{◌≡◌, ℕ, ◌∷◌, ◌++◌, IfSome};
ghost use Rattle.std.specs.Bool.{OnTrue};
ghost use Rattle.std.specs.Fmt.{decimal};
ghost use Rattle.key_names.specs.declared.events.Word.TheVariants.{Irq};
ghost use Rattle.key_names.specs.Texts.ScriptGrammar.{InRange, event_fields};
ghost use Rattle.key_names.specs.Texts.Spelling.{spaced, word_text};
ghost use Rattle.event_script.specs.declared.statements.short.NumberFields.TheVariants.{None, One, Two};
ghost use Rattle.event_script.specs.ShortLines.{IsShort, after_word};

use crate::numbers::number_front;
use crate::statements::amounts::{MOST_BITS, MOST_FLAGS, MOST_LEN};
use crate::statements::events::LAST_MOMENT;
use key_names::{Event, Word};

/// The length of the longest word that is read here. One check of this length serves all words: a shorter text is read
/// field by field.
const LONGEST_WORD: usize = 6;

/// The numbers after a word.
#[derive(Clone, Copy)]
pub(crate) enum NumberFields {
    None,
    One(u64),
    Two(u64, u64),
}

/// The word at the start of a text, and the text after the word.
fn word_in_front(text: &[u8]) -> Option<(Word, &[u8])>
    ensures { IfSome result (λ both. text.now ≡ word_text both.0 ++ both.1.now) }
{
    if text.len() < LONGEST_WORD {
        return None;
    }
    Some(match text {
        [b'a', b't', left @ ..] => (Word::At, left),
        [b'i', b'r', b'q', left @ ..] => (Word::Irq, left),
        [b'r', b'e', b'a', b'd', left @ ..] => (Word::Read, left),
        [b'v', b'r', b'e', b'a', b'd', left @ ..] => (Word::Vread, left),
        [b'k', b'r', b'e', b'a', b'd', left @ ..] => (Word::Kread, left),
        [b'u', b'r', b'e', b'a', b'd', left @ ..] => (Word::Uread, left),
        [b'i', b'n', b't', b'8', left @ ..] => (Word::Int8, left),
        [b'i', b'n', b't', b'1', b'6', left @ ..] => (Word::Int16, left),
        [b'i', b'n', b't', b'3', b'2', left @ ..] => (Word::Int32, left),
        [b'i', b'n', b't', b'6', b'4', left @ ..] => (Word::Int64, left),
        [b'd', b'r', b'e', b'a', b'd', left @ ..] => (Word::Dread, left),
        [b'b', b'i', b't', b's', left @ ..] => (Word::Bits, left),
        [b'd', b'r', b'o', b'p', left @ ..] => (Word::Drop, left),
        [b'c', b'r', b'e', b'd', b'i', b't', left @ ..] => (Word::Credit, left),
        [b't', b'i', b'c', b'k', left @ ..] => (Word::Tick, left),
        [b'r', b'e', b's', b'e', b'e', b'd', left @ ..] => (Word::Reseed, left),
        _ => return None,
    })
}

/// Reads the second number of a line, up to the line feed. Returns both numbers, and the text after the line feed.
// This function and the next one are called from two places. Without the hints they would not be inlined.
#[inline(always)]
fn second_in_front(first: u64, text: &[u8]) -> Option<(NumberFields, &[u8])>
    ensures { IfSome result (λ both.
        32 ∷ (decimal first ++ 32 ∷ text.now) ≡ after_word both.0 ++ 10 ∷ both.1.now) }
{
    match number_front(u64::MAX, text) {
        Some((second, [b'\n', rest @ ..])) => Some((NumberFields::Two(first, second), rest)),
        _ => None,
    }
}

/// The one or two numbers at the start of a text, if a line feed follows them, and the text after the line feed.
#[inline(always)]
fn some_in_front(text: &[u8]) -> Option<(NumberFields, &[u8])>
    ensures { IfSome result (λ both. 32 ∷ text.now ≡ after_word both.0 ++ 10 ∷ both.1.now) }
{
    match number_front(u64::MAX, text) {
        Some((first, [b'\n', rest @ ..])) => Some((NumberFields::One(first), rest)),
        Some((first, [b' ', more @ ..])) => second_in_front(first, more),
        _ => None,
    }
}

/// The numbers between a word and the line feed, if nothing else is there, and the text after the line feed.
fn numbers_in_front(text: &[u8]) -> Option<(NumberFields, &[u8])>
    ensures { IfSome result (λ both. text.now ≡ after_word both.0 ++ 10 ∷ both.1.now) }
{
    match text {
        [b'\n', rest @ ..] => Some((NumberFields::None, rest)),
        [b' ', fields @ ..] => some_in_front(fields),
        _ => None,
    }
}

/// If a text's first line is an interrupt, the numbers of the interrupt, and the text after the line.
// The reader looks for an interrupt before other words and makes the event of the interrupt at once, since a running
// machine has many interrupts.
pub(crate) fn irq_in_front(text: &[u8]) -> Option<(u64, u64, &[u8])>
    ensures spelt { IfSome result (λ all. text.now ≡ word_text Irq ++ (after_word (Two all.0 all.1) ++ 10 ∷ all.2.now)) }
    ensures short { IfSome result (λ all. IsShort Irq (Two all.0 all.1)) }
{
    let [b'i', b'r', b'q', b' ', fields @ ..] = text else {
        return None;
    };
    match some_in_front(fields) {
        Some((NumberFields::Two(v1, v2), rest)) => Some((v1, v2, rest)),
        _ => None,
    }
}

/// If the result is true, some event has this word and these numbers.
fn is_short(word: Word, numbers: NumberFields) -> bool
    ensures { OnTrue result (IsShort word numbers) }
{
    match numbers {
        NumberFields::None => matches!(
            word,
            Word::Bits
                | Word::Int8
                | Word::Int16
                | Word::Int32
                | Word::Int64
                | Word::Reseed
                | Word::Tick
                | Word::Drop
        ),
        NumberFields::One(first) => match word {
            Word::At => first <= LAST_MOMENT,
            Word::Credit => first <= MOST_BITS,
            Word::Kread | Word::Uread => first <= MOST_LEN,
            _ => false,
        },
        NumberFields::Two(first, second) => match word {
            Word::Irq => true,
            Word::Read | Word::Vread => first <= MOST_LEN && second <= MOST_FLAGS,
            Word::Dread => first <= MOST_LEN && second <= 1,
            _ => false,
        },
    }
}

/// The word and the numbers of a text's first line, and the text after the line. If the result is not `None`, some
/// event has this word and these numbers.
pub(crate) fn short_line(text: &[u8]) -> Option<(Word, NumberFields, &[u8])>
    ensures spelt { IfSome result (λ all. text.now ≡ word_text all.0 ++ (after_word all.1 ++ 10 ∷ all.2.now)) }
    ensures short { IfSome result (λ all. IsShort all.0 all.1) }
{
    let (word, left) = word_in_front(text)?;
    let (numbers, rest) = numbers_in_front(left)?;
    if is_short(word, numbers) {
        Some((word, numbers, rest))
    } else {
        None
    }
}

fn with_none(word: Word) -> Event
    requires { IsShort word None }
    ensures spelt { spaced (event_fields result) ≡ word_text word ++ after_word None }
    ensures range { (version cpus : ℕ) → InRange version cpus result }
{
    match word {
        Word::Bits => Event::Bits,
        Word::Int8 => Event::Int8,
        Word::Int16 => Event::Int16,
        Word::Int32 => Event::Int32,
        Word::Int64 => Event::Int64,
        Word::Reseed => Event::Reseed,
        Word::Tick => Event::Tick,
        Word::Drop => Event::Drop,
        _ => unreachable!(),
    }
}

fn with_one(word: Word, first: u64) -> Event
    requires { IsShort word (One first) }
    ensures spelt { spaced (event_fields result) ≡ word_text word ++ after_word (One first) }
    ensures range { (version cpus : ℕ) → InRange version cpus result }
{
    match word {
        Word::At => Event::At { moment: first },
        Word::Credit => Event::Credit { bits: first as u32 },
        Word::Kread => Event::Kread { len: first as u32 },
        Word::Uread => Event::Uread { len: first as u32 },
        _ => unreachable!(),
    }
}

fn with_two(word: Word, first: u64, second: u64) -> Event
    requires { IsShort word (Two first second) }
    ensures spelt { spaced (event_fields result) ≡ word_text word ++ after_word (Two first second) }
    ensures range { (version cpus : ℕ) → InRange version cpus result }
{
    match word {
        Word::Irq => Event::Irq {
            v1: first,
            v2: second,
        },
        Word::Read => Event::Read {
            len: first as u32,
            flags: second as u32,
        },
        Word::Vread => Event::Vread {
            len: first as u32,
            flags: second as u32,
        },
        Word::Dread => Event::Dread {
            len: first as u32,
            flag: second as u32,
        },
        _ => unreachable!(),
    }
}

/// The event of a word and its numbers.
pub(crate) fn short_event(word: Word, numbers: NumberFields) -> Event
    requires { IsShort word numbers }
    ensures spelt { spaced (event_fields result) ≡ word_text word ++ after_word numbers }
    ensures range { (version cpus : ℕ) → InRange version cpus result }
{
    match numbers {
        NumberFields::None => with_none(word),
        NumberFields::One(first) => with_one(word, first),
        NumberFields::Two(first, second) => with_two(word, first, second),
    }
}
