//! Cutting a text at the first byte of a given value, and reading numbers.
ghost use Rattle.std.specs.Prelude.{◌≡◌, ◌<◌, ◌^◌, ◌∷◌, ◌++◌, ◌↔◌, true, IsTrue, MatchOption, codes, decimal};
ghost use Rattle.transcript_text.specs.Reading.{lacks, Reads};

use event_script::numbers::number_up_to;
use memchr::memchr;

/// `cut_near` compares this many bytes one by one.
const NEAR: usize = 8;

/// Numbers of callers, events and CPUs, and counts of bits, are at most this.
pub(crate) const MOST_U32: u64 = u32::MAX as u64;

/// Whether a text equals `name`. Most texts differ from `name` in length, which is compared without a call.
#[inline(always)]
pub(crate) fn spells(text: &[u8], name: &[u8]) -> bool
    ensures { IsTrue result ↔ (text.now ≡ name.now) }
{
    text.len() == name.len() && text == name
}

/// Whether a text is the dash of an empty field.
pub(crate) fn is_dash(text: &[u8]) -> bool
    ensures { IsTrue result ↔ (text.now ≡ codes "-") }
{
    matches!(text, [b'-'])
}

/// The text before the first `byte`, and the text after it.
pub(crate) fn cut(byte: u8, text: &[u8]) -> Option<(&[u8], &[u8])>
    ensures { MatchOption result (lacks byte text.now ≡ true)
        (λ both. (text.now ≡ both.0.now ++ byte ∷ both.1.now) × (lacks byte both.0.now ≡ true)) }
{
    match memchr(byte, text) {
        Some(place) => Some((&text[..place], &text[place + 1..])),
        None => None,
    }
}

/// Does what `cut` does, but compares the first bytes one by one: this is faster than a search if the front is short.
pub(crate) fn cut_near(byte: u8, text: &[u8]) -> Option<(&[u8], &[u8])>
    ensures { MatchOption result (lacks byte text.now ≡ true)
        (λ both. (text.now ≡ both.0.now ++ byte ∷ both.1.now) × (lacks byte both.0.now ≡ true)) }
{
    for place in 0..text.len().min(NEAR) {
        if text[place] == byte {
            return Some((&text[..place], &text[place + 1..]));
        }
    }
    cut(byte, text)
}

/// The number of 32 bits that a text spells in decimal, without leading zeros.
pub(crate) fn number_u32(text: &[u8]) -> Option<u32>
    ensures { Reads decimal (λ n. n < 2 ^ 32) text.now result }
{
    let number = number_up_to(MOST_U32, text)?;
    Some(number as u32)
}
