//! Numbers below a bound. If all words are equally likely, so are all numbers below the bound.
ghost use Rattle.std.specs.Prelude.{◌≡◌, ◌<◌, ◌≤◌, ◌+◌, ◌-◌, ◌%◌, ◌^◌, nat_le, IfOk};
ghost use Rattle.draw_below.specs.Draws.{IsDraw, IsDrawFrom};

use crate::rejected::{MOST_REJECTED, Rejected};
use crate::words::Words;
use std::sync::Wait;

/// How many different 32-bit words there are.
const WORDS: u64 = 1 << 32;

/// A draw rejected its first 128 words.
#[derive(Clone, Copy, Debug, PartialEq, Eq)]
pub struct DrawSpent;

// Whether a word is accepted; `low` is the low half of the word's product with `c`. The check divides only if `low` is
// below `c`.
fn is_accepted(c: u32, low: u32) -> bool
    requires { 0 < c }
    ensures { result ≡ nat_le (2 ^ 32 % c) low }
{
    low >= c || low >= c.wrapping_neg() % c
}

/// A number below `c`, made as in `__get_random_u32_below` of the kernel's drivers/char/random.c. If all words are
/// equally likely, so are all numbers below `c`. For `c` 0 the result is the next word itself.
///
/// The product of a word and `c` has 64 bits, and its high half is the result. The word is accepted if and only if the
/// low half is at least 2^32 mod `c`. After success `rejected` holds the words that were taken before the accepted one.
///
/// # Errors
///
/// The draw rejected its first 128 words. `rejected` then holds them. The kernel goes on drawing.
pub fn below<W: Words, R: Wait>(
    rt: &R,
    words: &mut W,
    c: u32,
    rejected: &mut Rejected,
) -> Result<u32, DrawSpent>
    ensures draw { IsDraw W.gives c words.old rejected.new result words.new }
    ensures below { IfOk result (λ answer. 0 < c → answer < c) }
{
    rejected.clear();
    if c == 0 {
        return Ok(words.next(rt));
    }
    for _ in 0..MOST_REJECTED {
        let word = words.next(rt);
        let product = c as u64 * word as u64;
        if is_accepted(c, (product % WORDS) as u32) {
            return Ok((product / WORDS) as u32);
        }
        rejected.push(word);
    }
    Err(DrawSpent)
}

/// A number from `lo` to `hi`, both included (`get_random_u32_inclusive`).
///
/// # Errors
///
/// The same as for [`below`].
pub fn between<W: Words, R: Wait>(
    rt: &R,
    words: &mut W,
    lo: u32,
    hi: u32,
    rejected: &mut Rejected,
) -> Result<u32, DrawSpent>
    requires { lo ≤ hi }
    ensures { IsDrawFrom W.gives lo (hi - lo + 1) words.old rejected.new result words.new }
{
    let above = below(rt, words, (hi - lo).wrapping_add(1), rejected)?;
    Ok(lo + above)
}
