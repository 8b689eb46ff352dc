//! Numbers at the start of a text, and fields that are numbers.

ghost use Rattle.std.specs.Prelude.{◌≡◌, ℕ, ◌+◌, ◌<◌, ◌≤◌, ◌↔◌, IsTrue, IfOk, IfSome, MatchOption, decimal, length};
ghost use Rattle.event_script.specs.ValueFronts.{BeginsDigits, EndsNumber, IsDigits, IsFront, NoFront};
ghost use Rattle.event_script.specs.Views.{Tells, fields_of};
ghost use Rattle.key_names.specs.declared.events.Event.{Event};
ghost use Rattle.key_names.specs.Texts.ScriptFaults.{binary, number_below, number, number_in, unary};

use crate::statements::fields::cut;
use key_names::FaultKind;

/// Any number of this many digits fits in a `u64`.
const SAFE_DIGITS: usize = 19;

/// A loop of constant length reads this many digits, so that the compiler unrolls it.
const NEAR_DIGITS: usize = 8;

fn ends_number(text: &[u8]) -> bool
    ensures { IsTrue result ↔ EndsNumber text.now }
{
    match text {
        [byte, ..] => char::from(*byte).to_digit(10).is_none(),
        [] => true,
    }
}

/// The number at the start of a text, if this number is at most `most`, and the text after the number. The text begins
/// with exactly `len` digits, which spell `value`.
#[inline(always)]
fn cut_number(most: u64, value: u64, len: usize, text: &[u8]) -> Option<(u64, &[u8])>
    requires { IsDigits text.now value len }
    ensures front { MatchOption result (NoFront decimal (λ n. n ≤ most) text.now)
        (λ both. IsFront decimal (λ n. n ≤ most) text.now both.0 both.1.now) }
    ensures ends { IfSome result (λ both. EndsNumber both.1.now) }
{
    if len == 0 {
        return None;
    }
    if len > 1 && text[0] == b'0' {
        return None;
    }
    if value > most {
        return None;
    }
    Some((value, &text[len..]))
}

/// The number at the start of a text longer than 19 bytes. The text's first 19 bytes are digits, which spell `value`. A
/// `u64` has room for at most one more digit.
#[inline(never)]
fn long_number(most: u64, value: u64, text: &[u8]) -> Option<(u64, &[u8])>
    requires digits { BeginsDigits text.now value 19 }
    requires longer { 19 < length text.now }
    ensures front { MatchOption result (NoFront decimal (λ n. n ≤ most) text.now)
        (λ both. IsFront decimal (λ n. n ≤ most) text.now both.0 both.1.now) }
    ensures ends { IfSome result (λ both. EndsNumber both.1.now) }
{
    let Some(digit) = char::from(text[SAFE_DIGITS]).to_digit(10) else {
        return cut_number(most, value, SAFE_DIGITS, text);
    };
    let tens = value.checked_mul(10)?;
    let next = tens.checked_add(u64::from(digit))?;
    if !ends_number(&text[SAFE_DIGITS + 1..]) {
        return None;
    }
    cut_number(most, next, SAFE_DIGITS + 1, text)
}

/// The number at the start of a text. The first `seen` digits were read before and spell `value`.
#[inline(never)]
fn read_on(most: u64, value: u64, seen: usize, text: &[u8]) -> Option<(u64, &[u8])>
    requires digits { BeginsDigits text.now value seen }
    requires few { seen ≤ 19 }
    ensures front { MatchOption result (NoFront decimal (λ n. n ≤ most) text.now)
        (λ both. IsFront decimal (λ n. n ≤ most) text.now both.0 both.1.now) }
    ensures ends { IfSome result (λ both. EndsNumber both.1.now) }
{
    let mut value = value;
    for len in seen..text.len().min(SAFE_DIGITS) {
        let Some(digit) = char::from(text[len]).to_digit(10) else {
            return cut_number(most, value, len, text);
        };
        value = value * 10 + u64::from(digit);
    }
    if text.len() > SAFE_DIGITS {
        return long_number(most, value, text);
    }
    cut_number(most, value, text.len(), text)
}

/// Calls `read_on`. Most numbers end before this call is reached.
// When a function starts, it clears the stack space for the results of its calls. `read_on` is called from this
// separate function, so reading a number that ends earlier clears no space.
#[inline(always)]
fn read_on_apart(most: u64, value: u64, seen: usize, text: &[u8]) -> Option<(u64, &[u8])>
    requires digits { BeginsDigits text.now value seen }
    requires few { seen ≤ 19 }
    ensures front { MatchOption result (NoFront decimal (λ n. n ≤ most) text.now)
        (λ both. IsFront decimal (λ n. n ≤ most) text.now both.0 both.1.now) }
    ensures ends { IfSome result (λ both. EndsNumber both.1.now) }
{
    let (number, rest) = read_on(most, value, seen, text)?;
    Some((number, rest))
}

/// The number at the start of a text, at most `most`, in decimal and without leading zeros; and the text after the
/// number.
///
/// `None` if the text begins with no digit, if it begins with a zero and another digit, or if the digits at its start
/// spell more than `most`.
#[inline(always)]
pub fn number_front(most: u64, text: &[u8]) -> Option<(u64, &[u8])>
    ensures front { MatchOption result (NoFront decimal (λ n. n ≤ most) text.now)
        (λ both. IsFront decimal (λ n. n ≤ most) text.now both.0 both.1.now) }
    ensures ends { IfSome result (λ both. EndsNumber both.1.now) }
{
    if text.len() < NEAR_DIGITS {
        return read_on_apart(most, 0, 0, text);
    }
    let mut value: u64 = 0;
    for (len, byte) in text[..NEAR_DIGITS].iter().enumerate() {
        let Some(digit) = char::from(*byte).to_digit(10) else {
            return cut_number(most, value, len, text);
        };
        value = value * 10 + u64::from(digit);
    }
    read_on_apart(most, value, NEAR_DIGITS, text)
}

/// The number that a field spells in decimal, without leading zeros, if it is at most `most`.
pub fn number_up_to(most: u64, field: &[u8]) -> Option<u64>
    ensures value { result ≡ number_below (most + 1) field.now }
    ensures range { IfSome result (λ n. n ≤ most) }
{
    match number_front(most, field) {
        Some((value, rest)) if rest.is_empty() => Some(value),
        _ => None,
    }
}

/// The number that a field spells, if it is at most `most`.
pub(crate) fn number(most: u64, field: &[u8]) -> Result<u64, FaultKind>
    ensures value { Tells (λ n. n) result (number (most + 1) field.now) }
    ensures range { IfOk result (λ n. n ≤ most) }
{
    match number_up_to(most, field) {
        Some(value) => Ok(value),
        None => Err(FaultKind::BadNumber),
    }
}

/// The number that a field spells, if it is from `least` to `most`.
pub(crate) fn number_from(least: u64, most: u64, field: &[u8]) -> Result<u64, FaultKind>
    ensures value { Tells (λ n. n) result (number_in least (most + 1) field.now) }
    ensures range { IfOk result (λ n. n ≤ most) }
{
    let value = number(most, field)?;
    if value < least {
        return Err(FaultKind::BadNumber);
    }
    Ok(value)
}

/// The number after a word, if it is the only field and at most `most`.
pub(crate) fn one_number(most: u64, rest: Option<&[u8]>) -> Result<u64, FaultKind>
    ensures value { (make : ℕ → Event) → Tells make result (unary (number (most + 1)) make (fields_of rest.entry)) }
    ensures range { IfOk result (λ n. n ≤ most) }
{
    let Some(text) = rest else {
        return Err(FaultKind::UnknownWord);
    };
    if let Some(value) = number_up_to(most, text) {
        return Ok(value);
    }
    match cut(b' ', text) {
        None => Err(FaultKind::BadNumber),
        Some(_) => Err(FaultKind::UnknownWord),
    }
}

/// The number after a word, if it is the only field and below `limit`.
pub(crate) fn one_below(limit: u32, rest: Option<&[u8]>) -> Result<u32, FaultKind>
    requires { 0 < limit }
    ensures value { (make : ℕ → Event) → Tells make result (unary (number limit) make (fields_of rest.entry)) }
    ensures range { IfOk result (λ n. n < limit) }
{
    let value = one_number(u64::from(limit) - 1, rest)?;
    Ok(value as u32)
}

/// The two numbers after a word, if they are the only fields, the first is at most `most` and the second at most
/// `next`.
pub(crate) fn two_numbers(
    most: u64,
    next: u64,
    rest: Option<&[u8]>,
) -> Result<(u64, u64), FaultKind>
    ensures value { (make : ℕ → ℕ → Event) → Tells (λ both. make both.0 both.1) result
        (binary (number (most + 1)) (number (next + 1)) make (fields_of rest.entry)) }
    ensures range { IfOk result (λ both. (both.0 ≤ most) × (both.1 ≤ next)) }
{
    let Some(text) = rest else {
        return Err(FaultKind::UnknownWord);
    };
    let Some((first, second)) = cut(b' ', text) else {
        return Err(FaultKind::UnknownWord);
    };
    if let (Some(a), Some(b)) = (number_up_to(most, first), number_up_to(next, second)) {
        return Ok((a, b));
    }
    match cut(b' ', second) {
        None => Err(FaultKind::BadNumber),
        Some(_) => Err(FaultKind::UnknownWord),
    }
}
