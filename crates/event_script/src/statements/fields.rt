//! The fields of a line, separated by single spaces.

ghost use Rattle.std.specs.Prelude.{◌≡◌, MatchOption, IfSome, Some, ◌+◌, ◌∷◌, [], length};
ghost use Rattle.std.specs.Str.{bytes_eq};
ghost use Rattle.event_script.specs.Views.{Tells, fields_of};
ghost use Rattle.key_names.specs.Texts.ScriptFaults.{parts, no_field, one_field, two_fields, four_fields};

use key_names::FaultKind;
use memchr::memchr;

/// Whether `field` and `text` are the same bytes.
pub(crate) fn spells(field: &[u8], text: &[u8]) -> bool
    ensures { result ≡ bytes_eq field.now text.now }
{
    field == text
}

/// The text before the first `byte`, and the text after that byte; `None` if the text has no such byte.
pub(crate) fn cut(byte: u8, text: &[u8]) -> Option<(&[u8], &[u8])>
    ensures parts { MatchOption result (parts byte text.now ≡ text.now ∷ [])
        (λ both. parts byte text.now ≡ both.0.now ∷ parts byte both.1.now) }
    ensures len { IfSome result (λ both. length both.0.now + 1 + length both.1.now ≡ length text.now) }
{
    match memchr(byte, text) {
        Some(place) => Some((&text[..place], &text[place + 1..])),
        None => None,
    }
}

/// Checks that no field follows the word.
pub(crate) fn none(rest: Option<&[u8]>) -> Result<(), FaultKind>
    ensures { Tells (λ _. []) result (no_field (fields_of rest.entry)) }
{
    match rest {
        None => Ok(()),
        Some(_) => Err(FaultKind::UnknownWord),
    }
}

/// The only field after a word.
pub(crate) fn one(rest: Option<&[u8]>) -> Result<&[u8], FaultKind>
    ensures { Tells (λ field. field.now) result (one_field (fields_of rest.entry)) }
{
    let Some(text) = rest else {
        return Err(FaultKind::UnknownWord);
    };
    match cut(b' ', text) {
        None => Ok(text),
        Some(_) => Err(FaultKind::UnknownWord),
    }
}

/// The two fields after a word.
pub(crate) fn two(rest: Option<&[u8]>) -> Result<(&[u8], &[u8]), FaultKind>
    ensures { Tells (λ both. (both.0.now, both.1.now)) result (two_fields (fields_of rest.entry)) }
{
    let Some(text) = rest else {
        return Err(FaultKind::UnknownWord);
    };
    let Some((first, more)) = cut(b' ', text) else {
        return Err(FaultKind::UnknownWord);
    };
    match cut(b' ', more) {
        None => Ok((first, more)),
        Some(_) => Err(FaultKind::UnknownWord),
    }
}

/// The four fields after a word.
pub(crate) fn four(rest: Option<&[u8]>) -> Result<((&[u8], &[u8]), (&[u8], &[u8])), FaultKind>
    ensures { Tells (λ all. ((all.0.0.now, all.0.1.now), (all.1.0.now, all.1.1.now))) result
        (four_fields (fields_of rest.entry)) }
{
    let Some(text) = rest else {
        return Err(FaultKind::UnknownWord);
    };
    let Some((first, more)) = cut(b' ', text) else {
        return Err(FaultKind::UnknownWord);
    };
    let Some((second, last)) = cut(b' ', more) else {
        return Err(FaultKind::UnknownWord);
    };
    let (third, fourth) = two(Some(last))?;
    Ok(((first, second), (third, fourth)))
}
