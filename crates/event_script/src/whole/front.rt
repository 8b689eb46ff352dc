//! A script at the start of a longer text.

ghost use Rattle.std.specs.Prelude.{◌≡◌, ◌≤◌, length, take};
ghost use Rattle.key_names.specs.Texts.ScriptFaults.{front};

use crate::statements::fields::{cut, spells};

/// The number of bytes of the script at the start of a text. The script ends with the first line `end`. If no line is
/// `end`, the script is the whole text.
pub(crate) fn front_len(text: &[u8]) -> usize
    ensures within { result ≤ length text.now }
    ensures front { take result text.now ≡ front text.now }
{
    let mut left = text;
    while let Some((line, rest)) = cut(b'\n', left) {
        if spells(line, b"end") {
            return text.len() - rest.len();
        }
        left = rest;
    }
    text.len()
}
