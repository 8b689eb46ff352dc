//! Fields that spell bytes.
ghost use Rattle.std.specs.Prelude.{◌≡◌, ◌*◌, ◌<◌, ◌↔◌, [], false, IsTrue, IfOk, Some, None, if◌then◌else◌, length};
ghost use Rattle.std.specs.Option.{is_some, option_map};
ghost use Rattle.std.specs.Str.{bytes_eq};
ghost use Rattle.key_names.specs.Texts.ScriptFaults.{bytes_of};
ghost use Rattle.key_names.specs.Texts.Spelling.{AllLower, hex};

use hex::decode_to_slice;
use std::alloc::{AllocError, Global};

/// Whether a field is the dash, which spells no bytes.
fn is_dash(field: &[u8]) -> bool
    ensures { result ≡ bytes_eq field.now (hex []) }
{
    let dash: &[u8] = b"-";
    field == dash
}

/// Whether all bytes are digits of lower-case hexadecimal. The crate `hex` would also accept upper case.
fn is_lower_hex(field: &[u8]) -> bool
    ensures { IsTrue result ↔ AllLower field.now }
{
    // The loop has no early end, so that the compiler can check many bytes at once.
    let mut lower = true;
    for byte in field {
        lower &= matches!(byte, b'0'..=b'9' | b'a'..=b'f');
    }
    lower
}

/// Whether a field spells bytes: two digits of lower-case hexadecimal for each byte, or a dash for no bytes.
pub fn spells_bytes(field: &[u8]) -> bool
    ensures { result ≡ is_some (bytes_of field.now) }
{
    if is_dash(field) {
        return true;
    }
    if field.is_empty() {
        return false;
    }
    if field.len() % 2 != 0 {
        return false;
    }
    is_lower_hex(field)
}

/// Decodes a field that is not empty and is twice as long as `out`. Returns whether the field spells bytes. If it does,
/// the bytes fill `out`; if not, `out` is unchanged.
pub fn decode(field: &[u8], out: &mut [u8]) -> bool
    requires some { 0 < length field.now }
    requires twice { length field.now ≡ 2 * length out.old }
    ensures bytes { (if result then Some out.new else None) ≡ bytes_of field.now }
    ensures same { result ≡ false → out.new ≡ out.old }
{
    if !is_lower_hex(field) {
        return false;
    }
    let Ok(()) = decode_to_slice(field, out) else {
        unreachable!()
    };
    true
}

/// The bytes that a field spells: two digits of lower-case hexadecimal for each byte, or a dash for no bytes.
///
/// `None` if the field does not spell bytes.
///
/// # Errors
///
/// `AllocError` if memory for the bytes is refused.
pub fn bytes_of(alloc: Global, field: &[u8]) -> Result<Option<Vec<u8>>, AllocError>
    ensures { IfOk result (λ bytes. option_map (λ v. v.items) bytes ≡ bytes_of field.now) }
{
    if is_dash(field) {
        return Ok(Some(Vec::new(alloc)));
    }
    if field.is_empty() {
        return Ok(None);
    }
    if field.len() % 2 != 0 {
        return Ok(None);
    }
    let mut bytes = vec![in alloc; 0; field.len() / 2]?;
    if !decode(field, &mut bytes) {
        return Ok(None);
    }
    Ok(Some(bytes))
}
