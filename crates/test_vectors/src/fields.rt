//! The fields of a row: a line of standard input that asks for one answer.
use anyhow::{Result, bail};
use std::alloc::Global;

/// The bytes that a field spells; `-` spells none.
pub fn bytes_of(alloc: Global, field: &str) -> Result<Vec<u8>> {
    if field == "-" {
        return Ok(Vec::new(alloc));
    }
    match hex::decode(alloc, field) {
        Ok(bytes) => Ok(bytes),
        Err(_) => bail!("no bytes: {field}"),
    }
}

/// The key that a field spells.
pub fn key_of(field: &str) -> Result<[u8; 32]> {
    let mut key = [0; 32];
    match hex::decode_to_slice(field, &mut key) {
        Ok(()) => Ok(key),
        Err(_) => bail!("no key: {field}"),
    }
}

/// The number that a field spells in decimal digits.
pub fn number_of(field: &str) -> Result<u64> {
    Ok(field.parse::<u64>()?)
}
