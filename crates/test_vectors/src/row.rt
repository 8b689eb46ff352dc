//! A row (a line of standard input that asks for one answer), and its answer.
use crate::keys::{ReadBy, hash_row, read_row, stream_row};
use crate::parts::KernelParts;
use anyhow::{Result, bail};
use std::alloc::Global;

/// The answer to a row.
///
/// # Errors
///
/// The line is no row, or memory ran out.
pub fn answer(alloc: Global, parts: &mut KernelParts, row: &str) -> Result<String> {
    let fields: Vec<&str> = row.split_whitespace().collect(alloc)?;
    match fields.as_slice() {
        ["hash", key, text, size] => hash_row(alloc, key, text, size),
        ["stream", key, from, len] => stream_row(alloc, key, from, len),
        ["kernel", key, len] => read_row(alloc, ReadBy::Kernel, key, len),
        ["user", key, len] => read_row(alloc, ReadBy::User, key, len),
        ["mix", text] => parts.mix(alloc, text),
        ["credit", bits] => parts.credit(alloc, bits),
        ["extract", hardware] => parts.extract(alloc, hardware),
        ["irq", first, second, now] => parts.irq(alloc, first, second, now),
        ["bits", now] => parts.bits(alloc, now),
        ["reseed", now] => parts.reseed(alloc, now),
        ["due", now] => parts.due(alloc, now),
        _ => bail!("no row: {row}"),
    }
}
