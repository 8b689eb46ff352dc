//! Fields of events: bytes, lengths, flags, and bits of credit.

ghost use Rattle.std.specs.Prelude.{◌≡◌, ◌^◌};
ghost use Rattle.event_script.specs.Views.{Gives, Tells};
ghost use Rattle.key_names.specs.Texts.ScriptFaults.{bytes, number};

use crate::numbers::number;
use crate::statements::hexes::bytes;
use crate::whole::error::LineError;
use key_names::{FaultKind, Text};
use std::alloc::Global;

/// The most bytes of one read.
pub(crate) const MOST_LEN: u64 = 1_048_576;

pub(crate) const MOST_FLAGS: u64 = (1 << 32) - 1;

/// The most bits that a line credits.
pub(crate) const MOST_BITS: u64 = (1 << 31) - 1;

pub(crate) fn text(alloc: Global, field: &[u8]) -> Result<Text, LineError>
    ensures { Gives (λ text. text) result (bytes field.now) }
{
    let bytes = bytes(alloc, field)?;
    Ok(Text::of(alloc, bytes)?)
}

/// The number of bytes of a read.
pub(crate) fn read_len(field: &[u8]) -> Result<u32, FaultKind>
    ensures { Tells (λ len. len) result (number 1048577 field.now) }
{
    let len = number(MOST_LEN, field)?;
    Ok(len as u32)
}

pub(crate) fn bits(field: &[u8]) -> Result<u32, FaultKind>
    ensures { Tells (λ bits. bits) result (number (2 ^ 31) field.now) }
{
    let bits = number(MOST_BITS, field)?;
    Ok(bits as u32)
}
