//! Fields that are bytes.

ghost use Rattle.std.specs.Prelude.{◌≡◌};
ghost use Rattle.event_script.specs.Views.{Gives};
ghost use Rattle.key_names.specs.Texts.ScriptFaults.{bytes, hardware_words};

use crate::whole::error::LineError;
use key_names::FaultKind;
use key_names::hexes::bytes_of;
use std::alloc::Global;

/// The bytes that a field spells.
pub(crate) fn bytes(alloc: Global, field: &[u8]) -> Result<Vec<u8>, LineError>
    ensures { Gives (λ v. v.items) result (bytes field.now) }
{
    match bytes_of(alloc, field)? {
        Some(bytes) => Ok(bytes),
        None => Err(LineError::Kind(FaultKind::BadHex)),
    }
}

/// The 32 bytes that a field spells.
pub(crate) fn hardware_words(alloc: Global, field: &[u8]) -> Result<[u8; 32], LineError>
    ensures { Gives (λ words. words) result (hardware_words field.now) }
{
    let spelt = bytes(alloc, field)?;
    if spelt.len() != 32 {
        return Err(LineError::Kind(FaultKind::BadHex));
    }
    let mut words = [0; 32];
    words.copy_from_slice(&spelt);
    Ok(words)
}
