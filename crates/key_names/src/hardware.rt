//! The hardware's bytes for extractions.
ghost use Rattle.std.specs.Prelude.{◌≡◌, IfOk};

use std::alloc::{AllocError, Global};
use std::marker::Model;

/// The 32 bytes that the hardware gives to an extraction (`arch_get_random_seed_longs`), kept through a pointer like
/// the bytes of a `Text`.
///
/// In contracts the bytes are a list.
#[derive(Drop)]
pub struct HardwareWords {
    bytes: Box<[u8; 32]>,
}

impl Model for HardwareWords {
    ghost use Rattle.std.specs.Prelude.{ℕ, List};

    ghost Value = { List ℕ };

    ghost view = { λ words. words.bytes.value };
}

impl HardwareWords {
    /// Makes hardware words of these bytes.
    ///
    /// # Errors
    ///
    /// `AllocError` if memory for the words is refused.
    pub fn of(alloc: Global, bytes: [u8; 32]) -> Result<HardwareWords, AllocError>
        ensures { IfOk result (λ words. words ≡ bytes) }
    {
        let bytes = Box::new(alloc, bytes)?;
        Ok(HardwareWords { bytes })
    }

    /// The 32 bytes.
    pub fn bytes(&self) -> [u8; 32]
        ensures { result ≡ self.now }
    {
        *self.bytes
    }
}
