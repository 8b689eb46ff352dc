//! Why a script could not be read.

ghost use Rattle.std.specs.Prelude.{◌≡◌};
ghost use Rattle.event_script.specs.declared.whole.error.LineError.TheVariants.{Memory, Kind};

use key_names::FaultKind;
use std::alloc::{AllocError, AllocFailed};

/// Why a line could not be read: its fault, or a lack of memory.
#[derive(Debug, Drop)]
pub(crate) enum LineError {
    Memory,
    Kind(FaultKind),
}

impl From<AllocError> for LineError {
    ghost from_gives = { λ _ e. e ≡ Memory };

    fn from(_e: AllocError) -> LineError {
        LineError::Memory
    }
}

impl<T: Drop> From<AllocFailed<T>> for LineError {
    ghost from_gives = { λ _ e. e ≡ Memory };

    fn from(_e: AllocFailed<T>) -> LineError {
        LineError::Memory
    }
}

impl From<FaultKind> for LineError {
    ghost from_gives = { λ kind e. e ≡ Kind kind };

    fn from(kind: FaultKind) -> LineError {
        LineError::Kind(kind)
    }
}
