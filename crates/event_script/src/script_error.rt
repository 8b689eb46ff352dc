//! Why a text is no script, or could not be read.

ghost use Rattle.std.specs.Prelude.{◌≡◌};
ghost use Rattle.event_script.specs.declared.script_error.ScriptError.TheVariants.{Fault, NoMemory};

use key_names::ScriptFault;
use std::alloc::AllocError;

/// Why a script could not be read.
#[derive(Clone, Copy, Debug, PartialEq, Eq)]
pub enum ScriptError {
    /// The text's first fault.
    Fault(ScriptFault),
    /// There was not enough memory.
    NoMemory,
}

impl From<AllocError> for ScriptError {
    ghost from_gives = { λ _ e. e ≡ NoMemory };

    fn from(_e: AllocError) -> ScriptError {
        ScriptError::NoMemory
    }
}

/// Why a text that came in pieces could not be read.
#[derive(Drop)]
pub struct Unread {
    pub error: ScriptError,
    /// The faulty line, or the part of it that was read, if there was memory to keep it (tested).
    pub line: Option<Vec<u8>>,
}

impl Unread {
    pub(crate) fn at(fault: ScriptFault, line: Option<Vec<u8>>) -> Unread
        ensures { result.error ≡ Fault fault }
    {
        Unread {
            error: ScriptError::Fault(fault),
            line,
        }
    }
}

impl From<AllocError> for Unread {
    ghost from_gives = { λ _ unread. unread.error ≡ NoMemory };

    fn from(_e: AllocError) -> Unread {
        Unread {
            error: ScriptError::NoMemory,
            line: None,
        }
    }
}
