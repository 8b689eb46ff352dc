//! Why a text could not be read.
ghost use Rattle.std.specs.Prelude.{◌≡◌};
ghost use Rattle.transcript_text.specs.declared.parsing.error.TextError.TheVariants.{NoMemory};

use std::alloc::AllocError;

/// Why a text could not be read as a transcript.
#[derive(Clone, Copy, Debug, PartialEq, Eq)]
pub enum TextError {
    /// The number of the first faulty line, counted from 1. The lines before it are the start of some transcript's
    /// text; with the faulty line they are the start of none. If the text ends too early, the faulty line is the
    /// incomplete or the missing one.
    Fault { line: u32 },
    /// The text is that of a transcript with more lines than the limit.
    TooManyLines,
    /// There was no memory for the transcript.
    NoMemory,
}

impl From<AllocError> for TextError {
    ghost from_gives = { λ _ e. e ≡ NoMemory };

    fn from(_: AllocError) -> TextError {
        TextError::NoMemory
    }
}
