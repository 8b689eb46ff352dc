//! A line of a transcript that borrows its steps and bytes from any memory.
ghost use Rattle.std.specs.Prelude.{◌≡◌};
ghost use Rattle.transcript_text.specs.Views.{bytes_of};

use key_names::{Answer, Step, Word};

/// The last field of a line: no data, bytes, or a count of bits.
#[derive(Clone, Copy, Debug, PartialEq, Eq)]
pub enum Shown<'a> {
    None,
    /// The bytes. A line without bytes has [`Shown::None`], or an empty slice here.
    Bytes(&'a [u8]),
    /// The number of credited bits that the visit of a `bits` line found in the pool.
    Count(u32),
}

impl<'a> Shown<'a> {
    /// The bytes of the data.
    pub fn bytes(self) -> &'a [u8]
        ensures { result.now ≡ bytes_of self.entry }
    {
        match self {
            Shown::Bytes(bytes) => bytes,
            Shown::None | Shown::Count(_) => &[],
        }
    }
}

/// One line of a transcript: an event of a caller, or the caller's end.
#[derive(Clone, Copy)]
pub struct LineView<'a> {
    pub caller: u32,
    pub event: u32,
    pub word: Word,
    pub answer: Answer,
    pub steps: &'a [Step],
    pub shown: Shown<'a>,
}
