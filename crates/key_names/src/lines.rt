//! The lines of a transcript.
use crate::events::{Answer, Word};

/// The data that a line shows after its steps.
#[derive(Clone, Copy, Debug, PartialEq, Eq)]
pub enum Data {
    None,
    /// `len` of the bytes kept for the caller, from byte `start` on.
    Bytes { len: u32, start: u64 },
    /// The bits of the pool before the visit that read them.
    Count(u32),
}

/// One line of a transcript: an event of a caller, or the caller's end.
#[derive(Clone, Copy, Debug, PartialEq, Eq)]
pub struct Line {
    pub caller: u32,
    pub event: u32,
    pub word: Word,
    pub answer: Answer,
    pub step_count: u32,
    /// The index of the line's first step among the steps kept for the caller.
    pub first_step: u64,
    pub shown: Data,
}
