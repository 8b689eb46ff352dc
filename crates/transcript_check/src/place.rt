//! The failing line of a transcript, and the line or part that was expected there.

use key_names::{Answer, Mark, Word};

/// What was expected: a part of a line, a whole line, or no line.
#[derive(Drop)]
pub enum Expected {
    /// The line of this event.
    Event {
        caller: u32,
        event: usize,
        word: Word,
    },
    /// No line: the script has no such event.
    NoLine,
    /// A visit at this place, instead of the place of the line's visit with the same stamp.
    Place(Mark),
    /// A visit with a stamp above this number.
    StampAbove(u64),
    /// A visit of a CPU with a number below this one.
    CpuBelow(u32),
    /// Another entry for this visit: the line's steps fit no entry that the visit's lane allows there.
    Entry(Mark),
    /// Steps that match a form: the steps of the line match none.
    Steps,
    /// This answer, instead of the line's.
    Answer(Answer),
    /// No data, though the line has some.
    NoData,
    /// This number of bits as the data.
    Count(u32),
    /// These bytes as the data.
    Bytes(Vec<u8>),
    /// A look that finds a generation from `least` to `most`.
    Look {
        least: u64,
        most: u64,
    },
}

/// A failing line of a transcript, with the part or the line that was expected there.
#[derive(Drop)]
pub struct FailedLine {
    pub caller: u32,
    /// The number of the line among the caller's lines, from 0. If a line is missing at the end, this is how many lines
    /// the caller has.
    pub line: usize,
    pub expected: Expected,
}
