//! The faults of a script.
ghost use Rattle.std.specs.Prelude.{◌≡◌};

/// The kind of a script's fault. If a line has several faults, the kind that comes first in this list counts, with two
/// exceptions. `Unfinished` is checked right after `TooLong`. If a line has both `BadNumber` and `BadHex`, the kind of
/// the leftmost bad field counts.
#[derive(Clone, Copy, Debug, PartialEq, Eq)]
pub enum FaultKind {
    /// The script has more than 16 MiB.
    TooLong,
    /// The line has a byte that is not printable ASCII.
    BadByte,
    /// Line 1 is not the head of any version.
    BadHead,
    /// Line 2 is not `cpus N` with a number of CPUs that the version allows.
    BadCpus,
    /// The word or the act's word is unknown or has the wrong number of fields, or the line follows `end`.
    UnknownWord,
    /// A field that has to be a number is not spelt as one, or the number is out of range.
    BadNumber,
    /// A field of bytes is not spelt as bytes, or the field after `hw` is not 32 bytes long.
    BadHex,
    /// Blocks are out of order: line 3 begins no block, or a block does not have the next number.
    BadCaller,
    /// A fork's number is taken, or is not greater than the number of the forking caller.
    BadFork,
    /// A block's number was not forked before, or a forked number has no block.
    Unforked,
    /// There are too many events, too many bytes to read, or too many acts before one `vread`.
    TooMany,
    /// The script has no line `end`, or the last line has no line feed.
    Unfinished,
}

impl FaultKind {
    ghost use Rattle.key_names.specs.Texts.ScriptFaults.{kind_number};

    /// The number of the kind, from 1 to 12, which a refusal shows.
    pub fn number(self) -> u8
        ensures { result ≡ kind_number self }
    {
        match self {
            FaultKind::TooLong => 1,
            FaultKind::BadByte => 2,
            FaultKind::BadHead => 3,
            FaultKind::BadCpus => 4,
            FaultKind::UnknownWord => 5,
            FaultKind::BadNumber => 6,
            FaultKind::BadHex => 7,
            FaultKind::BadCaller => 8,
            FaultKind::BadFork => 9,
            FaultKind::Unforked => 10,
            FaultKind::TooMany => 11,
            FaultKind::Unfinished => 12,
        }
    }
}

/// The first fault of a script.
#[derive(Clone, Copy, Debug, PartialEq, Eq)]
pub struct ScriptFault {
    /// The number of the faulty line, from 1, or 0 for `TooLong`.
    pub line: u32,
    pub kind: FaultKind,
}
