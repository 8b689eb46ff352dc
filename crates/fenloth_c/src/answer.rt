//! The answers of the C functions, and the number of each.
ghost use Rattle.std.specs.Prelude.{◌≡◌};
ghost use Rattle.fenloth_c.specs.Answers.{code_of};

use judge_lines::clause::Clause;

/// The answer of a C function.
#[derive(Clone, Copy)]
pub enum TextAnswer {
    /// The transcript is lawful, or its lines were made again.
    Yes,
    /// The text `transcript` spells no transcript.
    NoTranscript,
    /// The clause in this answer is the first that fails.
    Fails(Clause),
    /// The script has a fault.
    NoScript,
    /// There is no memory for the answer.
    NoMemory,
    /// The transcript has more than 2^31 bytes.
    TooLong,
    /// The buffer is too short for the transcript.
    NoRoom,
}

impl TextAnswer {
    /// The number that C gets, which `examples/clients/fenloth_texts.h` lists.
    pub(crate) fn code(self) -> u32
        ensures { result ≡ code_of self }
    {
        match self {
            TextAnswer::Yes => 0,
            TextAnswer::NoTranscript => 1,
            TextAnswer::Fails(clause) => u32::from(clause.number()),
            TextAnswer::NoScript => 8,
            TextAnswer::NoMemory => 9,
            TextAnswer::TooLong => 10,
            TextAnswer::NoRoom => 11,
        }
    }
}
