//! The clauses of a lawful transcript.
ghost use Rattle.std.specs.Prelude.{◌≡◌};
ghost use Rattle.key_names.specs.Transcripts.IsTranscript.{clause_number};
ghost use Rattle.judge_lines.specs.Clauses.{clause_of};

/// The clauses of a lawful transcript from clause 2 on, in the order in which they are judged. Clause 1 is judged
/// before them: the text must be the text of a transcript.
#[derive(Clone, Copy, Debug, PartialEq, Eq)]
pub enum Clause {
    /// Each caller has exactly the lines that its part of the script requires.
    Lines,
    /// In each lane the visits' places count up from 0. Stamps rise in each lane and along each caller's order.
    Marks,
    /// The steps of each line are a form of its event. One book contains the steps of all lines.
    Forms,
    /// Each answer is the one that the steps and the lists require.
    Answers,
    /// The data of each line are those that the steps and the lists give.
    Data,
    /// Each look finds at least the greatest generation that its caller has seen, and at most the greatest that the
    /// base ever had.
    Looks,
}

impl Clause {
    /// The clause's number, 2 to 7. Clause 1 is about the text.
    pub fn number(self) -> u8
        ensures { result ≡ clause_number (clause_of self) }
    {
        match self {
            Clause::Lines => 2,
            Clause::Marks => 3,
            Clause::Forms => 4,
            Clause::Answers => 5,
            Clause::Data => 6,
            Clause::Looks => 7,
        }
    }
}
