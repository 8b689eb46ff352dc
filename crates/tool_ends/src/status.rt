//! The statuses with which a program ends.
ghost use Rattle.std.specs.Prelude.{◌≡◌};
ghost use Rattle.tool_ends.specs.Ends.{code_of};

/// How a program ended. The number of each status is its exit code.
#[derive(Clone, Copy, Debug, PartialEq, Eq)]
pub enum Status {
    /// The whole output was written.
    Done,
    /// A transcript fails a clause, and the line with the clause's number was written.
    No,
    /// The command line has none of the forms that the program accepts. The program read and wrote nothing.
    Usage,
    /// The source failed. Nothing was written.
    ReadFault,
    /// The sink failed. It got a prefix of the output.
    WriteFault,
    /// The script was refused, and the line with the script's fault was written.
    Refused,
    /// Memory ran out. Nothing was written.
    NoMemory,
}

impl Status {
    /// The exit code of the status, from 0 to 6.
    pub fn code(self) -> u8
        ensures { result ≡ code_of self }
    {
        match self {
            Status::Done => 0,
            Status::No => 1,
            Status::Usage => 2,
            Status::ReadFault => 3,
            Status::WriteFault => 4,
            Status::Refused => 5,
            Status::NoMemory => 6,
        }
    }
}
