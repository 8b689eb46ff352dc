//! Writing a program's answer, and the status with which the program then ends.
ghost use Rattle.std.specs.Prelude.{◌≡◌, ◌⊎◌};
ghost use Rattle.tool_ends.specs.Ends.{CountsWriteFault, IsAnswered};
ghost use Rattle.tool_ends.specs.Pairs.{RefusalEnds};
ghost use Rattle.tool_ends.specs.Reads.{WritesEnds};
ghost use Rattle.key_names.specs.declared.faults.ScriptFault.{ScriptFault};

use crate::pair::NotRead;
use crate::short_lines::{ShortLine, no_line, refusal_line};
use crate::status::Status;
use io_edges::{Failed, Sink, put_all};

/// Writes `text` as the answer of a command, and returns the status: `status`, or a write fault if the sink failed.
pub fn put_answer<K: Sink>(status: Status, text: &[u8], sink: &mut K) -> Status
    requires { IsAnswered status }
    ensures ends { WritesEnds (λ is output. (is ≡ status) × (output ≡ text.now)) result
        (K.held sink.old) (K.held sink.new) }
    ensures answered { (result ≡ status) ⊎ (result ≡ Status.WriteFault) }
    ensures counted { CountsWriteFault result (K.faults sink.old) (K.faults sink.new) }
{
    match put_all(sink, text) {
        Ok(()) => status,
        Err(Failed) => Status::WriteFault,
    }
}

/// Writes `line` as the answer of a command, and returns the status: `status`, or a write fault if the sink failed.
pub fn put_line<K: Sink>(status: Status, line: &ShortLine, sink: &mut K) -> Status
    requires { IsAnswered status }
    ensures ends { WritesEnds (λ is output. (is ≡ status) × (output ≡ line.now.bytes)) result
        (K.held sink.old) (K.held sink.new) }
    ensures answered { (result ≡ status) ⊎ (result ≡ Status.WriteFault) }
    ensures counted { CountsWriteFault result (K.faults sink.old) (K.faults sink.new) }
{
    put_answer(status, line.as_str().as_bytes(), sink)
}

/// Writes the answer to an input that was not read; `why` is the reason. Returns the status. After a read fault, or if
/// memory ran out, it writes nothing.
pub fn put_refusal<K: Sink>(why: &NotRead, sink: &mut K) -> Status
    ensures ends { RefusalEnds why.now result (K.held sink.old) (K.held sink.new) }
    ensures memory { result ≡ Status.NoMemory → why.now ≡ NotRead.NoMemory }
    ensures unread { result ≡ Status.ReadFault → why.now ≡ NotRead.ReadFault }
    ensures refused { result ≡ Status.Refused → (fault : ScriptFault) × (why.now ≡ NotRead.Refused fault) }
    ensures counted { CountsWriteFault result (K.faults sink.old) (K.faults sink.new) }
    ensures silent { (result ≡ Status.ReadFault) ⊎ (result ≡ Status.NoMemory) → sink.new ≡ sink.old }
{
    match why {
        NotRead::ReadFault => Status::ReadFault,
        NotRead::Refused(fault) => put_line(Status::Refused, &refusal_line(*fault), sink),
        NotRead::NoTranscript => put_line(Status::No, &no_line(1), sink),
        NotRead::TooManyLines => put_line(Status::No, &no_line(2), sink),
        NotRead::NoMemory => Status::NoMemory,
    }
}
