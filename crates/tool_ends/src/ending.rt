//! The end of a program's output: the sink hands on all bytes that it kept back.
ghost use Rattle.std.specs.Prelude.{◌≡◌, []};
ghost use Rattle.std.specs.Io.KnownBytes.{Keeps};
ghost use Rattle.tool_ends.specs.Ends.{AtOutputEnd, IsAnswered};

use crate::status::Status;
use io_edges::{Failed, Sink};

/// Ends the output of a command whose status is `status`. If an answer was put, all of it is handed on, unless the sink
/// fails.
pub fn end_output<K: Sink>(status: Status, sink: &mut K) -> Status
    ensures ended { AtOutputEnd status result (K.faults sink.old) (K.faults sink.new) }
    ensures handed_on { IsAnswered result → K.kept_back sink.new ≡ [] }
    ensures kept { Keeps (K.held sink.old) (K.held sink.new) }
    ensures untouched { (IsAnswered status → ⊥) → sink.new ≡ sink.old }
{
    match status {
        Status::Done | Status::No | Status::Refused => match sink.flush() {
            Ok(()) => status,
            Err(Failed) => Status::WriteFault,
        },
        Status::Usage | Status::ReadFault | Status::WriteFault | Status::NoMemory => status,
    }
}
