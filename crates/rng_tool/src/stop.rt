//! Why a session stopped before its transcript was whole, and the answer that the session then writes.
ghost use Rattle.std.specs.Prelude.{◌≡◌, ◌↔◌, ℕ, List, Option, Err};
ghost use Rattle.rng_tool.specs.LiveOutcome.{LiveEnds, not_alone_line};
ghost use Rattle.rng_tool.specs.LiveSteps.{CountsStop, SessionEnds};
ghost use Rattle.rng_tool.specs.declared.stop.Stop.TheVariants.{NoMemory, WriteFault};
ghost use Rattle.tool_ends.specs.Ends.{CountsWriteFault};

use arrayvec::ArrayString;
use io_edges::{Failed, Sink};
use key_names::ScriptFault;
use std::alloc::AllocError;
use tool_ends::short_lines::{ShortLine, add_number, refusal_line};
use tool_ends::{Status, put_line};

/// Why a session stopped.
#[derive(Clone, Copy, Debug, PartialEq, Eq)]
pub(crate) enum Stop {
    /// The source failed.
    ReadFault,
    /// The sink failed.
    WriteFault,
    /// Memory ran out.
    NoMemory,
    /// The script has this first fault.
    Refused(ScriptFault),
    /// The line of this number forks a caller, or acts inside a vgetrandom call.
    NotAlone(u32),
}

impl From<Failed> for Stop {
    ghost from_gives = { λ _ why. why ≡ WriteFault };

    fn from(_: Failed) -> Stop {
        Stop::WriteFault
    }
}

impl From<AllocError> for Stop {
    ghost from_gives = { λ _ why. why ≡ NoMemory };

    fn from(_: AllocError) -> Stop {
        Stop::NoMemory
    }
}

/// The line that refuses a fork, or an act inside a call, in line `number` of a script: kind 13, which no fault of a
/// script has.
pub(crate) fn not_alone_line(number: u32) -> ShortLine
    ensures { result.bytes ≡ not_alone_line number }
{
    let mut line = ArrayString::new();
    add_number(&mut line, "refused ", u64::from(number));
    line.push_str(" 13\n");
    line
}

impl Stop {
    /// If the session stopped by a refusal, writes the line of the refusal. If memory ran out, flushes the output so
    /// far.
    pub(crate) fn answer<K: Sink>(self, sink: &mut K) -> Status
        ensures ends { (left left_after held : Option (List ℕ)) → SessionEnds (Err self) left left_after held (K.held sink.old)
            → LiveEnds result left left_after held (K.held sink.new) }
        ensures read { (result ≡ Status.ReadFault) ↔ (self ≡ Stop.ReadFault) }
        ensures counted { (faults : ℕ) → CountsStop (Err self) faults (K.faults sink.old)
            → CountsWriteFault result faults (K.faults sink.new) }
    {
        match self {
            Stop::ReadFault => Status::ReadFault,
            Stop::WriteFault => Status::WriteFault,
            Stop::NoMemory => match sink.flush() {
                Ok(()) => Status::NoMemory,
                Err(Failed) => Status::WriteFault,
            },
            Stop::Refused(fault) => put_line(Status::Refused, &refusal_line(fault), sink),
            Stop::NotAlone(number) => put_line(Status::Refused, &not_alone_line(number), sink),
        }
    }
}
