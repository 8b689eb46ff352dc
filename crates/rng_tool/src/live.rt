//! The command `live`: a session. Each event of a script's only caller is made as soon as the event's script line was
//! read, and the event's transcript line is written at once.
ghost use Rattle.std.specs.Prelude.{◌≡◌, ◌⊎◌, ◌+◌, ◌<◌, ◌++◌, ◌∷◌, [], ℕ, List, None, Option, false, true, length, IfSome};
ghost use Rattle.std.specs.Io.KnownBytes.{Appends};
ghost use Rattle.event_script.specs.Feeding.{HasFed};
ghost use Rattle.rng_tool.specs.LiveOutcome.{LiveEnds};
ghost use Rattle.rng_tool.specs.LiveSteps.{CountsReadStop, CountsStop, Finishes, IsPart, SessionAt, SessionEnds, SessionGoes, SessionReads};
ghost use Rattle.tool_ends.specs.Ends.{CountsReadFault, CountsWriteFault};

use crate::session_writer::SessionWriter;
use crate::stop::Stop;
use event_script::{ScriptError, ScriptReader};
use io_edges::{Gate, Sink, Source};
use memchr::memchr;
use std::alloc::Global;
use std::mem;
use std::sync::Wait;
use tool_ends::Status;

/// The most bytes of a script.
const MOST_SCRIPT_BYTES: usize = 16_777_216;

/// The bytes of one piece.
const PIECE: usize = 64 * 1024;

/// A script that is being read, and the run of its events so far.
#[derive(Drop)]
struct Session {
    reader: ScriptReader,
    session_writer: SessionWriter,
}

// The first line of `text`, with its line feed, and the text after this line. `None` if the script's line `end` was
// read, or if `text` has no line feed.
fn next_line(is_over: bool, text: &[u8]) -> Option<(&[u8], &[u8])>
    ensures line { IfSome result (λ both. (is_over ≡ false)
        × ((line : List ℕ) × (both.0.now ≡ line ++ 10 ∷ []) × IsPart line)) }
    ensures parts { IfSome result (λ both. text.entry.now ≡ both.0.now ++ both.1.now) }
    ensures shorter { IfSome result (λ both. length both.1.now < length text.entry.now) }
    ensures none { result ≡ None → (is_over ≡ true) ⊎ IsPart text.entry.now }
{
    if is_over {
        return None;
    }
    let place = memchr(b'\n', text)?;
    Some(text.split_at(place + 1))
}

impl Session {
    fn new(alloc: Global) -> Session
        ensures { SessionAt [] [] result }
    {
        Session {
            reader: ScriptReader::new(alloc),
            session_writer: SessionWriter::new(),
        }
    }

    // Feeds a line to the reader, and hands the script's progress to the session writer.
    fn read_line<R: Wait, K: Sink, G: Gate>(
        &mut self,
        rt: &R,
        alloc: Global,
        sink: &mut K,
        gate: &G,
        line: &[u8],
    ) -> Result<(), Stop>
        requires at { (text emitted : List ℕ) × SessionAt text emitted self.old }
        requires goes_on { self.old.session_writer.is_over ≡ false }
        requires line { (front : List ℕ) × (line.now ≡ front ++ 10 ∷ []) × IsPart front }
        ensures goes { (start : Option (List ℕ)) (text emitted : List ℕ) → SessionAt text emitted self.old
            → Appends start (K.held sink.old) emitted
            → SessionGoes result start (K.held sink.new) (text ++ line.now) self.new }
        ensures counted { CountsStop result (K.faults sink.old) (K.faults sink.new) }
    {
        self.reader.feed(alloc, line)?;
        let progress = self.reader.progress();
        self.session_writer.go_on(rt, alloc, progress, sink, gate)
    }

    // Feeds a piece of the script, line by line. After the line `end` the rest of the piece is fed at once.
    fn read<R: Wait, K: Sink, G: Gate>(
        &mut self,
        rt: &R,
        alloc: Global,
        sink: &mut K,
        gate: &G,
        piece: &[u8],
    ) -> Result<(), Stop>
        requires { (text emitted : List ℕ) × SessionAt text emitted self.old }
        ensures goes { (start : Option (List ℕ)) (text emitted : List ℕ) → SessionAt text emitted self.old
            → Appends start (K.held sink.old) emitted
            → SessionGoes result start (K.held sink.new) (text ++ piece.now) self.new }
        ensures counted { CountsStop result (K.faults sink.old) (K.faults sink.new) }
    {
        let mut left = piece;
        while let Some((line, rest)) = next_line(self.session_writer.is_over(), left) {
            self.read_line(rt, alloc, sink, gate, line)?;
            left = rest;
        }
        self.reader.feed(alloc, left)?;
        Ok(())
    }

    // Reads the script to the end of the input, or to one byte more than a script may have. The sink is flushed before
    // the source is asked for more.
    fn read_all<R: Wait, S: Source, K: Sink, G: Gate>(
        &mut self,
        rt: &R,
        alloc: Global,
        source: &mut S,
        sink: &mut K,
        gate: &G,
    ) -> Result<(), Stop>
        requires { SessionAt [] [] self.old }
        ensures reads { SessionReads result (S.left source.old) (S.left source.new) (K.held sink.old) (K.held sink.new)
            self.new }
        ensures read_counted { CountsReadStop result (S.faults source.old) (S.faults source.new) }
        ensures counted { CountsStop result (K.faults sink.old) (K.faults sink.new) }
    {
        let mut piece = [0; PIECE];
        let mut taken = 0;
        while taken <= MOST_SCRIPT_BYTES {
            let most = PIECE.min(MOST_SCRIPT_BYTES + 1 - taken);
            let Ok(count) = source.take(&mut piece[..most]) else {
                return Err(Stop::ReadFault);
            };
            if count == 0 {
                return Ok(());
            }
            self.read(rt, alloc, sink, gate, &piece[..count])?;
            sink.flush()?;
            taken += count;
        }
        Ok(())
    }
}

// Checks that the text that the reader was fed is a script.
fn finish(reader: ScriptReader) -> Result<(), Stop>
    requires { (text : List ℕ) × HasFed text reader }
    ensures { (text : List ℕ) → HasFed text reader → Finishes text result }
{
    match reader.finish() {
        Ok(script) => {
            // The program ends after this, and the system then frees the script's memory at once.
            mem::forget(script);
            Ok(())
        }
        Err(unread) => match unread.error {
            ScriptError::Fault(fault) => Err(Stop::Refused(fault)),
            ScriptError::NoMemory => Err(Stop::NoMemory),
        },
    }
}

// Reads the script that the source gives, and then closes the run.
fn run_session<R: Wait, S: Source, K: Sink, G: Gate>(
    rt: &R,
    alloc: Global,
    source: &mut S,
    sink: &mut K,
    gate: &G,
) -> Result<(), Stop>
    ensures ends { SessionEnds result (S.left source.old) (S.left source.new) (K.held sink.old) (K.held sink.new) }
    ensures read_counted { CountsReadStop result (S.faults source.old) (S.faults source.new) }
    ensures counted { CountsStop result (K.faults sink.old) (K.faults sink.new) }
{
    let mut session = Session::new(alloc);
    let read = session.read_all(rt, alloc, source, sink, gate);
    session.session_writer.close(rt);
    match read {
        Ok(()) => finish(session.reader),
        Err(stop) => Err(stop),
    }
}

/// Makes the events of a script's only caller as their lines come, and writes each event's transcript line at once.
pub(crate) fn run_live<R: Wait, S: Source, K: Sink, G: Gate>(
    rt: &R,
    alloc: Global,
    source: &mut S,
    sink: &mut K,
    gate: &G,
) -> Status
    ensures ends { LiveEnds result (S.left source.old) (S.left source.new) (K.held sink.old) (K.held sink.new) }
    ensures read_counted { CountsReadFault result (S.faults source.old) (S.faults source.new) }
    ensures counted { CountsWriteFault result (K.faults sink.old) (K.faults sink.new) }
{
    match run_session(rt, alloc, source, sink, gate) {
        Ok(()) => Status::Done,
        Err(stop) => stop.answer(sink),
    }
}
