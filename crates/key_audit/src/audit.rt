//! The program's call: it takes the words of a command line, reads the input, and writes the answer.
ghost use Rattle.std.specs.Prelude.{◌≡◌, ◌↔◌, ◌⊎◌, []};
ghost use Rattle.io_edges.specs.Faults.{Rose};
ghost use Rattle.tool_ends.specs.Ends.{CountsReadFault, CountsWriteFault};
ghost use Rattle.tool_ends.specs.Reads.{WritesEnds};
ghost use Rattle.key_audit.specs.Commands.{Asks, IsNoForm};
ghost use Rattle.key_audit.specs.Outcome.{AuditEnds, ListedOf};

use crate::answer::answer_text;
use crate::ask::{Ask, ask_of};
use crate::asked::missing_text;
use crate::book::{AuditedBook, audited_book};
use event_script::Script;
use io_edges::{Sink, Source};
use std::alloc::Global;
use tool_ends::pair::read_pair;
use tool_ends::short_lines::no_line;
use tool_ends::{Status, end_output, put_answer, put_line, put_refusal};
use transcript_text::Transcript;

// Writes the answer to `ask` about the transcript `t`. The function takes what the answer needs from `t`, frees `t`,
// and then makes the answer.
fn tell<K: Sink>(alloc: Global, ask: Ask, script: &Script, t: Transcript, sink: &mut K) -> Status
    ensures ends { WritesEnds (ListedOf ask script.now t) result (K.held sink.old) (K.held sink.new) }
    ensures counted { CountsWriteFault result (K.faults sink.old) (K.faults sink.new) }
    ensures silent { result ≡ Status.NoMemory → sink.new ≡ sink.old }
{
    match audited_book(alloc, script, t) {
        Ok(AuditedBook::Lawful(book)) => match answer_text(alloc, ask, script, &book) {
            Ok(Some(text)) => put_answer(Status::Done, &text, sink),
            Ok(None) => put_answer(Status::No, missing_text(ask).as_bytes(), sink),
            Err(_) => Status::NoMemory,
        },
        Ok(AuditedBook::Unlawful(clause)) => put_line(Status::No, &no_line(clause.number()), sink),
        Err(_) => Status::NoMemory,
    }
}

// Reads a script and a transcript from the source, and writes the answer to the command.
fn audit_input<S: Source, K: Sink>(alloc: Global, ask: Ask, source: &mut S, sink: &mut K) -> Status
    ensures ends { AuditEnds ask result (S.left source.old) (S.left source.new) (K.held sink.old) (K.held sink.new) }
    ensures silent { (result ≡ Status.ReadFault) ⊎ (result ≡ Status.NoMemory) → sink.new ≡ sink.old }
    ensures read_counted { CountsReadFault result (S.faults source.old) (S.faults source.new) }
    ensures counted { CountsWriteFault result (K.faults sink.old) (K.faults sink.new) }
{
    match read_pair(alloc, source) {
        Ok((script, t)) => tell(alloc, ask, &script, t, sink),
        Err(why) => put_refusal(&why, sink),
    }
}

/// Runs the command that the words spell. The input is a script and then a transcript, as for `rng check`. The script
/// ends at its first line `end`.
///
/// - `keys`: a row for each key that the run made.
/// - `live T`: the keys and rests of batches in memory after stamp T. Then the later keys, and the bytes of later
///   lines, that can be computed from these keys and rests.
/// - `live C.E`: the same output for the moment when event E of caller C is over.
/// - `line C.E`: the rows that the bytes of event E of caller C come from, and the extractions of their roots.
///
/// T is below 2^64, and C and E are below 2^32. All three are spelt as in a script.
///
/// - `Usage`: the words are no command. The program reads and writes nothing.
/// - `ReadFault`: the source failed. Nothing is written.
/// - `Refused`: the input has a fault. The line with the first fault was written, as `rng check` writes it.
/// - `No`: the transcript is not lawful for the script, and the line with the number of the first clause that fails was
///   written. Or the transcript is lawful, but lacks the line that the command names, or a visit with the named stamp
///   or a higher one: `no line` or `no stamp` was written.
/// - `WriteFault`: the sink failed at a put, or at the flush after the last put. In this call the sink got a prefix of
///   the output.
/// - `NoMemory`: memory ran out. Nothing is written. `live` would also end with this status if a held key had no row.
///   It is not proved that each held key has a row.
/// - `Done`: the input was read to its end, the transcript is lawful and has the stamp or the line that the command
///   names, and the whole output was written.
///
/// If the whole output was written, the sink has handed all of it on.
pub fn audit<S: Source, K: Sink>(
    alloc: Global,
    words: &[String],
    source: &mut S,
    sink: &mut K,
) -> Status
    ensures usage { result ≡ Status.Usage ↔ IsNoForm words.now }
    ensures unread { result ≡ Status.Usage → source.new ≡ source.old }
    ensures silent { (result ≡ Status.Usage) ⊎ (result ≡ Status.ReadFault) ⊎ (result ≡ Status.NoMemory)
        → sink.new ≡ sink.old }
    ensures read_fault { result ≡ Status.ReadFault → Rose (S.faults source.old) (S.faults source.new) }
    ensures no_read_fault { (result ≡ Status.ReadFault → ⊥) → S.faults source.new ≡ S.faults source.old }
    ensures write_fault { result ≡ Status.WriteFault → Rose (K.faults sink.old) (K.faults sink.new) }
    ensures no_write_fault { (result ≡ Status.WriteFault → ⊥) → K.faults sink.new ≡ K.faults sink.old }
    ensures handed_on { (result ≡ Status.Done) ⊎ (result ≡ Status.No) ⊎ (result ≡ Status.Refused)
        → K.kept_back sink.new ≡ [] }
    ensures audited { (ask : Ask) → Asks words.now ask
        → AuditEnds ask result (S.left source.old) (S.left source.new) (K.held sink.old) (K.held sink.new) }
{
    match ask_of(words) {
        None => Status::Usage,
        Some(ask) => end_output(audit_input(alloc, ask, source, sink), sink),
    }
}
