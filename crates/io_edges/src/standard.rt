//! Readers and writers of the standard library as sources and sinks.
ghost use Rattle.std.specs.Prelude.{◌≡◌, ◌<◌, [], length, take, IfOk, OnOk, OnErr};
ghost use Rattle.std.specs.Io.{ReadsAtMost, WritesAtMost};
ghost use Rattle.std.specs.Io.Buffered.{writer_buffer, writer_contents};
ghost use Rattle.std.specs.Io.KnownBytes.{Keeps, Appends, Consumes, IsAtEnd};
ghost use Rattle.io_edges.specs.Faults.{Rose, next_count};
ghost use Rattle.io_edges.specs.Standard.{source_reader, source_faults, sink_writer, sink_faults};

use crate::{Failed, Sink, Source};
use std::io::{BufWriter, ErrorKind, Read, Write};

/// A reader as a source. The source exposes its remaining bytes if the reader does; standard input exposes none.
#[derive(Drop)]
pub struct StdSource<I: Read + Drop> {
    reader: I,
    faults: u64,
}

impl<I: Read + Drop> StdSource<I> {
    /// A source that takes from the reader, with no fault counted.
    pub fn of(reader: I) -> StdSource<I>
        ensures reader { source_reader result ≡ reader }
        ensures faults { source_faults result ≡ 0 }
    {
        StdSource { reader, faults: 0 }
    }
}

impl<I: Read + Drop> Source for StdSource<I> {
    ghost left = { λ s. I.remaining s.reader };

    ghost faults = { λ s. s.faults };

    // A read that a signal interrupts is retried. After 2^64 - 1 interrupted tries the source counts a fault.
    fn take(&mut self, buf: &mut [u8]) -> Result<usize, Failed>
        // The source counts a fault if and only if the call fails.
        ensures not_counted { OnOk result (source_faults self.new ≡ source_faults self.old) }
        ensures counted { OnErr result (source_faults self.new ≡ next_count (source_faults self.old)) }

        // The clauses that the trait `Source` requires.
        ensures bound { ReadsAtMost result buf.new }
        ensures taken { IfOk result (λ n.
            Consumes (I.remaining (source_reader self.old)) (I.remaining (source_reader self.new)) (take n buf.new)) }
        ensures end { IfOk result (λ n.
            n ≡ 0 → 0 < length buf.old → IsAtEnd (I.remaining (source_reader self.new))) }
        ensures not_taken { OnErr result
            (Keeps (I.remaining (source_reader self.old)) (I.remaining (source_reader self.new))) }
        ensures cause { OnErr result (Rose (source_faults self.old) (source_faults self.new)) }
    {
        for _ in 0..u64::MAX {
            match self.reader.read(buf) {
                Ok(count) => return Ok(count),
                Err(e) if e.kind() == ErrorKind::Interrupted => {}
                Err(_) => break,
            }
        }
        self.faults = self.faults.saturating_add(1);
        Err(Failed)
    }
}

/// A writer as a sink. The sink exposes its bytes if the writer does; standard output exposes none. The writer buffers
/// the pieces that are put, but a piece as long as the buffer bypasses the buffer. The bytes that the sink holds end
/// with the buffered bytes.
#[derive(Drop)]
pub struct StdSink<O: Write + Drop> {
    writer: BufWriter<O>,
    faults: u64,
}

impl<O: Write + Drop> StdSink<O> {
    /// A sink that puts to the writer, with no fault counted.
    pub fn of(writer: BufWriter<O>) -> StdSink<O>
        ensures writer { sink_writer result ≡ writer }
        ensures faults { sink_faults result ≡ 0 }
    {
        StdSink { writer, faults: 0 }
    }
}

impl<O: Write + Drop> Sink for StdSink<O> {
    ghost held = { λ s. writer_contents O.contents s.writer };

    ghost kept_back = { λ s. writer_buffer s.writer };

    ghost faults = { λ s. s.faults };

    // A write that a signal interrupts is retried. If a write takes no byte of a piece that is not empty, this is a
    // fault. Without this rule, a caller that puts until all is written might never end.
    fn put(&mut self, piece: &[u8]) -> Result<usize, Failed>
        // The sink counts a fault if and only if the call fails.
        ensures not_counted { OnOk result (sink_faults self.new ≡ sink_faults self.old) }
        ensures counted { OnErr result (sink_faults self.new ≡ next_count (sink_faults self.old)) }

        // The clauses that the trait `Sink` requires.
        ensures bound { WritesAtMost result piece.now }
        ensures some { IfOk result (λ n. 0 < length piece.now → 0 < n) }
        ensures appended { IfOk result (λ n. Appends (writer_contents O.contents (sink_writer self.old))
            (writer_contents O.contents (sink_writer self.new)) (take n piece.now)) }
        ensures not_appended { OnErr result (Keeps (writer_contents O.contents (sink_writer self.old))
            (writer_contents O.contents (sink_writer self.new))) }
        ensures cause { OnErr result (Rose (sink_faults self.old) (sink_faults self.new)) }
    {
        for _ in 0..u64::MAX {
            match self.writer.write(piece) {
                Ok(0) if !piece.is_empty() => break,
                Ok(count) => return Ok(count),
                Err(e) if e.kind() == ErrorKind::Interrupted => {}
                Err(_) => break,
            }
        }
        self.faults = self.faults.saturating_add(1);
        Err(Failed)
    }

    // A flush that a signal interrupts is retried, as `put` retries a write.
    fn flush(&mut self) -> Result<(), Failed>
        ensures not_counted { OnOk result (sink_faults self.new ≡ sink_faults self.old) }
        ensures counted { OnErr result (sink_faults self.new ≡ next_count (sink_faults self.old)) }

        // The clauses that the trait `Sink` requires.
        ensures handed_on { OnOk result (writer_buffer (sink_writer self.new) ≡ []) }
        ensures kept { Keeps (writer_contents O.contents (sink_writer self.old))
            (writer_contents O.contents (sink_writer self.new)) }
        ensures cause { OnErr result (Rose (sink_faults self.old) (sink_faults self.new)) }
    {
        for _ in 0..u64::MAX {
            match self.writer.flush() {
                Ok(()) => return Ok(()),
                Err(e) if e.kind() == ErrorKind::Interrupted => {}
                Err(_) => break,
            }
        }
        self.faults = self.faults.saturating_add(1);
        Err(Failed)
    }
}
