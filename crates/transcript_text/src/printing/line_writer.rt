//! Writing a transcript line by line, as the lines are made.
ghost use Rattle.std.specs.Prelude.{◌≡◌, ◌≤◌, OnOk, OnErr, codes, length};
ghost use Rattle.std.specs.Io.KnownBytes.{Appends};
ghost use Rattle.io_edges.specs.Faults.{Rose};
ghost use Rattle.io_edges.specs.Pieces.{AppendsPrefix};
ghost use Rattle.transcript_text.specs.Lines.{whole_line};
ghost use Rattle.transcript_text.specs.Views.{seen};

use crate::parsing::head::append_head;
use crate::printing::line_buffer::Piece;
use crate::printing::place::{TextAfter, TextPosition};
use crate::view::LineView;
use io_edges::{Failed, Sink, put_all};

/// Writes lines one by one, and keeps none of them. Each put writes at most 4,096 bytes, all of one line (tested).
///
/// A call returns `Failed` if the sink failed and counted the fault. The sink then has a prefix of this call's text.
/// The next call writes its own text from the start.
#[derive(Drop)]
pub struct LineWriter {
    // A buffer for the bytes of one put. Bytes of an earlier line that remain in it are never put again.
    piece: Piece,
}

impl LineWriter {
    /// A writer that has written nothing.
    pub fn new() -> LineWriter {
        LineWriter {
            piece: Piece::empty(),
        }
    }

    /// Writes the first line of a transcript, `rngtranscript 1`.
    pub fn begin<K: Sink>(sink: &mut K) -> Result<(), Failed>
        ensures whole { OnOk result (Appends (K.held sink.old) (K.held sink.new) (codes "rngtranscript 1\n")) }
        ensures prefix { AppendsPrefix (K.held sink.old) (K.held sink.new) (codes "rngtranscript 1\n") }
        ensures cause { OnErr result (Rose (K.faults sink.old) (K.faults sink.new)) }
        ensures not_counted { OnOk result (K.faults sink.new ≡ K.faults sink.old) }
    {
        put_all(sink, b"rngtranscript 1\n")
    }

    /// Writes a line with its line feed. A line has at most 20 steps.
    pub fn write<K: Sink>(&mut self, sink: &mut K, line: LineView<'_>) -> Result<(), Failed>
        requires few { length line.steps.now ≤ 20 }
        ensures whole { OnOk result (Appends (K.held sink.old) (K.held sink.new) (whole_line (seen line.entry))) }
        ensures prefix { AppendsPrefix (K.held sink.old) (K.held sink.new) (whole_line (seen line.entry)) }
        ensures cause { OnErr result (Rose (K.faults sink.old) (K.faults sink.new)) }
        ensures not_counted { OnOk result (K.faults sink.new ≡ K.faults sink.old) }
    {
        self.piece.clear();
        append_head(&mut self.piece, line);
        let mut place = TextPosition {
            coming: TextAfter::Lines,
            caller: 0,
            line: 0,
            shown: 0,
        };
        while !place.show(line.shown, &mut self.piece) {
            put_all(sink, self.piece.text())?;
            self.piece.clear();
        }
        self.piece.push(b'\n');
        put_all(sink, self.piece.text())
    }

    /// Writes the last line of a transcript, `end`.
    pub fn end<K: Sink>(sink: &mut K) -> Result<(), Failed>
        ensures whole { OnOk result (Appends (K.held sink.old) (K.held sink.new) (codes "end\n")) }
        ensures prefix { AppendsPrefix (K.held sink.old) (K.held sink.new) (codes "end\n") }
        ensures cause { OnErr result (Rose (K.faults sink.old) (K.faults sink.new)) }
        ensures not_counted { OnOk result (K.faults sink.new ≡ K.faults sink.old) }
    {
        put_all(sink, b"end\n")
    }
}
