//! Writing a transcript to a sink.
ghost use Rattle.std.specs.Prelude.{◌≡◌, OnOk, OnErr};
ghost use Rattle.std.specs.Io.KnownBytes.{Appends};
ghost use Rattle.io_edges.specs.Faults.{Rose};
ghost use Rattle.io_edges.specs.Pieces.{AppendsPrefix};
ghost use Rattle.key_names.specs.Texts.TranscriptGrammar.{transcript_text};

use crate::printing::line_buffer::Piece;
use crate::printing::place::TextPosition;
use crate::transcript::Transcript;
use io_edges::{Failed, Sink, put_all};

/// Writes the text of a transcript without allocating. Each put writes at most 4,096 bytes, all of one line (tested).
///
/// # Errors
///
/// `Failed` if the sink failed and counted the fault. The sink then has a prefix of the text.
pub fn write_all<K: Sink>(sink: &mut K, transcript: &Transcript) -> Result<(), Failed>
    ensures whole { OnOk result (Appends (K.held sink.old) (K.held sink.new) (transcript_text transcript.now)) }
    ensures prefix { AppendsPrefix (K.held sink.old) (K.held sink.new) (transcript_text transcript.now) }
    ensures cause { OnErr result (Rose (K.faults sink.old) (K.faults sink.new)) }
    ensures not_counted { OnOk result (K.faults sink.new ≡ K.faults sink.old) }
{
    let mut piece = Piece::empty();
    let mut place = TextPosition::start();
    while place.go_on(transcript, &mut piece) {
        put_all(sink, piece.text())?;
    }
    Ok(())
}
