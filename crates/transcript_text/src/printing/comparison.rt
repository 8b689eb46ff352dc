//! A text that comes piece by piece, compared with the text of a transcript.
ghost use Rattle.std.specs.Prelude.{◌≡◌, ◌↔◌, ◌+◌, ◌<◌, ◌≤◌, ◌^◌, ◌++◌, [], List, ℕ, drop, take, length, IsTrue, IfOk};
ghost use Rattle.key_names.specs.Texts.TranscriptGrammar.{transcript_text};
ghost use Rattle.transcript_text.specs.Comparing.{IsOther};
ghost use Rattle.transcript_text.specs.Feeding.{HasFed, most_lines};

use crate::parsing::reader::TranscriptReader;
use crate::printing::line_buffer::Piece;
use crate::printing::place::TextPosition;
use crate::transcript::Transcript;
use std::alloc::{AllocError, Global};
use std::marker::Model;

/// Compares a text that comes piece by piece with the text of a transcript. A comparison keeps the number of equal
/// bytes, and no byte of the compared text.
#[derive(Drop)]
pub struct Comparison {
    made: Transcript,
    // The number of bytes of the two texts that were found equal.
    same: usize,
    // The piece of the transcript's text that contains the next byte, the position of that byte in the piece, and the
    // place after the piece.
    piece: Piece,
    from: usize,
    place: TextPosition,
}

impl Model for Comparison {
    ghost use Rattle.std.specs.Prelude.{take};
    ghost use Rattle.key_names.specs.Texts.TranscriptGrammar.{transcript_text};
    ghost use Rattle.transcript_text.specs.Comparing.{Compared, IsBefore};

    ghost Value = { Compared };

    ghost view = { λ c. record { made = c.made; text = take c.same (transcript_text c.made) } };

    ghost invariant = { λ c. IsBefore c.made c.same c.piece c.from c.place };
}

// The bytes of `text` from position `from` on, at most `most` of them.
fn bytes_from(text: &[u8], from: usize, most: usize) -> &[u8]
    requires { from ≤ length text.now }
    ensures bytes { result.now ≡ take most (drop from text.now) }
    ensures some { from < length text.now → 0 < most → 0 < length result.now }
{
    let (_, rest) = text.split_at(from);
    let (front, _) = rest.split_at(rest.len().min(most));
    front
}

impl Comparison {
    /// A comparison with the text of the transcript `made`, before the first byte is compared.
    pub fn with(made: Transcript) -> Comparison
        ensures made { result.made ≡ made }
        ensures text { result.text ≡ [] }
    {
        Comparison {
            made,
            same: 0,
            piece: Piece::empty(),
            from: 0,
            place: TextPosition::start(),
        }
    }

    // Compares the first of `bytes` with what is left of one piece of the transcript's text. Returns how many bytes
    // were compared, or 0 if one of them differs.
    fn compare_front(&mut self, bytes: &[u8]) -> usize
        requires some { 0 < length bytes.now }
        requires short { length self.old.text + length bytes.now ≤ 2 ^ 31 }
        ensures few { result ≤ length bytes.now }
        ensures made { self.new.made ≡ self.old.made }
        ensures text { self.new.text ≡ self.old.text ++ take result bytes.now }
        ensures others { result ≡ 0 → IsOther self.old.made self.old.text bytes.now }
    {
        while self.from == self.piece.text().len() {
            let goes_on = self.place.go_on(&self.made, &mut self.piece);
            self.from = 0;
            if !goes_on {
                return 0;
            }
        }
        let next = bytes_from(self.piece.text(), self.from, bytes.len());
        let count = next.len();
        let (front, _) = bytes.split_at(count);
        if front == next {
            self.from += count;
            self.same += count;
            return count;
        }
        0
    }

    /// Compares more bytes of a text, which has at most 2^31 bytes in all. Returns how many were found equal: all of
    /// them, unless the texts differ.
    pub fn compare(&mut self, bytes: &[u8]) -> usize
        requires short { length self.old.text + length bytes.now ≤ 2 ^ 31 }
        ensures few { result ≤ length bytes.now }
        ensures made { self.new.made ≡ self.old.made }
        ensures text { self.new.text ≡ self.old.text ++ take result bytes.now }
        ensures others { result < length bytes.now → IsOther self.old.made self.old.text bytes.now }
    {
        let mut rest = bytes;
        while !rest.is_empty() {
            let count = self.compare_front(rest);
            if count == 0 {
                break;
            }
            rest = &rest[count..];
        }
        bytes.len() - rest.len()
    }

    /// Whether the text that was compared is the whole text of the transcript.
    pub fn is_whole(&self) -> bool
        ensures { IsTrue result ↔ (self.now.text ≡ transcript_text self.now.made) }
    {
        self.place.is_end() && self.from == self.piece.text().len()
    }

    /// A new reader to which the text compared so far, at most 2^31 bytes, was fed. It reads a transcript of at most
    /// `most` lines, not counting the first and the last.
    ///
    /// # Errors
    ///
    /// `AllocError` if there is no memory for the reader.
    pub fn reader(&self, alloc: Global, most: u32) -> Result<TranscriptReader, AllocError>
        requires { length self.now.text ≤ 2 ^ 31 }
        ensures fed { IfOk result (λ reader. HasFed self.now.text reader) }
        ensures most { IfOk result (λ reader. most_lines reader ≡ most) }
    {
        let mut reader = TranscriptReader::new(alloc, most)?;
        let mut place = TextPosition::start();
        let mut piece = Piece::empty();
        let mut left = self.same;
        while left > 0 && place.go_on(&self.made, &mut piece) {
            let count = piece.text().len().min(left);
            reader.feed(alloc, &piece.text()[..count])?;
            left -= count;
        }
        Ok(reader)
    }
}
