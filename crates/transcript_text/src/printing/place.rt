//! Positions in the text of a transcript. The text is made piece by piece, from each position to the next.
ghost use Rattle.std.specs.Prelude.{◌≡◌, ◌<◌, ◌≤◌, ◌^◌, ◌++◌, [], List, codes, drop, length, slice_get, IfSome, IsTrue, IsFalse, MatchBool};
ghost use Rattle.hex.specs.Hex.{encode_lower};
ghost use Rattle.key_names.specs.Transcripts.SeenLine.{SeenLine, bytes_in};
ghost use Rattle.key_names.specs.Texts.TranscriptGrammar.{transcript_text};
ghost use Rattle.transcript_text.specs.Places.{HasShown, HasShownOf, IsIn, data_left, line_left, lines_left, most_pieces, text_left};
ghost use Rattle.transcript_text.specs.Views.{seen_shown};

use crate::caller_lines::CallerLines;
use crate::parsing::head::append_head;
use crate::printing::line_buffer::Piece;
use crate::transcript::Transcript;
use crate::view::Shown;

/// What part of a transcript's text comes after a position.
#[derive(Clone, Copy)]
pub(crate) enum TextAfter {
    /// The first line of the text.
    Head,
    /// The rest of a caller's lines, the lines of later callers, and the last line, `end`.
    Lines,
    Nothing,
}

/// A position in the text of a transcript, at the edge of a piece.
#[derive(Clone, Copy)]
pub(crate) struct TextPosition {
    pub(crate) coming: TextAfter,
    // The caller of the next line, the number of this line among the caller's lines, and how many bytes of the line's
    // data were put in pieces. If a part of the line was put, this part has at least one byte of the data.
    pub(crate) caller: u32,
    pub(crate) line: usize,
    pub(crate) shown: usize,
}

// The hints inline these functions into the loop over the pieces. With a call for each line, the position would be kept
// in memory, not in registers.
impl TextPosition {
    /// The position before the first byte of the text.
    pub(crate) fn start() -> TextPosition
        ensures text { (callers : List (List SeenLine)) → text_left result callers ≡ transcript_text callers }
        ensures within { (callers : List (List SeenLine)) → IsIn result callers }
    {
        TextPosition {
            coming: TextAfter::Head,
            caller: 0,
            line: 0,
            shown: 0,
        }
    }

    /// Whether the position is the end of the text.
    #[tactic(auto, using(crate::proofs::Places::text_ends, crate::proofs::Places::some_left))]
    pub(crate) fn is_end(self) -> bool
        ensures { (callers : List (List SeenLine)) → MatchBool result (text_left self callers ≡ [])
            (0 < length (text_left self callers)) }
    {
        matches!(self.coming, TextAfter::Nothing)
    }

    // Puts the text of the next line up to its data in the piece, unless an earlier piece has this text.
    #[tactic(auto, using(crate::proofs::Places::head_put, crate::proofs::Places::begun))]
    #[inline(always)]
    fn begin(self, lines: &CallerLines, piece: &mut Piece)
        requires some { self.line < length lines.now.lines }
        requires empty { piece.old ≡ [] }
        ensures text { IfSome (slice_get lines.now.lines self.line) (λ line.
            (piece.new ++ data_left self.shown line.shown) ++ codes "\n" ≡ line_left self.shown line) }
        ensures short { length piece.new ≤ 1400 }
    {
        if self.shown == 0 {
            append_head(piece, lines.line(self.line));
        }
    }

    // Puts as many of a line's remaining bytes as the piece has room for. Returns whether these are all remaining
    // bytes, and the piece also has room for the line feed.
    fn show_bytes(&mut self, bytes: &[u8], piece: &mut Piece) -> bool
        requires room { length piece.old ≤ 2048 }
        requires within { self.old.shown ≤ length bytes.now }
        requires some { 0 < length bytes.now }
        ensures all { IsTrue result → piece.new ≡ piece.old ++ encode_lower (drop self.old.shown bytes.now) }
        ensures room { IsTrue result → length piece.new < 4096 }
        ensures part { IsFalse result → piece.new ++ encode_lower (drop self.new.shown bytes.now)
            ≡ piece.old ++ encode_lower (drop self.old.shown bytes.now) }
        ensures more { IsFalse result → length piece.old < length piece.new }
        ensures some { IsFalse result → 0 < self.new.shown }
        ensures within { IsFalse result → self.new.shown ≤ length bytes.now }
        ensures coming { self.new.coming ≡ self.old.coming }
        ensures caller { self.new.caller ≡ self.old.caller }
        ensures line { self.new.line ≡ self.old.line }
    {
        let (_, rest) = bytes.split_at(self.shown);
        let count = rest.len().min(piece.room() / 2);
        let (front, _) = rest.split_at(count);
        piece.append_hex(front);
        self.shown += count;
        count == rest.len() && piece.room() > 0
    }

    // Puts as much of a line's remaining data as the piece has room for. Returns whether this is all of the remaining
    // data, and the piece also has room for the line feed.
    #[tactic(auto, using(crate::proofs::Places::left_of_bytes, crate::proofs::Places::none_shown), unfolding(key_names::specs::Texts::TranscriptGrammar::shown_text))]
    #[inline(always)]
    pub(crate) fn show(&mut self, shown: Shown<'_>, piece: &mut Piece) -> bool
        requires room { length piece.old ≤ 2048 }
        requires within { self.old.shown ≤ length (bytes_in (seen_shown shown)) }
        ensures all { IsTrue result → piece.new ≡ piece.old ++ data_left self.old.shown (seen_shown shown.entry) }
        ensures room { IsTrue result → length piece.new < 4096 }
        ensures part { IsFalse result → piece.new ++ data_left self.new.shown (seen_shown shown.entry)
            ≡ piece.old ++ data_left self.old.shown (seen_shown shown.entry) }
        ensures more { IsFalse result → length piece.old < length piece.new }
        ensures some { IsFalse result → 0 < self.new.shown }
        ensures within { IsFalse result → self.new.shown ≤ length (bytes_in (seen_shown shown.entry)) }
        ensures coming { self.new.coming ≡ self.old.coming }
        ensures caller { self.new.caller ≡ self.old.caller }
        ensures line { self.new.line ≡ self.old.line }
    {
        match shown {
            Shown::Count(number) => {
                piece.append_number(number as u64);
                true
            }
            Shown::None | Shown::Bytes([]) => {
                piece.push(b'-');
                true
            }
            Shown::Bytes(bytes) => self.show_bytes(bytes, piece),
        }
    }

    // Puts the next part of the current line in the piece. If there is room, this part reaches the line's end.
    #[inline(always)]
    fn next_of_line(&mut self, lines: &CallerLines, piece: &mut Piece)
        requires some { self.old.line < length lines.now.lines }
        requires few { length lines.now.lines < 2 ^ 64 }
        requires within { HasShown self.old.shown (drop self.old.line lines.now.lines) }
        requires empty { piece.old ≡ [] }
        ensures text { lines_left self.old.shown (drop self.old.line lines.now.lines)
            ≡ piece.new ++ lines_left self.new.shown (drop self.new.line lines.now.lines) }
        ensures some { 0 < length piece.new }
        ensures line { self.new.line ≤ length lines.now.lines }
        ensures within { HasShown self.new.shown (drop self.new.line lines.now.lines) }
        ensures coming { self.new.coming ≡ self.old.coming }
        ensures caller { self.new.caller ≡ self.old.caller }
    {
        self.begin(lines, piece);
        // The data are looked up only here, so that they are not held while the head is written.
        if self.show(lines.line(self.line).shown, piece) {
            piece.push(b'\n');
            self.line += 1;
            self.shown = 0;
        }
    }

    // Puts the next part of a caller's line in the piece, or goes on to the next caller, or puts the last line, `end`.
    #[inline(always)]
    fn next_of_callers(&mut self, t: &Transcript, piece: &mut Piece)
        requires caller { self.old.caller ≤ length t.now }
        requires within { HasShownOf self.old.line self.old.shown (drop self.old.caller t.now) }
        requires empty { piece.old ≡ [] }
        requires lines { self.old.coming ≡ TextAfter.Lines }
        ensures text { text_left self.old t.now ≡ piece.new ++ text_left self.new t.now }
        ensures within { IsIn self.new t.now }
        ensures fewer { most_pieces self.new t.now < most_pieces self.old t.now }
    {
        if self.caller == t.callers() {
            piece.append(b"end\n");
            self.coming = TextAfter::Nothing;
            return;
        }
        let lines = t.caller(self.caller);
        if self.line == lines.len() {
            self.caller += 1;
            self.line = 0;
            return;
        }
        self.next_of_line(lines, piece);
    }

    /// Goes on to the next position, and replaces the content of `piece` by the text between the two positions. Returns
    /// whether there was a next position. A piece has bytes of at most one line, and may be empty.
    #[inline(always)]
    pub(crate) fn go_on(&mut self, t: &Transcript, piece: &mut Piece) -> bool
        requires { IsIn self.old t.now }
        ensures text { text_left self.old t.now ≡ piece.new ++ text_left self.new t.now }
        ensures within { IsIn self.new t.now }
        ensures fewer { IsTrue result → most_pieces self.new t.now < most_pieces self.old t.now }
        ensures ended { IsFalse result → text_left self.old t.now ≡ [] }
    {
        piece.clear();
        match self.coming {
            TextAfter::Head => {
                piece.append(b"rngtranscript 1\n");
                self.coming = TextAfter::Lines;
                true
            }
            TextAfter::Lines => {
                self.next_of_callers(t, piece);
                true
            }
            TextAfter::Nothing => false,
        }
    }
}
