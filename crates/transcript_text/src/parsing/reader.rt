//! A reader to which the text of a transcript is fed piece by piece.
ghost use Rattle.std.specs.Prelude.{◌≡◌, ◌+◌, ◌<◌, ◌≤◌, ◌^◌, ◌∷◌, ◌++◌, ℕ, [], List, length, true, IfOk, OnOk};
ghost use Rattle.transcript_text.specs.Feeding.{HasFed, IsAfter, most_lines};
ghost use Rattle.transcript_text.specs.ReadTexts.{Answers};
ghost use Rattle.transcript_text.specs.Reading.{lacks};

use crate::parsing::error::TextError;
use crate::parsing::lexing::cut;
use crate::parsing::so_far::{SoFar, TranscriptStage};
use crate::transcript::Transcript;
use std::alloc::{AllocError, Global};

/// A reader for the text of a transcript, which comes in pieces of any length. It buffers at most one incomplete line.
#[derive(Drop)]
pub struct TranscriptReader {
    so_far: SoFar,
    // The bytes of a line whose line feed has not been fed yet.
    rest: Vec<u8>,
}

impl TranscriptReader {
    /// A reader that has read nothing. It reads a transcript of at most `most` lines, not counting the first and the
    /// last.
    ///
    /// # Errors
    ///
    /// `AllocError` if there is no memory for the reader.
    pub fn new(alloc: Global, most: u32) -> Result<TranscriptReader, AllocError>
        ensures fed { IfOk result (λ reader. HasFed [] reader) }
        ensures most { IfOk result (λ reader. most_lines reader ≡ most) }
    {
        Ok(TranscriptReader {
            so_far: SoFar::nothing(alloc, most)?,
            rest: Vec::new(alloc),
        })
    }

    // Reads a line. Its first bytes are in `self.rest`, and `end` is the rest of the line, without the line feed.
    fn end_line(&mut self, alloc: Global, end: &[u8]) -> Result<(), AllocError>
        requires short { length self.old.rest.items + length end.now < 2 ^ 31 }
        requires few { self.old.so_far.lines < 2 ^ 31 }
        ensures fed { OnOk result ((text following : List ℕ) → lacks 10 end.now ≡ true
            → IsAfter text self.old (end.now ++ 10 ∷ following) → IsAfter text self.new following) }
        ensures most { OnOk result (most_lines self.new ≡ most_lines self.old) }
    {
        if self.rest.is_empty() {
            return self.so_far.take(alloc, end);
        }
        self.rest.extend_from_slice(end)?;
        self.so_far.take(alloc, &self.rest)?;
        self.rest.clear();
        Ok(())
    }

    /// Reads one more piece of the text, which has at most 2^31 bytes in all.
    ///
    /// # Errors
    ///
    /// `AllocError` if there is no memory for a line. The reader must not be used after this error.
    pub fn feed(&mut self, alloc: Global, piece: &[u8]) -> Result<(), AllocError>
        requires short { (text : List ℕ) × HasFed text self.old × (length text + length piece.now ≤ 2 ^ 31) }
        ensures fed { OnOk result ((text : List ℕ) → HasFed text self.old → HasFed (text ++ piece.now) self.new) }
        ensures most { OnOk result (most_lines self.new ≡ most_lines self.old) }
    {
        let mut unread = piece;
        while let Some((end, following)) = cut(b'\n', unread) {
            self.end_line(alloc, end)?;
            unread = following;
        }
        self.rest.extend_from_slice(unread)?;
        Ok(())
    }

    /// The transcript whose text is all that was fed. The text has at most 2^31 bytes.
    ///
    /// # Errors
    ///
    /// `Fault` with the first faulty line if the text is not that of a transcript. `TooManyLines` if the transcript has
    /// more lines than the limit. `NoMemory` if there is no memory for the transcript.
    pub fn finish(self) -> Result<Transcript, TextError>
        requires short { (text : List ℕ) × HasFed text self × (length text ≤ 2 ^ 31) }
        ensures { (text : List ℕ) → HasFed text self → Answers (most_lines self) text result }
    {
        let TranscriptReader { so_far, rest } = self;
        match so_far.stage {
            TranscriptStage::Head => Err(TextError::Fault { line: 1 }),
            TranscriptStage::Lines => Err(TextError::Fault {
                line: so_far.lines + 2,
            }),
            TranscriptStage::Ended if rest.is_empty() => so_far.into_transcript(),
            TranscriptStage::Ended => Err(TextError::Fault {
                line: so_far.lines + 3,
            }),
            TranscriptStage::Faulty { line } => Err(TextError::Fault { line }),
        }
    }
}
