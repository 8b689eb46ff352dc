//! The part of a transcript that was read so far.
ghost use Rattle.std.specs.Prelude.{◌≡◌, ◌+◌, ◌<◌, ◌≤◌, ◌^◌, ◌∷◌, ◌++◌, ℕ, [], List, length, true, codes, vec_len, IfOk, MatchBool, OnOk};
ghost use Rattle.transcript_text.specs.Feeding.{HasEmitted, IsUnread, ConformsAs, ConformsAt, with_line};
ghost use Rattle.transcript_text.specs.ReadTexts.{Answers, IsNoLine};
ghost use Rattle.transcript_text.specs.Reading.{lacks};
ghost use Rattle.transcript_text.specs.declared.parsing.so_far.SoFar.{SoFar};

use crate::caller_lines::CallerLines;
use crate::parsing::error::TextError;
use crate::parsing::grouping::finish;
use crate::parsing::lexing::spells;
use crate::parsing::taking::{pass_line, take_line};
use crate::transcript::Transcript;
use key_names::Trace;
use std::alloc::{AllocError, Global};

/// How far a text was read.
#[derive(Clone, Copy)]
pub(crate) enum TranscriptStage {
    /// Nothing was read: the transcript's first line comes next.
    Head,
    /// The first line was read. Lines of callers may follow, or the last line, `end`.
    Lines,
    /// The last line, `end`, was read.
    Ended,
    /// The text is not that of a transcript, whatever follows. `line` is the number of the first faulty line.
    Faulty { line: u32 },
}

/// What a reader has read of a text. Lines of callers after the first `most` are counted and not kept.
#[derive(Drop)]
pub(crate) struct SoFar {
    pub(crate) stage: TranscriptStage,
    pub(crate) most: u32,
    // The number of lines of callers that were read, kept or not.
    pub(crate) lines: u32,
    pub(crate) done: Vec<CallerLines>,
    pub(crate) current: CallerLines,
    trace: Trace,
}

// The stage after `line`, the first line of a text, was read.
fn after_head(line: &[u8]) -> TranscriptStage
    ensures { (s : SoFar) (text following : List ℕ) → IsUnread s → lacks 10 line.now ≡ true
        → text ≡ line.now ++ 10 ∷ following → ConformsAs result s text following }
{
    if spells(line, b"rngtranscript 1") {
        TranscriptStage::Lines
    } else {
        TranscriptStage::Faulty { line: 1 }
    }
}

impl SoFar {
    /// The state before the first line of a text. At most `most` lines of callers will be kept.
    pub(crate) fn nothing(alloc: Global, most: u32) -> Result<SoFar, AllocError>
        ensures conforms { IfOk result (λ s. ConformsAt s [] []) }
        ensures lines { IfOk result (λ s. s.lines ≡ 0) }
        ensures most { IfOk result (λ s. s.most ≡ most) }
    {
        Ok(SoFar {
            stage: TranscriptStage::Head,
            most,
            lines: 0,
            done: Vec::new(alloc),
            current: CallerLines::with_room(alloc, 0, 0, 0)?,
            trace: Trace::empty(),
        })
    }

    // Whether `line` is a caller's line that may follow the earlier lines. If so, it is kept, unless the limit is
    // reached.
    fn takes(&mut self, alloc: Global, line: &[u8]) -> Result<bool, AllocError>
        requires short { length line.now < 2 ^ 31 }
        ensures taken { IfOk result (λ is_line. MatchBool is_line
            ((text following : List ℕ) → HasEmitted self.old text (line.now ++ 10 ∷ following)
            → HasEmitted (with_line self.new) text following)
            (IsNoLine line.now (vec_len self.old.done))) }
        ensures lines { self.new.lines ≡ self.old.lines }
        ensures most { self.new.most ≡ self.old.most }
    {
        let (done, current, trace) = (&mut self.done, &mut self.current, &mut self.trace);
        if self.lines < self.most {
            return take_line(alloc, done, current, trace, line);
        }
        pass_line(alloc, done, current, trace, line)
    }

    // The stage after `line`, which is not the first line of the text, was read.
    fn after_line(&mut self, alloc: Global, line: &[u8]) -> Result<TranscriptStage, AllocError>
        requires short { length line.now < 2 ^ 31 }
        requires few { self.old.lines < 2 ^ 31 }
        ensures conforms { IfOk result (λ stage. (text following : List ℕ) → lacks 10 line.now ≡ true
            → HasEmitted self.old text (line.now ++ 10 ∷ following) → ConformsAs stage self.new text following) }
        ensures lines { self.new.lines ≤ self.old.lines + 1 }
        ensures most { self.new.most ≡ self.old.most }
    {
        if spells(line, b"end") {
            return Ok(TranscriptStage::Ended);
        }
        if !self.takes(alloc, line)? {
            return Ok(TranscriptStage::Faulty {
                line: self.lines + 2,
            });
        }
        self.lines += 1;
        Ok(TranscriptStage::Lines)
    }

    // The stage after `line` was read, from any earlier stage.
    fn following(&mut self, alloc: Global, line: &[u8]) -> Result<TranscriptStage, AllocError>
        requires short { length line.now < 2 ^ 31 }
        requires few { self.old.lines < 2 ^ 31 }
        ensures conforms { IfOk result (λ stage. (text following : List ℕ) → lacks 10 line.now ≡ true
            → ConformsAt self.old text (line.now ++ 10 ∷ following) → ConformsAs stage self.new text following) }
        ensures lines { self.new.lines ≤ self.old.lines + 1 }
        ensures most { self.new.most ≡ self.old.most }
    {
        match self.stage {
            TranscriptStage::Head => Ok(after_head(line)),
            TranscriptStage::Lines => self.after_line(alloc, line),
            TranscriptStage::Ended => Ok(TranscriptStage::Faulty {
                line: self.lines + 3,
            }),
            TranscriptStage::Faulty { line } => Ok(TranscriptStage::Faulty { line }),
        }
    }

    /// Reads one more line, without its line feed.
    pub(crate) fn take(&mut self, alloc: Global, line: &[u8]) -> Result<(), AllocError>
        requires short { length line.now < 2 ^ 31 }
        requires few { self.old.lines < 2 ^ 31 }
        ensures conforms { OnOk result ((text following : List ℕ) → lacks 10 line.now ≡ true
            → ConformsAt self.old text (line.now ++ 10 ∷ following) → ConformsAt self.new text following) }
        ensures lines { self.new.lines ≤ self.old.lines + 1 }
        ensures most { self.new.most ≡ self.old.most }
    {
        self.stage = self.following(alloc, line)?;
        Ok(())
    }

    /// The transcript of a text that was read to its end, with `end` as the last line.
    ///
    /// # Errors
    ///
    /// `TooManyLines` if the transcript has more lines than were kept. `NoMemory` if there is no memory for the
    /// transcript.
    pub(crate) fn into_transcript(self) -> Result<Transcript, TextError>
        requires { (text : List ℕ) × HasEmitted self text (codes "end" ++ 10 ∷ []) }
        ensures { (text : List ℕ) → HasEmitted self text (codes "end" ++ 10 ∷ []) → Answers self.most text result }
    {
        if self.lines > self.most {
            return Err(TextError::TooManyLines);
        }
        let SoFar {
            stage: _,
            most: _,
            lines: _,
            done,
            current,
            trace: _,
        } = self;
        Ok(finish(done, current)?)
    }
}
