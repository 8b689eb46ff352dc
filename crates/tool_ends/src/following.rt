//! The text after a script in an input. It is compared with a transcript's text as it comes, or read.
ghost use Rattle.std.specs.Prelude.{◌≡◌, ◌↔◌, ◌+◌, ◌≤◌, ◌^◌, ◌++◌, [], ℕ, List, Some, length, IfErr, IfOk, IfSome, IsTrue, OnOk};
ghost use Rattle.key_names.specs.Texts.TranscriptGrammar.{IsTranscriptText};
ghost use Rattle.transcript_text.specs.Feeding.{HasFed, most_lines};
ghost use Rattle.tool_ends.specs.After.{HoldsText, IsWhole, compared_with};
ghost use Rattle.tool_ends.specs.Pairs.{IsNoText, most_script_lines};

use crate::pair::NotRead;
use std::alloc::{AllocError, Global};
use transcript_text::{Comparison, TextError, Transcript, TranscriptReader};

/// The most lines that a script's transcript can have: one for each of 65,536 events, and the last line of each of 64
/// callers.
const MOST_LINES: u32 = 65_600;

/// The text after a script, as far as it came.
#[derive(Drop)]
pub enum After {
    /// The text so far equals the start of a transcript's text.
    Compared(Comparison),
    /// The text so far was fed to a reader of transcripts.
    Fed(TranscriptReader),
}

// The transcript whose text was fed to `reader`.
fn transcript_of(reader: TranscriptReader) -> Result<Transcript, NotRead>
    requires short { (text : List ℕ) × HasFed text reader × (length text ≤ 2 ^ 31) }
    requires most { most_lines reader ≡ most_script_lines }
    ensures read { (text : List ℕ) → HasFed text reader → IfOk result (λ t. IsTranscriptText text t) }
    ensures not_read { (text : List ℕ) → HasFed text reader → IfErr result (λ why. IsNoText text why) }
{
    match reader.finish() {
        Ok(t) => Ok(t),
        Err(TextError::Fault { .. }) => Err(NotRead::NoTranscript),
        Err(TextError::TooManyLines) => Err(NotRead::TooManyLines),
        Err(TextError::NoMemory) => Err(NotRead::NoMemory),
    }
}

impl After {
    // The state before any text came. If `made` is given, the text will be compared with the text of that transcript.
    pub(crate) fn nothing(alloc: Global, made: Option<Transcript>) -> Result<After, AllocError>
        ensures holds { IfOk result (HoldsText []) }
        ensures made { IfOk result (λ text. compared_with text ≡ made) }
    {
        match made {
            Some(made) => Ok(After::Compared(Comparison::with(made))),
            None => Ok(After::Fed(TranscriptReader::new(alloc, MOST_LINES)?)),
        }
    }

    // Takes the next piece of the text. As soon as the text differs from the transcript's text, the text is fed to a
    // reader.
    pub(crate) fn take(&mut self, alloc: Global, piece: &[u8]) -> Result<(), AllocError>
        requires short { (text : List ℕ) × HoldsText text self.old × (length text + length piece.now ≤ 2 ^ 31) }
        ensures more { OnOk result ((text : List ℕ) → HoldsText text self.old
            → HoldsText (text ++ piece.now) self.new) }
        ensures made { OnOk result (IfSome (compared_with self.new) (λ made. compared_with self.old ≡ Some made)) }
    {
        let comparison = match self {
            After::Fed(reader) => return reader.feed(alloc, piece),
            After::Compared(comparison) => comparison,
        };
        let count = comparison.compare(piece);
        if count < piece.len() {
            let mut reader = comparison.reader(alloc, MOST_LINES)?;
            reader.feed(alloc, &piece[count..])?;
            *self = After::Fed(reader);
        }
        Ok(())
    }

    /// Whether the text was compared with a transcript's text to the end, and is equal to it.
    pub fn is_whole(&self) -> bool
        ensures { IsTrue result ↔ IsWhole self.now }
    {
        match self {
            After::Compared(comparison) => comparison.is_whole(),
            After::Fed(_) => false,
        }
    }

    /// The transcript that the text spells. The text has at most 2^31 bytes.
    ///
    /// # Errors
    ///
    /// `NoTranscript` if the text is not the text of a transcript. `TooManyLines` if the transcript has more lines than
    /// any script's transcript. `NoMemory` if there is no memory for the transcript.
    pub fn transcript(self, alloc: Global) -> Result<Transcript, NotRead>
        requires short { (text : List ℕ) × HoldsText text self × (length text ≤ 2 ^ 31) }
        ensures read { (text : List ℕ) → HoldsText text self → IfOk result (λ t. IsTranscriptText text t) }
        ensures not_read { (text : List ℕ) → HoldsText text self → IfErr result (λ why. IsNoText text why) }
    {
        match self {
            After::Compared(comparison) => transcript_of(comparison.reader(alloc, MOST_LINES)?),
            After::Fed(reader) => transcript_of(reader),
        }
    }
}
