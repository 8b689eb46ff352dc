//! Reading the whole text of a transcript at once.
ghost use Rattle.std.specs.Prelude.{◌≡◌, ◌≤◌, ◌^◌, ℕ, List, length, IfOk};
ghost use Rattle.key_names.specs.Transcripts.SeenLine.{SeenLine};
ghost use Rattle.key_names.specs.Texts.TranscriptGrammar.{IsTranscriptText, IsFirstFault};
ghost use Rattle.transcript_text.specs.ReadTexts.{IsReadAs};

use crate::parsing::error::TextError;
use crate::parsing::reader::TranscriptReader;
use crate::transcript::Transcript;
use std::alloc::Global;

/// Reads the text of a transcript, at most 2^31 bytes: the lines of each caller, under the caller's own number.
///
/// # Errors
///
/// `Fault` with the first faulty line if the text is not that of a transcript. `NoMemory` if there is no memory for the
/// transcript. `TooManyLines` is never returned.
pub fn read(alloc: Global, text: &[u8]) -> Result<Transcript, TextError>
    requires { length text.now ≤ 2 ^ 31 }
    ensures found { IfOk result (λ transcript. IsTranscriptText text.now transcript) }
    ensures only { (callers : List (List SeenLine)) → IsTranscriptText text.now callers → IsReadAs callers result }
    ensures fault { (line : ℕ) → result ≡ Err (TextError.Fault line) → IsFirstFault text.now line }
    ensures no_limit { result ≡ Err TextError.TooManyLines → ⊥ }
{
    let mut reader = TranscriptReader::new(alloc, u32::MAX)?;
    reader.feed(alloc, text)?;
    reader.finish()
}
