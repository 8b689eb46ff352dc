//! Reading the texts of a script and of a transcript.
ghost use Rattle.std.specs.Prelude.{IfErr, IfOk};
ghost use Rattle.key_names.specs.Texts.ScriptGrammar.{IsScript};
ghost use Rattle.key_names.specs.Texts.TranscriptGrammar.{IsTranscriptText};
ghost use Rattle.fenloth_c.specs.Answers.{IsNoScript, IsNoTranscript};

use crate::answer::TextAnswer;
use event_script::{Script, ScriptError};
use std::alloc::Global;
use transcript_text::{TextError, Transcript};

// The most bytes of a transcript.
const MOST_BYTES: usize = 1 << 31;

/// Reads a script. The error is the answer that the C function gives.
pub(crate) fn read_script(alloc: Global, text: &[u8]) -> Result<Script, TextAnswer>
    ensures found { IfOk result (λ script. IsScript script text.now) }
    ensures unread { IfErr result (IsNoScript text.now) }
{
    match event_script::read(alloc, text) {
        Ok(script) => Ok(script),
        Err(ScriptError::Fault(_)) => Err(TextAnswer::NoScript),
        Err(ScriptError::NoMemory) => Err(TextAnswer::NoMemory),
    }
}

/// Reads a transcript. The error is the answer that the C function gives.
pub(crate) fn read_transcript(alloc: Global, text: &[u8]) -> Result<Transcript, TextAnswer>
    ensures found { IfOk result (λ lines. IsTranscriptText text.now lines) }
    ensures unread { IfErr result (IsNoTranscript text.now) }
{
    if text.len() > MOST_BYTES {
        return Err(TextAnswer::TooLong);
    }
    match transcript_text::read(alloc, text) {
        Ok(lines) => Ok(lines),
        Err(TextError::Fault { .. }) => Err(TextAnswer::NoTranscript),
        Err(TextError::NoMemory) => Err(TextAnswer::NoMemory),
        Err(TextError::TooManyLines) => unreachable!(),
    }
}
