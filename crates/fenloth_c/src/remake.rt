//! The answer of `fenloth_replay`.
ghost use Rattle.std.specs.Prelude.{◌≡◌, ◌≢◌, length, IfOk};
ghost use Rattle.key_names.specs.Texts.TranscriptGrammar.{transcript_text};
ghost use Rattle.fenloth_c.specs.Answers.{IsPut, IsRemade, code_of};

use crate::answer::TextAnswer;
use crate::sink::Written;
use crate::texts::{read_script, read_transcript};
use io_edges::{Failed, NoMemory};
use serial_replay::replay::{Replayed, replay};
use std::alloc::Global;
use transcript_text::{Transcript, write_all};

// The text of a transcript.
fn text_of(alloc: Global, transcript: &Transcript) -> Result<Vec<u8>, NoMemory>
    ensures { IfOk result (λ text. text.items ≡ transcript_text transcript.now) }
{
    let mut written = Written::new(alloc);
    match write_all(&mut written, transcript) {
        Ok(()) => Ok(written.bytes),
        Err(Failed) => Err(NoMemory),
    }
}

// Copies a text to the start of the buffer, if it fits.
fn put(text: &[u8], buffer: &mut [u8]) -> bool
    ensures { IsPut result text.now buffer.old buffer.new }
{
    if buffer.len() < text.len() {
        return false;
    }
    buffer[..text.len()].copy_from_slice(text);
    true
}

/// Makes a transcript again, with the same words and steps, and puts its text into the buffer.
pub(crate) fn answer(
    alloc: Global,
    script: &[u8],
    transcript: &[u8],
    buffer: &mut [u8],
    made: &mut u64,
) -> TextAnswer
    ensures answer { IsRemade script.now transcript.now buffer.old buffer.new made.new result }
    ensures buffer_kept { code_of result ≢ 0 → buffer.new ≡ buffer.old }
    ensures made_kept { code_of result ≢ 0 → code_of result ≢ 11 → made.new ≡ made.old }
{
    let read = match read_script(alloc, script) {
        Ok(read) => read,
        Err(answer) => return answer,
    };
    let lines = match read_transcript(alloc, transcript) {
        Ok(lines) => lines,
        Err(answer) => return answer,
    };
    let remade = match replay(alloc, &read, &lines) {
        Ok(Replayed::Made(remade)) => remade,
        Ok(Replayed::No(clause)) => return TextAnswer::Fails(clause),
        Err(_) => return TextAnswer::NoMemory,
    };
    let Ok(text) = text_of(alloc, &remade) else {
        return TextAnswer::NoMemory;
    };
    *made = text.len() as u64;
    if put(&text, buffer) {
        TextAnswer::Yes
    } else {
        TextAnswer::NoRoom
    }
}
