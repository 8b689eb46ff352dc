//! The answer of `fenloth_check`.
ghost use Rattle.fenloth_c.specs.Answers.{IsChecked};

use crate::answer::TextAnswer;
use crate::texts::{read_script, read_transcript};
use std::alloc::Global;
use transcript_check::check::{Verdict, check};

/// Whether the transcript is lawful for the script.
pub(crate) fn answer(alloc: Global, script: &[u8], transcript: &[u8]) -> TextAnswer
    ensures { IsChecked script.now transcript.now result }
{
    let read = match read_script(alloc, script) {
        Ok(read) => read,
        Err(answer) => return answer,
    };
    let lines = match read_transcript(alloc, transcript) {
        Ok(lines) => lines,
        Err(answer) => return answer,
    };
    match check(alloc, &read, &lines) {
        Ok(Verdict::Yes) => TextAnswer::Yes,
        Ok(Verdict::No(clause)) => TextAnswer::Fails(clause),
        Err(_) => TextAnswer::NoMemory,
    }
}
