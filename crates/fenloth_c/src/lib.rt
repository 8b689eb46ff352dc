//! A static library with the check and the replay of transcripts, as C functions over texts in the caller's memory.
//! `examples/clients/fenloth_texts.h` declares the functions.
//!
//! # Example
//!
//! ```rust
//! match check(alloc, &read, &lines) {
//!     Ok(Verdict::Yes) => TextAnswer::Yes,
//!     Ok(Verdict::No(clause)) => TextAnswer::Fails(clause),
//!     Err(_) => TextAnswer::NoMemory,
//! }
//! ```
//!
//! From `crates/fenloth_c/src/judge.rt`.
//!
//! # Proved
//!
//! - [`fenloth_check`]: the result is the number of an [`answer::TextAnswer`] that is true of the two texts. If the result
//!   is 0, all that `transcript_check` proves of a lawful transcript is true of this one.
//! - [`fenloth_replay`]: the same for the transcript that is made again. If the result is 0, the buffer begins with the
//!   text of this transcript; if it is 11, this text is longer than the buffer. After any other result the buffer and
//!   `made` keep their values.
//!
//! The answer "no memory" is allowed for any two texts. Every other answer must be true of the texts.
//!
//! # Tested only
//!
//! The calls from C and from Python, by `.ci/client_checks`. The caller in C must pass a pointer to as many bytes as
//! the length that it passes.
#![tactic(auto)]

ghost use Rattle.std.specs.Prelude.{◌≡◌, ◌≢◌};
ghost use Rattle.fenloth_c.specs.declared.answer.TextAnswer.{TextAnswer as Answered};
ghost use Rattle.fenloth_c.specs.Answers.{IsChecked, IsRemade, code_of};

pub mod answer;
mod judge;
mod remake;
mod sink;
mod texts;

use std::alloc::Global;

/// Whether a transcript is lawful for a script.
///
/// The result is the number of an [`answer::TextAnswer`] that is true of the two texts. It is 0 if the transcript is
/// lawful, 1 if the text `transcript` spells no transcript, and 2 to 7 for the first clause that fails. It is 8 if the
/// script has a fault, 9 if memory ran out, and 10 if the transcript has more than 2^31 bytes.
#[unsafe(no_mangle)]
pub extern "C" fn fenloth_check(alloc: Global, script: &[u8], transcript: &[u8]) -> u32
    ensures { (answer : Answered) × (result ≡ code_of answer) × IsChecked script.now transcript.now answer }
{
    judge::answer(alloc, script, transcript).code()
}

/// Makes the answers and data of a transcript again, from its words and steps alone. Writes the text of the resulting
/// transcript to the start of `buffer`, and the number of the text's bytes to `made`.
///
/// The result is the number of an [`answer::TextAnswer`] that is true of the two texts: 0 if the transcript was made, and 1
/// to 10 as for [`fenloth_check`], but never 5 and 6. The result is 11 if the text is longer than the buffer. In this
/// case too, `made` is the number of the text's bytes. The buffer keeps its bytes unless the result is 0, and `made`
/// keeps its value unless the result is 0 or 11.
#[unsafe(no_mangle)]
pub extern "C" fn fenloth_replay(
    alloc: Global,
    script: &[u8],
    transcript: &[u8],
    buffer: &mut [u8],
    made: &mut u64,
) -> u32
    ensures answer { (answer : Answered) × (result ≡ code_of answer)
        × IsRemade script.now transcript.now buffer.old buffer.new made.new answer }
    ensures buffer_kept { result ≢ 0 → buffer.new ≡ buffer.old }
    ensures made_kept { result ≢ 0 → result ≢ 11 → made.new ≡ made.old }
{
    remake::answer(alloc, script, transcript, buffer, made).code()
}
