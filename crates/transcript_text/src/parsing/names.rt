//! How words and answers are read, and the text of an answer.
ghost use Rattle.std.specs.Prelude.{◌≡◌, ◌≤◌, ⊤, length};
ghost use Rattle.key_names.specs.Texts.Spelling.{word_text};
ghost use Rattle.key_names.specs.Texts.TranscriptGrammar.{answer_text};
ghost use Rattle.transcript_text.specs.Reading.{Reads};

use crate::parsing::lexing::spells;
use event_script::words;
use key_names::{Answer, Word};

const ANSWERS: [Answer; 8] = [
    Answer::Ok,
    Answer::Again,
    Answer::Invalid,
    Answer::NoData,
    Answer::Interrupted,
    Answer::Fired,
    Answer::Idle,
    Answer::Unused,
];

/// The text of an answer.
#[tactic(auto, unfolding(key_names::specs::Texts::TranscriptGrammar::answer_text))]
pub(crate) fn answer_name(answer: Answer) -> &'static [u8]
    ensures text { result.now ≡ answer_text answer }
    ensures short { length result.now ≤ 8 }
{
    match answer {
        Answer::Ok => b"ok",
        Answer::Again => b"EAGAIN",
        Answer::Invalid => b"EINVAL",
        Answer::NoData => b"ENODATA",
        Answer::Interrupted => b"EINTR",
        Answer::Fired => b"fired",
        Answer::Idle => b"idle",
        Answer::Unused => b"unused",
    }
}

/// The word that a text spells.
pub(crate) fn word_of(text: &[u8]) -> Option<Word>
    ensures { Reads word_text (λ _. ⊤) text.now result }
{
    words::word_of(text)
}

/// The answer that `text` spells. Most lines have the answer `ok`, so `ok` is compared first, without a call.
#[tactic(auto, unfolding(key_names::specs::Texts::TranscriptGrammar::answer_text))]
pub(crate) fn answer_of(text: &[u8]) -> Option<Answer>
    ensures { Reads answer_text (λ _. ⊤) text.now result }
{
    if let [b'o', b'k'] = text {
        return Some(Answer::Ok);
    }
    for answer in &ANSWERS {
        if spells(text, answer_name(*answer)) {
            return Some(*answer);
        }
    }
    None
}
