//! The output of each command, as text.
ghost use Rattle.std.specs.Prelude.{◌≡◌, false, true, IfOk, List, MatchOption};
ghost use Rattle.key_names.specs.Lanes.Book.{Book};
ghost use Rattle.key_names.specs.Transcripts.IsTranscript.{IsTranscriptBy, script_calls};
ghost use Rattle.key_names.specs.Callers.Meaning.{CallMeaning};
ghost use Rattle.key_names.specs.Transcripts.SeenLine.{SeenLine};
ghost use Rattle.key_audit.specs.Asked.{is_there};
ghost use Rattle.key_audit.specs.Kept.{KeepsBook};
ghost use Rattle.key_audit.specs.Outcome.{Tells};

use crate::ask::Ask;
use crate::asked::is_there;
use crate::book::KeptBook;
use crate::keys::keys_text;
use crate::line::sources_text;
use crate::live::{after_text, live_text};
use crate::until::Until;
use audit_keys::use_laws::moments_hold_unused;
use event_script::Script;
use std::alloc::{AllocError, Global};

// The output of the command `ask` for a book. The book must have the stamp, or the line, that the command names.
fn listed_text(
    alloc: Global,
    ask: Ask,
    script: &Script,
    book: &KeptBook,
) -> Result<Vec<u8>, AllocError>
    ensures { (t : List (List SeenLine)) (of : Book) (ms : List (List CallMeaning)) →
        IsTranscriptBy script.now t of ms → KeepsBook book.now t (script_calls script.now t) of ms →
        is_there ask (script_calls script.now t) t ≡ true →
        IfOk result (λ text. Tells ask script.now (script_calls script.now t) of ms text.items) }
{
    moments_hold_unused();
    match ask {
        Ask::Keys => keys_text(alloc, book),
        Ask::Live(stamp) => live_text(alloc, Until::Stamp(stamp), book),
        Ask::LiveAfter(line) => after_text(alloc, line, book),
        Ask::Line(line) => sources_text(alloc, line, script, book),
    }
}

/// The output of the command `ask` for the book of a lawful transcript. `None` if the transcript lacks the stamp, or
/// the line, that the command names.
///
/// # Errors
///
/// `AllocError` if there is no memory for the output.
pub(crate) fn answer_text(
    alloc: Global,
    ask: Ask,
    script: &Script,
    book: &KeptBook,
) -> Result<Option<Vec<u8>>, AllocError>
    ensures { (t : List (List SeenLine)) (of : Book) (ms : List (List CallMeaning)) →
        IsTranscriptBy script.now t of ms → KeepsBook book.now t (script_calls script.now t) of ms →
        IfOk result (λ listed. MatchOption listed (is_there ask (script_calls script.now t) t ≡ false)
        (λ text. (is_there ask (script_calls script.now t) t ≡ true)
        × Tells ask script.now (script_calls script.now t) of ms text.items)) }
{
    if !is_there(ask, book) {
        return Ok(None);
    }
    let text = listed_text(alloc, ask, script, book)?;
    Ok(Some(text))
}
