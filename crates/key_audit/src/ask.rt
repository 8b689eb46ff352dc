//! Reading a command from the words of the command line.
ghost use Rattle.std.specs.Prelude.{◌≡◌, ◌∷◌, ◌++◌, [], true, Some, IfSome, MatchOption};
ghost use Rattle.audit_keys.specs.declared.moments.LineOf.{LineOf as LineName};
ghost use Rattle.transcript_text.specs.Reading.{lacks};
ghost use Rattle.key_audit.specs.Commands.{AskTexts, Asks, LineFits, LiveText};
ghost use Rattle.key_audit.specs.Texts.{line_text};

use audit_keys::moments::LineOf;
use event_script::numbers::number_up_to;
use memchr::memchr;

/// The forms of the command line. This text is printed if the command line has none of these forms.
pub(crate) const USAGE: &str =
    "usage: key_audit keys | key_audit live T | key_audit live C.E | key_audit line C.E";

/// The largest number that a caller or an event can have.
const MOST_NUMBER: u64 = 4_294_967_295;

/// A command about a script and a transcript.
#[derive(Clone, Copy, Debug, PartialEq, Eq)]
pub(crate) enum Ask {
    /// `keys`
    Keys,
    /// `live T`
    Live(u64),
    /// `live C.E`
    LiveAfter(LineOf),
    /// `line C.E`
    Line(LineOf),
}

/// The part of a text before its first dot, and the part after this dot. None if the text has no dot.
fn split_at_dot(text: &[u8]) -> Option<(&[u8], &[u8])>
    ensures { MatchOption result (lacks 46 text.now ≡ true)
        (λ both. (text.now ≡ both.0.now ++ 46 ∷ both.1.now) × (lacks 46 both.0.now ≡ true)) }
{
    let place = memchr(b'.', text)?;
    Some((&text[..place], &text[place + 1..]))
}

/// The line that `text` names by the numbers of its caller and its event, such as `0.4`.
fn line_of(text: &[u8]) -> Option<LineOf>
    ensures found { IfSome result (λ line. LineFits line × (text.now ≡ line_text line)) }
    ensures only { (line : LineName) → LineFits line → text.now ≡ line_text line → result ≡ Some line }
{
    let (caller, event) = split_at_dot(text)?;
    let caller = number_up_to(MOST_NUMBER, caller)?;
    let event = number_up_to(MOST_NUMBER, event)?;
    Some(LineOf {
        caller: caller as u32,
        event: event as u32,
    })
}

/// The command whose first word is `live` and whose second is `text`: `live C.E` if `text` names a line, and `live T`
/// if it is a stamp.
fn live_of(text: &[u8]) -> Option<Ask>
    ensures found { IfSome result (LiveText text.now) }
    ensures only { (ask : Ask) → LiveText text.now ask → result ≡ Some ask }
{
    match line_of(text) {
        Some(line) => Some(Ask::LiveAfter(line)),
        None => number_up_to(u64::MAX, text).map(Ask::Live),
    }
}

/// The command that the two words `word` and `argument` spell.
fn ask_by(word: &str, argument: &str) -> Option<Ask>
    ensures found { IfSome result (AskTexts (word.now ∷ argument.now ∷ [])) }
    ensures only { (ask : Ask) → AskTexts (word.now ∷ argument.now ∷ []) ask → result ≡ Some ask }
{
    if word == "live" {
        return live_of(argument.as_bytes());
    }
    if word == "line" {
        return line_of(argument.as_bytes()).map(Ask::Line);
    }
    None
}

/// The command that these words spell. None if they have none of the forms of the command line.
pub(crate) fn ask_of(words: &[String]) -> Option<Ask>
    ensures found { IfSome result (Asks words.now) }
    ensures only { (ask : Ask) → Asks words.now ask → result ≡ Some ask }
{
    match words {
        [word] if word.as_str() == "keys" => Some(Ask::Keys),
        [word, argument] => ask_by(word.as_str(), argument.as_str()),
        _ => None,
    }
}
