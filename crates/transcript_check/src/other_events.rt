//! Finds the first line that is not the line of its event.

use crate::place::{Expected, FailedLine};
use event_script::Script;
use judge_lines::bare::BareLine;
use key_names::Word;

// The word that the line with this number of this caller must have. None if the script has neither an event nor the
// caller's end at this number.
fn word_at(script: &Script, caller: u32, number: usize) -> Option<Word> {
    if caller >= script.callers() {
        return None;
    }
    let events = script.events(caller);
    match events.get(number) {
        Some(event) => Some(event.word()),
        None if number == events.len() => Some(Word::End),
        None => None,
    }
}

fn is_line(line: &BareLine<'_>, caller: u32, event: usize, word: Word) -> bool {
    line.caller == caller && line.event as usize == event && line.word == word
}

// The line that was expected at this number among the caller's lines. None if `line` is that line.
fn expected_at(
    script: &Script,
    caller: u32,
    number: usize,
    line: Option<&BareLine<'_>>,
) -> Option<Expected> {
    let Some(word) = word_at(script, caller, number) else {
        return line.map(|_| Expected::NoLine);
    };
    match line {
        Some(line) if is_line(line, caller, number, word) => None,
        _ => Some(Expected::Event {
            caller,
            event: number,
            word,
        }),
    }
}

fn first_of_caller(script: &Script, caller: u32, lines: &[BareLine<'_>]) -> Option<FailedLine> {
    for line in 0..lines.len() + 1 {
        if let Some(expected) = expected_at(script, caller, line, lines.get(line)) {
            return Some(FailedLine {
                caller,
                line,
                expected,
            });
        }
    }
    None
}

/// The first line that is missing, or that is not the line of its event. This is tested, not proved.
pub(crate) fn first_other_event(
    script: &Script,
    callers: &[Vec<BareLine<'_>>],
) -> Option<FailedLine> {
    for caller in 0..script.callers() {
        let Some(lines) = callers.get(caller as usize) else {
            return first_of_caller(script, caller, &[]);
        };
        let found = first_of_caller(script, caller, lines);
        if found.is_some() {
            return found;
        }
    }
    let lines = callers.get(script.callers() as usize)?;
    first_of_caller(script, script.callers(), lines)
}
