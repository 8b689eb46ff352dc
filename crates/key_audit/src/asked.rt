//! Whether a transcript has the stamp, or the line, that a command names.
ghost use Rattle.std.specs.Prelude.{◌≡◌, List, map};
ghost use Rattle.std.specs.List.{list_any};
ghost use Rattle.std.specs.Option.{is_some};
ghost use Rattle.key_names.specs.Lanes.Book.{Book, list_at};
ghost use Rattle.key_names.specs.Callers.Calls.{Call};
ghost use Rattle.key_names.specs.Callers.Meaning.{CallMeaning};
ghost use Rattle.key_names.specs.Transcripts.SeenLine.{SeenLine};
ghost use Rattle.judge_lines.specs.Marks.{seen_mark};
ghost use Rattle.audit_keys.specs.LineEnds.{lines_in};
ghost use Rattle.key_audit.specs.Asked.{is_there, line_end as listed_end, line_in, missing_text, stamps_reach};
ghost use Rattle.key_audit.specs.Kept.{KeepsBook};

use crate::ask::Ask;
use crate::book::KeptBook;
use audit_keys::line_ends::LineEnd;
use audit_keys::moments::LineOf;
use judge_lines::marks::MarkOf;

// The first of `lines` whose event has this number.
fn line_in(lines: &[LineEnd], event: u32) -> Option<LineEnd>
    ensures { result ≡ line_in event lines.now }
{
    for line in lines {
        if line.event == event {
            return Some(*line);
        }
    }
    None
}

/// If the transcript has `line`: the number of its call, and the stamp when this call was over.
pub(crate) fn line_end(lines: &[Vec<LineEnd>], line: LineOf) -> Option<LineEnd>
    ensures { result ≡ line_in line.event (list_at (lines_in lines.now) line.caller) }
{
    match lines.get(line.caller as usize) {
        Some(list) => line_in(list, line.event),
        None => None,
    }
}

// Whether some visit has this stamp or a higher one.
fn has_stamp(marks: &[MarkOf], stamp: u64) -> bool
    ensures { result ≡ stamps_reach stamp marks.now }
{
    marks.iter().any(|of| stamp <= of.mark.stamp)
}

// Whether the transcript has the line.
fn has_line(line: LineOf, book: &KeptBook) -> bool
    ensures { (t : List (List SeenLine)) (callers : List (List Call)) (of : Book) (ms : List (List CallMeaning)) →
        KeepsBook book.now t callers of ms → result ≡ is_some (listed_end callers line) }
{
    line_end(&book.lines, line).is_some()
}

/// Whether the transcript has the stamp, or the line, that the command names.
pub(crate) fn is_there(ask: Ask, book: &KeptBook) -> bool
    ensures { (t : List (List SeenLine)) (callers : List (List Call)) (of : Book) (ms : List (List CallMeaning)) →
        KeepsBook book.now t callers of ms → result ≡ is_there ask callers t }
{
    match ask {
        Ask::Keys => true,
        Ask::Live(stamp) => has_stamp(&book.marks, stamp),
        Ask::LiveAfter(line) => has_line(line, book),
        Ask::Line(line) => has_line(line, book),
    }
}

/// The output if the transcript lacks the stamp, or the line, that the command names.
pub(crate) fn missing_text(ask: Ask) -> &'static str
    ensures { result.now ≡ missing_text ask }
{
    match ask {
        Ask::Live(_) => "no stamp\n",
        Ask::Keys | Ask::LiveAfter(_) | Ask::Line(_) => "no line\n",
    }
}
