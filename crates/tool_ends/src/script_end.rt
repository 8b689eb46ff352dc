//! Finding the end of a script when more text may follow it.
ghost use Rattle.std.specs.Prelude.{◌↔◌, IsTrue};
ghost use Rattle.tool_ends.specs.Intakes.{HasEndLine, last_part};

use memchr::memmem;

/// The last line of a script, `end`, and the line feed of the line before it.
const END_LINE: &[u8] = b"\nend\n";

/// Whether a whole line `end` was completed by the last `count` bytes of `given`. The line may begin before these
/// bytes.
pub(crate) fn has_end_line(given: &[u8], count: usize) -> bool
    ensures came { IsTrue result ↔ HasEndLine (last_part count given.now) }
    ensures conforms { IsTrue result → HasEndLine given.now }
{
    let before = given.len().saturating_sub(count);
    let from = before.saturating_sub(END_LINE.len() - 1);
    let (_, last) = given.split_at(from);
    memmem::find(last, END_LINE).is_some()
}
