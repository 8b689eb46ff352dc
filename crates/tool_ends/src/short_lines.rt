//! The one-line answers for a refused input and for a failed clause. No memory is allocated for them.
ghost use Rattle.std.specs.Prelude.{◌≡◌, ◌+◌, ◌≤◌, ◌++◌, decimal, length};
ghost use Rattle.tool_ends.specs.Pairs.{no_line, refusal_line};

use arrayvec::ArrayString;
use itoa::Buffer;
use key_names::ScriptFault;

/// The most bytes that a one-line answer may have.
pub const MOST_BYTES: usize = 128;

/// A one-line answer of at most 128 bytes.
pub type ShortLine = ArrayString<MOST_BYTES>;

/// Appends `before`, and then `number` in decimal, to a line. The line must have room for `before` and 20 digits.
pub fn add_number(line: &mut ShortLine, before: &str, number: u64)
    requires { length line.old.bytes + length before.now + 20 ≤ 128 }
    ensures text { line.new.bytes ≡ line.old.bytes ++ before.now ++ decimal number }
    ensures short { length line.new.bytes ≤ length line.old.bytes + length before.now + 20 }
{
    let mut digits = Buffer::new();
    line.push_str(before);
    line.push_str(digits.format(number));
}

/// The answer to an input that is refused: `refused LINE KIND`, for the input's first fault.
pub fn refusal_line(fault: ScriptFault) -> ShortLine
    ensures { result.bytes ≡ refusal_line fault }
{
    let mut line = ArrayString::new();
    add_number(&mut line, "refused ", u64::from(fault.line));
    add_number(&mut line, " ", u64::from(fault.kind.number()));
    line.push_str("\n");
    line
}

/// The answer for a failed clause: `no K`, with the number of the first clause that fails.
pub fn no_line(number: u8) -> ShortLine
    ensures { result.bytes ≡ no_line number }
{
    let mut line = ArrayString::new();
    add_number(&mut line, "no ", u64::from(number));
    line.push_str("\n");
    line
}
