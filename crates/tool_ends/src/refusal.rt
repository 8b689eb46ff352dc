//! Finds the fault, or the number of the clause, in a program's one-line answer.
ghost use Rattle.std.specs.Prelude.{◌≡◌, IfSome};
ghost use Rattle.tool_ends.specs.Pairs.{no_line, refusal_line};

use crate::short_lines::{no_line, refusal_line};
use event_script::numbers::number_up_to;
use key_names::{FaultKind, ScriptFault};

const KINDS: [FaultKind; 12] = [
    FaultKind::TooLong,
    FaultKind::BadByte,
    FaultKind::BadHead,
    FaultKind::BadCpus,
    FaultKind::UnknownWord,
    FaultKind::BadNumber,
    FaultKind::BadHex,
    FaultKind::BadCaller,
    FaultKind::BadFork,
    FaultKind::Unforked,
    FaultKind::TooMany,
    FaultKind::Unfinished,
];

/// The fault that `text` names, if `text` is a line `refused LINE KIND`. Only tests show that the fault is found in
/// each such line.
pub fn fault_in(text: &[u8]) -> Option<ScriptFault>
    ensures { IfSome result (λ fault. text.now ≡ refusal_line fault) }
{
    let word = text.split(|byte| *byte == b' ').nth(1)?;
    let line = number_up_to(u64::from(u32::MAX), word)? as u32;
    for kind in KINDS {
        let fault = ScriptFault { line, kind };
        if refusal_line(fault).as_str().as_bytes() == text {
            return Some(fault);
        }
    }
    None
}

/// The number of the clause that `text` names, if `text` is a line `no K`. Only tests show that the number is found in
/// each such line.
pub fn clause_in(text: &[u8]) -> Option<u8>
    ensures { IfSome result (λ clause. text.now ≡ no_line clause) }
{
    for clause in 1..8 {
        if no_line(clause).as_str().as_bytes() == text {
            return Some(clause);
        }
    }
    None
}
