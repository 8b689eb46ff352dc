//! Reading an input that is a script and nothing else.
ghost use Rattle.std.specs.Prelude.{◌≡◌, ℕ, List, IfErr, IfOk, OnOk};
ghost use Rattle.event_script.specs.Feeding.{HasFed};
ghost use Rattle.io_edges.specs.Faults.{Rose};
ghost use Rattle.key_names.specs.Texts.ScriptGrammar.{IsScript};
ghost use Rattle.tool_ends.specs.Pairs.{GivesNoScript, GivesScript, IsNoScript};

use crate::feeding::feed_to_limit;
use crate::maker::NoMaker;
use crate::pair::NotRead;
use event_script::{Script, ScriptError, ScriptReader};
use io_edges::Source;
use std::alloc::Global;

/// The most bytes that a script may have: 16 MiB.
const MOST_SCRIPT_BYTES: usize = 16_777_216;

// The script whose text was fed to `reader`.
fn script_of(reader: ScriptReader) -> Result<Script, NotRead>
    requires { (text : List ℕ) × HasFed text reader }
    ensures read { (text : List ℕ) → HasFed text reader → IfOk result (λ script. IsScript script text) }
    ensures not_read { (text : List ℕ) → HasFed text reader → IfErr result (IsNoScript text) }
{
    let unread = match reader.finish() {
        Ok(script) => return Ok(script),
        Err(unread) => unread,
    };
    match unread.error {
        ScriptError::Fault(fault) => Err(NotRead::Refused(fault)),
        ScriptError::NoMemory => Err(NotRead::NoMemory),
    }
}

/// The script that a source gives. The source is read to its end, or to one byte more than is allowed. At most one line
/// of the text is kept, if it is incomplete or faulty.
///
/// # Errors
///
/// [`NotRead`] is the reason why the input was not read: `ReadFault`, `Refused` or `NoMemory`. If the source failed or
/// memory ran out, the bytes that were taken are lost.
pub fn read_script<S: Source>(alloc: Global, source: &mut S) -> Result<Script, NotRead>
    ensures read { IfOk result (GivesScript (S.left source.old) (S.left source.new)) }
    ensures not_read { IfErr result (GivesNoScript (S.left source.old) (S.left source.new)) }
    ensures read_fault { IfErr result (λ why. why ≡ NotRead.ReadFault → Rose (S.faults source.old) (S.faults source.new)) }
    ensures no_fault { IfErr result (λ why. (why ≡ NotRead.ReadFault → ⊥) → S.faults source.new ≡ S.faults source.old) }
    ensures not_counted { OnOk result (S.faults source.new ≡ S.faults source.old) }
{
    let mut reader = ScriptReader::new(alloc);
    feed_to_limit(alloc, source, MOST_SCRIPT_BYTES, &NoMaker, &mut reader)?;
    script_of(reader)
}
