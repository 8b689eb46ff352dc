//! Reading one input as a script with a transcript after it.
ghost use Rattle.std.specs.Prelude.{◌≡◌, ◌≤◌, IfErr, IfOk, IfSome, OnOk};
ghost use Rattle.io_edges.specs.Faults.{Rose};
ghost use Rattle.tool_ends.specs.After.{GivesApart, compared_with};
ghost use Rattle.tool_ends.specs.Pairs.{GivesPair, GivesNoPair};
ghost use Rattle.tool_ends.specs.declared.pair.NotRead.TheVariants.{NoMemory, ReadFault};

use crate::feeding::feed_to_limit;
use crate::following::After;
use crate::intake::Intake;
use crate::maker::{Maker, NoMaker};
use event_script::Script;
use io_edges::{Failed, Source};
use key_names::{FaultKind, ScriptFault};
use std::alloc::{AllocError, Global};
use transcript_text::Transcript;

/// The most bytes that a script and a transcript may have together: 96 MiB.
const MOST_PAIR_BYTES: usize = 100_663_296;

/// The reason why an input was not read as a script, or as a script and a transcript.
#[derive(Clone, Copy, Debug, PartialEq, Eq)]
pub enum NotRead {
    /// The source failed.
    ReadFault,
    /// The input is too long, or its script has a fault; this is the input's first fault.
    Refused(ScriptFault),
    /// The text after the script is not the text of a transcript: clause 1 fails.
    NoTranscript,
    /// The text after the script is a transcript with more lines than any script's transcript: clause 2 fails.
    TooManyLines,
    /// Memory ran out.
    NoMemory,
}

impl From<Failed> for NotRead {
    ghost from_gives = { λ _ why. why ≡ ReadFault };

    fn from(_: Failed) -> NotRead {
        NotRead::ReadFault
    }
}

impl From<AllocError> for NotRead {
    ghost from_gives = { λ _ why. why ≡ NoMemory };

    fn from(_: AllocError) -> NotRead {
        NotRead::NoMemory
    }
}

/// The script that a source gives, and all of the text after it. The source is read to its end, or to one byte more
/// than is allowed. If the maker makes a transcript of the script, the text is compared with that transcript's text as
/// it comes. It is not kept as long as the two texts are equal. Any other text is read line by line. After the piece
/// with the script's last line, only the lines that were read and one incomplete line are kept.
///
/// # Errors
///
/// [`NotRead`] is the reason why the input was not read. This reason does not depend on the text after the script. If
/// the source failed or memory ran out, the bytes that were taken are lost.
pub fn read_apart<S: Source, M: Maker>(
    alloc: Global,
    source: &mut S,
    maker: &M,
) -> Result<(Script, After), NotRead>
    requires { M.may_make maker.now }
    ensures read { IfOk result (λ both. GivesApart (S.left source.old) (S.left source.new) both.0 both.1) }
    ensures made { IfOk result (λ both. IfSome (compared_with both.1) (M.made maker.now both.0)) }
    ensures not_read { IfErr result (λ why. GivesNoPair (S.left source.old) (S.left source.new) why) }
    ensures read_fault { IfErr result (λ why. why ≡ NotRead.ReadFault → Rose (S.faults source.old) (S.faults source.new)) }
    ensures no_fault { IfErr result (λ why. (why ≡ NotRead.ReadFault → ⊥) → S.faults source.new ≡ S.faults source.old) }
    ensures not_counted { OnOk result (S.faults source.new ≡ S.faults source.old) }
{
    let mut intake = Intake::Front(Vec::new(alloc));
    let count = feed_to_limit(alloc, source, MOST_PAIR_BYTES, maker, &mut intake)?;
    if count > MOST_PAIR_BYTES {
        return Err(NotRead::Refused(ScriptFault {
            line: 0,
            kind: FaultKind::TooLong,
        }));
    }
    intake.finish(alloc, maker)
}

/// The script that a source gives, and the transcript that is all of the text after the script. The source is read as
/// by [`read_apart`], without a comparison.
///
/// # Errors
///
/// [`NotRead`] is the reason why the input was not read. If the source failed or memory ran out, the bytes that were
/// taken are lost.
pub fn read_pair<S: Source>(alloc: Global, source: &mut S) -> Result<(Script, Transcript), NotRead>
    ensures read { IfOk result (λ pair. GivesPair (S.left source.old) (S.left source.new) pair.0 pair.1) }
    ensures not_read { IfErr result (λ why. GivesNoPair (S.left source.old) (S.left source.new) why) }
    ensures read_fault { IfErr result (λ why. why ≡ NotRead.ReadFault → Rose (S.faults source.old) (S.faults source.new)) }
    ensures no_fault { IfErr result (λ why. (why ≡ NotRead.ReadFault → ⊥) → S.faults source.new ≡ S.faults source.old) }
    ensures not_counted { OnOk result (S.faults source.new ≡ S.faults source.old) }
{
    let (script, text) = read_apart(alloc, source, &NoMaker)?;
    let t = text.transcript(alloc)?;
    Ok((script, t))
}
