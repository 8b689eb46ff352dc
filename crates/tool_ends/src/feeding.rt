//! Reading a source piece by piece, up to a limit. Each piece is fed to a reader of the text.
ghost use Rattle.std.specs.Prelude.{◌≡◌, ◌+◌, ◌<◌, ◌≤◌, ◌^◌, ◌++◌, [], ℕ, List, length, IfErr, IfOk, OnOk};
ghost use Rattle.event_script.specs.Feeding.{HasFed};
ghost use Rattle.io_edges.specs.Faults.{Rose};
ghost use Rattle.tool_ends.specs.Fed.{GivesNoText, GivesText};

use crate::maker::NoMaker;
use crate::pair::NotRead;
use event_script::ScriptReader;
use io_edges::Source;
use std::alloc::{AllocError, Global};

/// How many bytes are read from a source at once.
const PIECE: usize = 64 * 1024;

/// A reader to which a text is fed. It may compare the text with the transcript that a maker makes.
pub(crate) trait TextTaker<M> {
    ghost use Rattle.std.specs.Prelude.{List, ℕ};

    /// The reader was fed exactly this text.
    ghost was_fed: { M → List ℕ → Self → Type 0 };

    /// Feeds the next piece of the text to the reader.
    ///
    /// # Errors
    ///
    /// `AllocError` if there is no memory for the piece.
    fn feed_piece(&mut self, alloc: Global, maker: &M, piece: &[u8]) -> Result<(), AllocError>
        requires { (text : List ℕ) × was_fed maker.now text self.old × (length text + length piece.now ≤ 2 ^ 31) }
        ensures { OnOk result ((text : List ℕ) → was_fed maker.now text self.old
            → was_fed maker.now (text ++ piece.now) self.new) };
}

impl TextTaker<NoMaker> for ScriptReader {
    ghost was_fed = { λ _ text reader. HasFed text reader };

    fn feed_piece(
        &mut self,
        alloc: Global,
        _maker: &NoMaker,
        piece: &[u8],
    ) -> Result<(), AllocError> {
        self.feed(alloc, piece)
    }
}

/// Reads a source, and feeds its text to a reader, until the text ends or is one byte longer than the limit. Returns
/// how many bytes were fed.
///
/// # Errors
///
/// `ReadFault` if the source failed, and `NoMemory` if memory ran out. The bytes that were taken from the source are
/// lost.
pub(crate) fn feed_to_limit<S: Source, M, F: TextTaker<M>>(
    alloc: Global,
    source: &mut S,
    limit: usize,
    maker: &M,
    fed: &mut F,
) -> Result<usize, NotRead>
    requires new { F.was_fed maker.now [] fed.old }
    requires small { limit < 2 ^ 31 }
    ensures read { IfOk result (GivesText limit (S.left source.old) (S.left source.new)
        (λ text. F.was_fed maker.now text fed.new)) }
    ensures not_read { IfErr result (GivesNoText limit (S.left source.old) (S.left source.new)) }
    ensures read_fault { IfErr result (λ why. why ≡ NotRead.ReadFault → Rose (S.faults source.old) (S.faults source.new)) }
    ensures no_fault { IfErr result (λ why. (why ≡ NotRead.ReadFault → ⊥) → S.faults source.new ≡ S.faults source.old) }
    ensures not_counted { OnOk result (S.faults source.new ≡ S.faults source.old) }
{
    let mut piece = [0; PIECE];
    let mut taken = 0;
    while taken <= limit {
        let most = PIECE.min(limit + 1 - taken);
        let count = source.take(&mut piece[..most])?;
        if count == 0 {
            return Ok(taken);
        }
        fed.feed_piece(alloc, maker, &piece[..count])?;
        taken += count;
    }
    Ok(taken)
}
