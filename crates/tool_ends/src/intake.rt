//! Taking an input piece by piece: a script, and the text of a transcript after it.
ghost use Rattle.std.specs.Prelude.{◌≡◌, ◌+◌, ◌≤◌, ◌^◌, ◌++◌, ℕ, List, Some, length, IfErr, IfOk, IfSome, OnOk};
ghost use Rattle.tool_ends.specs.After.{IsApart, compared_with};
ghost use Rattle.tool_ends.specs.Intakes.{Fills, HasEndLine, HasTaken, IsOpened, made_in, made_of};
ghost use Rattle.tool_ends.specs.Pairs.{IsNoPair, most_input};

use crate::feeding::TextTaker;
use crate::following::After;
use crate::maker::Maker;
use crate::pair::NotRead;
use crate::script_end::has_end_line;
use event_script::{Script, ScriptError, read_front};
use key_names::ScriptFault;
use std::alloc::{AllocError, Global};

/// The result of reading the script at the front of an input, after the script's last line or the end of the input.
#[derive(Drop)]
pub(crate) enum Opened {
    /// The script was read; `After` is the text after it.
    Script(Script, After),
    /// The script has a fault; this is its first fault.
    Faulty(ScriptFault),
}

/// An input, as far as it was taken.
#[derive(Drop)]
pub(crate) enum Intake {
    /// The last line of the script has not come yet, so all bytes of the input are kept.
    Front(Vec<u8>),
    Opened(Opened),
}

fn open<M: Maker>(alloc: Global, maker: &M, input: &[u8]) -> Result<Opened, AllocError>
    requires short { length input.now ≤ 2 ^ 31 }
    requires may { M.may_make maker.now }
    ensures opened { IfOk result (IsOpened input.now) }
    ensures made { IfOk result (λ opened. IfSome (made_of opened) (λ both. M.made maker.now both.0 both.1)) }
{
    let (script, len) = match read_front(alloc, input) {
        Ok(both) => both,
        Err(ScriptError::Fault(fault)) => return Ok(Opened::Faulty(fault)),
        Err(ScriptError::NoMemory) => return Err(AllocError),
    };
    let mut text = After::nothing(alloc, maker.make(alloc, &script))?;
    text.take(alloc, &input[len as usize..])?;
    Ok(Opened::Script(script, text))
}

impl Opened {
    // Takes the next piece of an input whose script has ended.
    fn take(&mut self, alloc: Global, piece: &[u8]) -> Result<(), AllocError>
        requires short { (input : List ℕ) × HasEndLine input × IsOpened input self.old
            × (length input + length piece.now ≤ 2 ^ 31) }
        ensures opened { OnOk result ((input : List ℕ) → HasEndLine input → IsOpened input self.old
            → IsOpened (input ++ piece.now) self.new) }
        ensures made { OnOk result (IfSome (made_of self.new) (λ both. made_of self.old ≡ Some both)) }
    {
        match self {
            Opened::Script(_, text) => text.take(alloc, piece),
            Opened::Faulty(_) => Ok(()),
        }
    }

    fn finish(self) -> Result<(Script, After), NotRead>
        ensures read { (input : List ℕ) → IsOpened input self → length input ≤ most_input
            → IfOk result (λ both. IsApart input both.0 both.1) }
        ensures not_read { (input : List ℕ) → IsOpened input self → length input ≤ most_input
            → IfErr result (λ why. IsNoPair input why) }
        ensures made { IfOk result (λ both. IfSome (compared_with both.1) (λ t. made_of self ≡ Some (both.0, t))) }
    {
        match self {
            Opened::Script(script, text) => Ok((script, text)),
            Opened::Faulty(fault) => Err(NotRead::Refused(fault)),
        }
    }
}

impl Intake {
    /// Takes the next piece of an input. The text after the script is compared with the transcript that the maker
    /// makes.
    pub(crate) fn take<M: Maker>(
        &mut self,
        alloc: Global,
        maker: &M,
        piece: &[u8],
    ) -> Result<(), AllocError>
        requires short { (input : List ℕ) × HasTaken input self.old × (length input + length piece.now ≤ 2 ^ 31) }
        requires may { M.may_make maker.now }
        ensures taken { OnOk result ((input : List ℕ) → HasTaken input self.old
            → HasTaken (input ++ piece.now) self.new) }
        ensures made { OnOk result (IfSome (made_in self.old) (λ both. M.made maker.now both.0 both.1)
            → IfSome (made_in self.new) (λ both. M.made maker.now both.0 both.1)) }
    {
        match self {
            Intake::Opened(opened) => opened.take(alloc, piece),
            Intake::Front(input) => {
                input.extend_from_slice(piece)?;
                if has_end_line(input, piece.len()) {
                    let opened = open(alloc, maker, input)?;
                    *self = Intake::Opened(opened);
                }
                Ok(())
            }
        }
    }

    /// The script of the whole input, and the text after the script.
    pub(crate) fn finish<M: Maker>(
        self,
        alloc: Global,
        maker: &M,
    ) -> Result<(Script, After), NotRead>
        requires short { (input : List ℕ) × HasTaken input self × (length input ≤ 2 ^ 31) }
        requires may { M.may_make maker.now }
        ensures read { (input : List ℕ) → HasTaken input self → length input ≤ most_input
            → IfOk result (λ both. IsApart input both.0 both.1) }
        ensures not_read { (input : List ℕ) → HasTaken input self → length input ≤ most_input
            → IfErr result (λ why. IsNoPair input why) }
        ensures made { IfSome (made_in self) (λ both. M.made maker.now both.0 both.1)
            → IfOk result (λ both. IfSome (compared_with both.1) (M.made maker.now both.0)) }
    {
        match self {
            Intake::Opened(opened) => opened.finish(),
            Intake::Front(input) => open(alloc, maker, &input)?.finish(),
        }
    }
}

impl<M: Maker> TextTaker<M> for Intake {
    ghost was_fed = { λ maker input intake. Fills (M.may_make maker) (M.made maker) input intake };

    fn feed_piece(&mut self, alloc: Global, maker: &M, piece: &[u8]) -> Result<(), AllocError> {
        self.take(alloc, maker, piece)
    }
}
