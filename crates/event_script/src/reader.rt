//! A script that is read piece by piece.
ghost use Rattle.std.specs.Prelude.{◌≡◌, ◌+◌, ◌<◌, ◌≤◌, ◌^◌, ◌++◌, ◌∷◌, ◌==◌, ℕ, [], All, List, false, length, OnOk};
ghost use Rattle.key_names.specs.Texts.ScriptFaults.{script_of, script_of_draft};
ghost use Rattle.event_script.specs.Drafts.{draft_as};
ghost use Rattle.event_script.specs.Feeding.{HasFed, IsAfter, IsWhole, number_of};
ghost use Rattle.event_script.specs.Progress.{IsProgress};
ghost use Rattle.event_script.specs.ScriptViews.{GivesUnread};
ghost use Rattle.event_script.specs.Waiting.{IsWaiting};

use crate::progress::ScriptProgress;
use crate::script_error::Unread;
use crate::statements::fields::cut;
use crate::whole::draft::Draft;
use crate::whole::reading::fault;
use crate::whole::stage::ScriptStage;
use key_names::FaultKind;
use memchr::memrchr;
use std::alloc::{AllocError, Global};
use std::mem;

/// The most bytes of a script's text.
const MOST_BYTES: usize = 16_777_216;

/// The bytes of the line `end`.
const END_BYTES: usize = 4;

/// A reader for the text of a script, in pieces of any length. It buffers at most one incomplete line, or the faulty
/// line.
#[derive(Drop)]
pub struct ScriptReader {
    stage: ScriptStage,
    // The number of bytes that were fed so far.
    len: usize,
    // The start of a line whose line feed was not read yet.
    rest: Vec<u8>,
}

/// The whole lines of a text, and the start of a line after them.
fn whole_lines(text: &[u8]) -> (&[u8], &[u8])
    ensures all { text.now ≡ result.0.now ++ result.1.now }
    ensures whole { IsWhole result.0.now }
    ensures clean { All (λ b. (b == 10) ≡ false) result.1.now }
{
    match memrchr(b'\n', text) {
        Some(place) => text.split_at(place + 1),
        None => (&[], text),
    }
}

impl ScriptReader {
    /// A reader that has read nothing.
    pub fn new(alloc: Global) -> ScriptReader
        ensures { HasFed [] result }
    {
        ScriptReader {
            stage: ScriptStage::Version,
            len: 0,
            rest: Vec::new(alloc),
        }
    }

    // Reads the end of the line whose start is kept, and the whole lines after that line.
    fn read_lines(&mut self, alloc: Global, lines: &[u8]) -> Result<(), AllocError>
        requires whole { IsWhole lines.now }
        requires short { number_of self.old.stage + length self.old.rest.items + length lines.now < 2 ^ 32 }
        ensures read { OnOk result ((text following : List ℕ) → IsAfter text self.old (lines.now ++ following)
            → IsAfter text self.new following) }
        ensures rest { OnOk result (0 < length lines.now → self.new.rest.items ≡ []) }
        ensures len { self.new.len ≡ self.old.len }
    {
        let Some((end, following)) = cut(b'\n', lines) else {
            return Ok(());
        };
        self.rest.extend_from_slice(end)?;
        self.rest.push(b'\n')?;
        let stage = mem::replace(&mut self.stage, ScriptStage::Version);
        let stage = stage.read(alloc, &self.rest)?;
        self.rest.clear();
        self.stage = stage.read(alloc, following)?;
        Ok(())
    }

    /// Reads one more piece of the text.
    ///
    /// # Errors
    ///
    /// `AllocError` if there is no memory for the script, or for an incomplete line. The reader must not be used after
    /// this error.
    pub fn feed(&mut self, alloc: Global, piece: &[u8]) -> Result<(), AllocError>
        requires { (text : List ℕ) × HasFed text self.old }
        ensures fed { OnOk result ((text : List ℕ) → HasFed text self.old → HasFed (text ++ piece.now) self.new) }
        ensures line { OnOk result ((front : List ℕ) → piece.now ≡ front ++ 10 ∷ [] → self.new.len ≤ 16777216
            → self.new.rest.items ≡ []) }
    {
        self.len = self.len.saturating_add(piece.len());
        if self.len > MOST_BYTES {
            return Ok(());
        }
        let (lines, front) = whole_lines(piece);
        self.read_lines(alloc, lines)?;
        self.rest.extend_from_slice(front)?;
        Ok(())
    }

    /// How far the text was read.
    pub fn progress(&self) -> ScriptProgress<'_>
        requires { (text : List ℕ) × HasFed text self.now }
        ensures shown { (text : List ℕ) → HasFed text self.now → IsProgress text result }
        ensures waits { (text : List ℕ) → HasFed text self.now
            → (self.now.len ≤ 16777216 → self.now.rest.items ≡ []) → result ≡ ScriptProgress.Waits → IsWaiting text }
    {
        if self.len > MOST_BYTES {
            return ScriptProgress::Faulty(fault(0, FaultKind::TooLong));
        }
        if let ScriptStage::Faulty { fault, .. } = &self.stage {
            return ScriptProgress::Faulty(*fault);
        }
        if !self.rest.is_empty() {
            return ScriptProgress::Waits;
        }
        match &self.stage {
            ScriptStage::Lines { draft, number } if self.len <= MOST_BYTES - END_BYTES => {
                ScriptProgress::Open(draft.view(*number))
            }
            ScriptStage::Ended { draft, number } => ScriptProgress::Ended(draft.view(*number)),
            _ => ScriptProgress::Waits,
        }
    }

    /// The script of the whole text that was fed, as a draft: the last block is still separate from the finished ones.
    pub(crate) fn into_draft(self) -> Result<Draft, Unread>
        requires { (text : List ℕ) × HasFed text self }
        ensures { (text : List ℕ) → HasFed text self
            → GivesUnread (λ d. script_of_draft (draft_as d)) result (script_of text) }
    {
        let ScriptReader { stage, len, rest } = self;
        if len > MOST_BYTES {
            return Err(Unread::at(fault(0, FaultKind::TooLong), None));
        }
        stage.finish(rest)
    }
}
