//! A whole transcript.
ghost use Rattle.std.specs.Prelude.{◌≡◌, ◌<◌, ◌≤◌, [], map, length, vec_len, slice_index_or};
ghost use Rattle.key_names.specs.Texts.TranscriptGrammar.{LastHasLines, TranscriptFits};

use crate::caller_lines::CallerLines;
use std::marker::Model;

/// The lines of at most 64 callers; the last caller has at least one line. In contracts, a transcript is the list of
/// its callers' lines.
#[derive(Drop)]
pub struct Transcript {
    callers: Vec<CallerLines>,
}

impl Model for Transcript {
    ghost use Rattle.std.specs.Prelude.{List, map};
    ghost use Rattle.key_names.specs.Transcripts.SeenLine.{SeenLine};
    ghost use Rattle.key_names.specs.Texts.TranscriptGrammar.{TranscriptFits};

    ghost Value = { List (List SeenLine) };

    ghost view = { λ t. map (λ c. c.lines) t.callers.items };

    ghost invariant = { λ t. TranscriptFits (map (λ c. c.lines) t.callers.items) };
}

impl Transcript {
    /// The transcript of at most 64 callers, in order from caller 0. The last caller must have a line. The caller's
    /// number in each line is not checked.
    pub fn of(callers: Vec<CallerLines>) -> Transcript
        requires few { vec_len callers ≤ 64 }
        requires last { LastHasLines (map (λ c. c.lines) callers.items) }
        ensures lines { result ≡ map (λ c. c.lines) callers.items }
        ensures fits { TranscriptFits result }
    {
        // `lines` is called only for its contract, which ensures that a caller's lines fit. This type's invariant
        // requires that.
        for caller in &callers {
            let _lines = caller.lines();
        }
        Transcript { callers }
    }

    /// The number of callers.
    pub fn callers(&self) -> u32
        ensures number { result ≡ length self.now }
        ensures fits { TranscriptFits self.now }
    {
        self.callers.len() as u32
    }

    /// The lines of a caller, with their steps and bytes.
    pub fn caller(&self, caller: u32) -> &CallerLines
        requires { caller < length self.now }
        ensures { result.now.lines ≡ slice_index_or self.now caller [] }
    {
        &self.callers[caller as usize]
    }
}
