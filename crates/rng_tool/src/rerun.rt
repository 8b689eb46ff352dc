//! A second run of a script, for the check of a transcript.
ghost use Rattle.std.specs.Prelude.{◌≡◌};
ghost use Rattle.key_names.specs.Texts.TranscriptGrammar.{transcript_text};
ghost use Rattle.rng_tool.specs.Outcome.{RunOf};
ghost use Rattle.rng_tool.specs.declared.judge.Judge.TheVariants.{Check};

use crate::callers::transcript_of;
use crate::judge::Judge;
use event_script::Script;
use io_edges::OpenGate;
use std::alloc::Global;
use std::sync::Wait;
use std::thread::Threads;
use tool_ends::maker::Maker;
use transcript_text::Transcript;

/// If the command is `check` and the script has a single caller, makes a run of the script. All runs of such a script
/// have the same text. A run's output is the text of a lawful transcript, so a text that equals this output need not be
/// read. If there is no memory for the run, none is made.
#[derive(Drop)]
pub(crate) struct Rerun<'a, R: Threads + Wait + Sync> {
    pub(crate) rt: &'a R,
    pub(crate) judge: Judge,
}

impl<R: Threads + Wait + Sync> Maker for Rerun<'_, R> {
    ghost use Rattle.std.specs.Thread.{IsSync};

    ghost may_make = { λ _. IsSync R.row };

    ghost made = { λ rerun script t. (rerun.judge ≡ Check) × RunOf script (transcript_text t) };

    fn make(&self, alloc: Global, script: &Script) -> Option<Transcript> {
        if self.judge != Judge::Check || script.callers() != 1 {
            return None;
        }
        transcript_of(self.rt, alloc, script, &OpenGate).ok()
    }
}
