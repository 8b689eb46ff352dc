//! The lines of a caller's events.
ghost use Rattle.std.specs.Prelude.{◌≡◌, ◌+◌, ◌<◌, ◌≤◌, ◌^◌, ◌∷◌, ◌++◌, [], length};
ghost use Rattle.std.specs.List.{AllByRecursion};
ghost use Rattle.key_names.specs.Texts.TranscriptGrammar.{StepFits};
ghost use Rattle.transcript_text.specs.Views.{bytes_of, seen, seen_shown};
ghost use Rattle.caller_run.specs.Says.{line_of, ShowsFit};

use crate::making::caller::Caller;
use crate::output::reply::{LineData, Reply};
use key_names::{Answer, Step, Trace, Word};
use transcript_text::{CallerLines, LineView, Shown};

impl Caller {
    // A line of the caller's current event.
    #[inline(always)]
    fn line<'a>(
        &self,
        word: Word,
        answer: Answer,
        steps: &'a [Step],
        shown: Shown<'a>,
    ) -> LineView<'a>
        ensures line { seen result ≡ record {
          caller = self.now.set.caller;
          event = self.now.set.event;
          word = word;
          answer = answer;
          steps = steps.now;
          shown = seen_shown shown.entry;
        } }
        ensures steps { result.steps.now ≡ steps.now }
        ensures bytes { bytes_of result.shown ≡ bytes_of shown.entry }
    {
        LineView {
            caller: self.set.caller,
            event: self.set.event,
            word,
            answer,
            steps,
            shown,
        }
    }

    /// Adds a line for the caller's current event.
    pub(crate) fn tell(
        &self,
        lines: &mut CallerLines,
        word: Word,
        said: Reply,
        trace: &Trace,
        served: &[u8],
    )
        requires line_room { 0 < lines.old.line_room }
        requires step_room { 20 ≤ lines.old.step_room }
        requires byte_room { length served.now ≤ lines.old.byte_room }
        requires short { length served.now < 2 ^ 32 }
        requires shows { ShowsFit word said.shows }
        requires steps { AllByRecursion StepFits trace.now }
        ensures lines { lines.new.lines ≡ lines.old.lines ++ line_of self.now.set word served.now said trace.now ∷ [] }
        ensures line_room { lines.new.line_room + 1 ≡ lines.old.line_room }
        ensures step_room { lines.old.step_room ≤ lines.new.step_room + length trace.now }
        ensures byte_room { lines.old.byte_room ≤ lines.new.byte_room + length served.now }
        ensures few_steps { length trace.now ≤ 20 }
    {
        let answer = said.answer;
        let steps = trace.steps();
        match said.shows {
            LineData::Nothing => lines.push(self.line(word, answer, steps, Shown::None)),
            LineData::Count(n) => lines.push(self.line(word, answer, steps, Shown::Count(n))),
            LineData::Served => lines.push(self.line(word, answer, steps, Shown::Bytes(served))),
        }
    }
}
