//! Events whose line, once made, is final: the call of such an event, and the event's line.
ghost use Rattle.std.specs.Prelude.{◌≡◌, ◌≤◌, ℕ, length, take};
ghost use Rattle.std.specs.List.{AllByRecursion};
ghost use Rattle.key_names.specs.Texts.ScriptGrammar.{InRange, event_word};
ghost use Rattle.key_names.specs.Texts.TranscriptGrammar.{LineFits, StepFits};
ghost use Rattle.transcript_text.specs.Views.{seen};
ghost use Rattle.caller_run.specs.Alone.{CalledOnce, IsEmittedOnce};
ghost use Rattle.caller_run.specs.Calling.{IsReady, StatesConform};
ghost use Rattle.caller_run.specs.Says.{most_shown, shown_by, ShowsFit};

use crate::making::caller::Caller;
use crate::output::logs::most_shown;
use crate::output::reply::{LineData, Reply};
use key_names::{Event, Step, Trace, Word};
use lane_table::Lanes;
use std::sync::Wait;
use transcript_text::{LineView, Shown};

/// A line without its steps and bytes: its event, its word, its reply, and how many bytes were served.
#[derive(Clone, Copy)]
pub(crate) struct EmittedLine {
    pub(crate) event: u32,
    pub(crate) word: Word,
    pub(crate) said: Reply,
    pub(crate) shown: usize,
}

impl EmittedLine {
    /// The line with these steps, and with these bytes if the line shows bytes.
    #[inline(always)]
    pub(crate) fn view<'a>(self, caller: u32, steps: &'a [Step], served: &'a [u8]) -> LineView<'a>
        requires few { length steps.now ≤ 20 }
        requires steps { AllByRecursion StepFits steps.now }
        requires shows { ShowsFit self.word self.said.shows }
        ensures line { seen result ≡ record {
          caller = caller;
          event = self.event;
          word = self.word;
          answer = self.said.answer;
          steps = steps.entry.now;
          shown = shown_by served.entry.now self.said.shows;
        } }
        ensures fits { LineFits (seen result) }
    {
        LineView {
            caller,
            event: self.event,
            word: self.word,
            answer: self.said.answer,
            steps,
            shown: match self.said.shows {
                LineData::Nothing => Shown::None,
                LineData::Served => Shown::Bytes(served),
                LineData::Count(number) => Shown::Count(number),
            },
        }
    }
}

impl Caller {
    /// Makes the call of an event that is no act and no fork, and returns the event's line. The line's steps are in
    /// `trace`, and the bytes that the line shows are at the front of `served`.
    pub(crate) fn call_once<R: Wait>(
        &mut self,
        rt: &R,
        lanes: &Lanes,
        trace: &mut Trace,
        served: &mut [u8],
        event: &Event,
    ) -> EmittedLine
        requires ready { IsReady lanes.now self.old }
        requires states { StatesConform self.old }
        requires range { (version : ℕ) × InRange version lanes.now.cpus event.now }
        requires room { most_shown event.now ≤ length served.old }
        requires once { IsEmittedOnce event.now }
        ensures called { CalledOnce lanes.now event.now self.old self.new result.said
            (take (most_shown event.now) served.new) trace.new }
        ensures event { result.event ≡ self.old.set.event }
        ensures word { result.word ≡ event_word event.now }
        ensures shown { result.shown ≡ most_shown event.now }
        ensures len { length served.new ≡ length served.old }
    {
        let number = self.set.event;
        let word = event.word();
        let shown = most_shown(event) as usize;
        let served = &mut served[..shown];
        trace.clear();
        let said = match event {
            Event::Vread { flags, .. } => self.vread_alone(rt, lanes, trace, served, *flags),
            _ => self.call(rt, lanes, trace, served, event),
        };
        EmittedLine {
            event: number,
            word,
            said,
            shown,
        }
    }
}
