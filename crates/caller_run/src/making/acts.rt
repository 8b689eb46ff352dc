//! Acts that wait for a caller's next `vread`.
ghost use Rattle.std.specs.Prelude.{◌≡◌, ◌+◌, ◌*◌, ◌<◌, ◌≤◌, ◌^◌, ◌∷◌, ℕ, [], length, slice_set};
ghost use Rattle.std.specs.List.{AllByRecursion};
ghost use Rattle.key_names.specs.Texts.TranscriptGrammar.{StepFits};
ghost use Rattle.key_names.specs.declared.events.Event.TheVariants.{Inside};
ghost use Rattle.lane_table.specs.declared.lanes.Lanes.{Lanes};
ghost use Rattle.rng_core.specs.Acts.{all_wanted, ask_of, asks_of, outcome_of, outcomes_of};
ghost use Rattle.rng_core.specs.InsideMakes.{act_line};
ghost use Rattle.caller_run.specs.Standing.{CanAdvance, MadeEvent};
ghost use Rattle.caller_run.specs.Waiting.{act_lines, emitted_anew};

use crate::making::caller::Caller;
use crate::output::logs::Log;
use crate::output::reply::Reply;
use key_names::{Answer, Event, InsideAct, Point, Trace, Word};
use rng_core::Bound;
use transcript_text::{CallerLines, LineView, Shown};

/// How many bytes the acts read in all.
pub(crate) fn all_wanted(acts: &[Bound]) -> usize
    requires { all_wanted (asks_of acts.now) < 2 ^ 32 }
    ensures { result ≡ all_wanted (asks_of acts.now) }
{
    match acts.split_first() {
        Some((first, rest)) => first.wanted() + all_wanted(rest),
        None => 0,
    }
}

impl Caller {
    /// Keeps an act until the caller's next `vread`. The act's line shows the act as not done, until that `vread`
    /// replaces the line.
    pub(crate) fn wait(&mut self, log: &mut Log, event: &Event, point: Point, act: InsideAct)
        requires can { (t : Lanes) × (served : ℕ) × (inside : ℕ)
            × CanAdvance t self.old log.old served inside (event.now ∷ []) }
        requires is { event.now ≡ Inside point act }
        ensures { (t : Lanes) (served inside : ℕ)
            → MadeEvent t served inside event.now self.old log.old self.new log.new }
    {
        let unused = Reply::only(Answer::Unused);
        self.tell(&mut log.lines, Word::Inside, unused, &Trace::empty(), &[]);
        let bound = Bound::of(point, act, self.set.event);
        log.acts.push_reserved(bound);
        self.go_on(event);
    }

    // Replaces the line of an act by one with the act's outcome and these bytes.
    fn tell_act(&self, lines: &mut CallerLines, bound: &Bound, bytes: &[u8])
        requires recorded { bound.now.event < length lines.old.lines }
        requires step_room { 20 ≤ lines.old.step_room }
        requires byte_room { length bytes.now ≤ lines.old.byte_room }
        requires short { length bytes.now < 2 ^ 32 }
        requires steps { AllByRecursion StepFits bound.now.trace }
        ensures lines { lines.new.lines ≡ slice_set lines.old.lines bound.now.event
            (act_line self.now.set (ask_of bound.now) (outcome_of bound.now bytes.now)) }
        ensures line_room { lines.new.line_room ≡ lines.old.line_room }
        ensures step_room { lines.old.step_room ≤ lines.new.step_room + 20 }
        ensures byte_room { lines.old.byte_room ≤ lines.new.byte_room + length bytes.now }
    {
        let said = Reply::of_act(bound.done, bound.answer);
        let line = LineView {
            caller: self.set.caller,
            event: bound.event,
            word: Word::Inside,
            answer: said.answer,
            steps: bound.trace.steps(),
            shown: Shown::Bytes(said.bytes(bytes)),
        };
        lines.replace(bound.event as usize, line);
    }

    /// Replaces the lines of acts after the `vread` that they waited for. `bytes` has the bytes of the acts, one act
    /// after another.
    pub(crate) fn tell_acts(&self, lines: &mut CallerLines, acts: &[Bound], bytes: &[u8])
        requires recorded { AllByRecursion (λ a. a.event < length lines.old.lines) (asks_of acts.now) }
        requires fits { length bytes.now ≡ all_wanted (asks_of acts.now) }
        requires step_room { 20 * length acts.now ≤ lines.old.step_room }
        requires byte_room { length bytes.now ≤ lines.old.byte_room }
        requires short { length bytes.now < 2 ^ 32 }
        requires steps { AllByRecursion (λ z. AllByRecursion StepFits z.steps) (outcomes_of acts.now bytes.now) }
        ensures lines { lines.new.lines ≡ emitted_anew lines.old.lines (asks_of acts.now)
            (act_lines self.now.set (asks_of acts.now) (outcomes_of acts.now bytes.now)) }
        ensures line_room { lines.new.line_room ≡ lines.old.line_room }
        ensures step_room { lines.old.step_room ≤ lines.new.step_room + 20 * length acts.now }
        ensures byte_room { lines.old.byte_room ≤ lines.new.byte_room + length bytes.now }
    {
        if let Some((first, rest)) = acts.split_first() {
            let (of_first, of_rest) = bytes.split_at(first.wanted());
            self.tell_act(lines, first, of_first);
            self.tell_acts(lines, rest, of_rest);
        }
    }
}
