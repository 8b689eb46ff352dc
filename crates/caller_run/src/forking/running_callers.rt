//! A running caller, from one of its forks to the next.
ghost use Rattle.std.specs.Prelude.{◌≡◌, ℕ, ◌+◌, ◌<◌, ◌≤◌, ◌++◌, [], ◌∷◌, List, length, map, replicate, MatchOption, vec_len, vec_capacity};
ghost use Rattle.std.specs.List.{AllByRecursion};
ghost use Rattle.key_names.specs.declared.events.Event.{Event};
ghost use Rattle.key_names.specs.declared.events.Event.TheVariants.{Fork};
ghost use Rattle.key_names.specs.Texts.ScriptGrammar.{Script};
ghost use Rattle.key_names.specs.Texts.TranscriptGrammar.{StepFits};
ghost use Rattle.key_names.specs.Kernel.VgetrandomState.{wiped_state};
ghost use Rattle.lane_table.specs.declared.lanes.Lanes.{Lanes};
ghost use Rattle.lane_table.specs.declared.view.View.{View};
ghost use Rattle.lane_table.specs.Calls.{view};
ghost use Rattle.lane_table.specs.Hands.{HoldsLanes, model};
ghost use Rattle.lane_table.specs.Advances.{floor};
ghost use Rattle.caller_run.specs.declared.making.caller.Caller.{Caller};
ghost use Rattle.caller_run.specs.ForkTree.{fork_tree_of, plant};
ghost use Rattle.caller_run.specs.Layouts.{layout};
ghost use Rattle.caller_run.specs.Standing.{Start, RunEnded};
ghost use Rattle.caller_run.specs.RunningCallers.{AtFork, CanAdvanceIn, CanAdvanceOn, CanPart, GoneIn, RanPlain, TookFrom, kid_of, kids_of};

use crate::forking::rooms::{Buffers, Room};
use crate::forking::shared::Shared;
use crate::making::caller::Caller;
use crate::making::states::States;
use crate::output::reply::Reply;
use io_edges::Gate;
use key_names::{Answer, Event, Trace, Word};
use lane_table::{Lanes, Pass};
use rng_core::Setting;
use std::sync::Wait;

/// A running caller, with the memory (the buffers) that it fills.
#[derive(Drop)]
pub(crate) struct RunningCaller {
    pub(crate) caller: Caller,
    pub(crate) buffers: Buffers,
    pub(crate) kids: Vec<Room>,
}

impl RunningCaller {
    /// A caller at its start. This function wipes `states`.
    pub(crate) fn starting(
        pass: Pass,
        set: Setting,
        buffers: Buffers,
        kids: Vec<Room>,
        mut states: Box<States>,
    ) -> RunningCaller
        ensures caller { result.caller ≡ record { pass = pass; set = set; states = result.caller.states } }
        ensures states { result.caller.states.value ≡ record { all = replicate 16 wiped_state; current = 0 } }
        ensures rest { (result.buffers ≡ buffers) × (result.kids ≡ kids) }
    {
        states.wipe();
        RunningCaller {
            caller: Caller { pass, set, states },
            buffers,
            kids,
        }
    }

    /// Makes the events up to the next fork, and returns the child and the events after the fork.
    pub(crate) fn run_plain<'a, R: Wait, G: Gate>(
        &mut self,
        shared: &Shared<'_, R, G>,
        events: &'a [Event],
    ) -> Option<(u32, &'a [Event])>
        requires { CanAdvanceIn shared.now.lanes.now self.old events.now }
        ensures { MatchOption result (RanPlain shared.now.lanes.now events.now self.old [] self.new)
            (λ r. RanPlain shared.now.lanes.now events.now self.old (Fork r.0 ∷ r.1.now) self.new) }
    {
        let mut rest = events;
        while let Some((event, tail)) = rest.split_first() {
            let set = self.caller.set;
            shared.gate.before(shared.rt, set.caller, set.event);
            if let Event::Fork { child } = event {
                return Some((*child, tail));
            }
            self.caller.step(
                shared,
                &mut self.buffers.log,
                &mut self.buffers.served,
                &mut self.buffers.inside,
                event,
            );
            rest = tail;
        }
        None
    }

    /// Makes the visit of a fork, and returns the child's pass and room.
    pub(crate) fn begin_fork<R: Wait>(
        &mut self,
        rt: &R,
        lanes: &Lanes,
        trace: &mut Trace,
        child: u32,
    ) -> (Pass, Room)
        requires can { (script : Script) × (rest : List Event)
            × CanAdvanceOn lanes.now script (Fork child ∷ rest) self.old }
        requires new { trace.old ≡ [] }
        ensures can { (script : Script) (rest : List Event) → CanAdvanceOn lanes.now script (Fork child ∷ rest) self.old
            → CanPart lanes.now script child rest self.new trace.new result.0 (layout result.1) }
        ensures at { AtFork self.old.caller self.new.caller trace.new child result.0 }
        ensures buffers { self.new.buffers ≡ self.old.buffers }
        ensures tree { kids_of self.old ≡ plant (layout result.1) (kids_of self.new) }
        ensures space { (vec_len self.new.kids + 1 ≡ vec_len self.old.kids)
            × (vec_capacity self.new.kids ≡ vec_capacity self.old.kids) }
    {
        let Some(kid) = self.kids.pop() else {
            unreachable!()
        };
        let theirs = self.caller.fork(rt, lanes, trace, child);
        (theirs, kid)
    }

    /// Makes the line of a fork.
    pub(crate) fn tell_fork(&mut self, trace: &Trace, child: u32)
        requires can { (t : Lanes) × (rest : List Event) × CanAdvanceIn t self.old (Fork child ∷ rest) }
        requires fits { AllByRecursion StepFits trace.now }
        ensures can { (t : Lanes) (rest : List Event)
            → CanAdvanceIn t self.old (Fork child ∷ rest) → CanAdvanceIn t self.new rest }
        ensures pass { self.new.caller.pass ≡ self.old.caller.pass }
        ensures kids { self.new.kids ≡ self.old.kids }
        ensures gone { (begun : Start) (events rest : List Event) (kids : List Start) (m : Caller) (u : View)
            → TookFrom m self.old.caller child u trace.now → begun.caller < child
            → GoneIn begun events (Fork child ∷ rest) m self.old kids
            → GoneIn begun events rest self.new.caller self.new (kids ++ kid_of m child u ∷ []) }
    {
        let done = Reply::only(Answer::Ok);
        self.caller
            .tell(&mut self.buffers.log.lines, Word::Fork, done, trace, &[]);
        self.caller.go_on(&Event::Fork { child });
    }
}
