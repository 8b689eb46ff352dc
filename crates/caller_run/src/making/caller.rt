//! A caller between two events, and how it makes its events.
ghost use Rattle.std.specs.Prelude.{◌≡◌, ◌≤◌, ℕ, [], ◌∷◌, List, length};
ghost use Rattle.key_names.specs.declared.events.Event.{Event};
ghost use Rattle.lane_table.specs.Calls.{view};
ghost use Rattle.lane_table.specs.Hands.{HoldsLanes, model};
ghost use Rattle.lane_table.specs.Advances.{floor};
ghost use Rattle.caller_run.specs.Calling.{HasLeft};
ghost use Rattle.caller_run.specs.Kinds.{ForksNobody, IsCall};
ghost use Rattle.caller_run.specs.Standing.{Start, CanAdvance, HasLogged, MadeEvent, RunEnded};
ghost use Rattle.caller_run.specs.RunningCallers.{AtFork};

use crate::forking::shared::Shared;
use crate::making::states::States;
use crate::output::logs::Log;
use crate::output::reply::Reply;
use key_names::{Answer, Event, Trace, Word};
use lane_table::{Lanes, Pass};
use rng_core::{Setting, Site, end, fork};
use std::sync::Wait;

/// A caller between two events: its pass through the lanes, its setting, and its vgetrandom states.
#[derive(Drop)]
pub(crate) struct Caller {
    pub(crate) pass: Pass,
    pub(crate) set: Setting,
    // In a box, since a caller is moved with each fork.
    pub(crate) states: Box<States>,
}

impl Caller {
    // Makes an event that is one call of the core.
    fn make<R: Wait>(
        &mut self,
        rt: &R,
        lanes: &Lanes,
        log: &mut Log,
        served: &mut [u8],
        event: &Event,
    )
        requires can { (inside : ℕ) × CanAdvance lanes.now self.old log.old (length served.old) inside (event.now ∷ []) }
        requires kind { IsCall event.now }
        ensures { (inside : ℕ)
            → MadeEvent lanes.now (length served.old) inside event.now self.old log.old self.new log.new }
    {
        let trace = &mut *log.trace;
        let recorded = self.call_once(rt, lanes, trace, served, event);
        let shown = &served[..recorded.shown];
        self.tell(&mut log.lines, recorded.word, recorded.said, trace, shown);
        self.go_on(event);
    }

    /// Makes one event that forks no caller. The event's call puts its bytes at the front of `served`. The acts inside
    /// a `vread` put their bytes at the front of `inside`.
    pub(crate) fn step<R: Wait, G>(
        &mut self,
        shared: &Shared<'_, R, G>,
        log: &mut Log,
        served: &mut [u8],
        inside: &mut [u8],
        event: &Event,
    )
        requires can { CanAdvance shared.now.lanes.now self.old log.old (length served.old) (length inside.old)
            (event.now ∷ []) }
        requires plain { ForksNobody event.now }
        ensures { MadeEvent shared.now.lanes.now (length served.old) (length inside.old) event.now self.old log.old
            self.new log.new }
    {
        match event {
            Event::Inside { point, act } => self.wait(log, event, *point, *act),
            Event::Vread { .. } => self.read_state(shared, log, served, inside, event),
            _ => self.make(shared.rt, shared.lanes, log, served, event),
        }
    }

    /// Makes the visit of a fork, and returns the child's pass.
    pub(crate) fn fork<R: Wait>(
        &mut self,
        rt: &R,
        lanes: &Lanes,
        trace: &mut Trace,
        child: u32,
    ) -> Pass
        requires has { HoldsLanes lanes.now self.old.set.caller [] self.old.pass }
        requires new { trace.old ≡ [] }
        ensures has { HoldsLanes lanes.now self.new.set.caller [] self.new.pass }
        ensures child { HoldsLanes lanes.now child [] result }
        ensures room { length trace.new ≡ 1 }
        ensures at { AtFork self.old self.new trace.new child result }
    {
        let mut site = Site {
            lanes,
            pass: &mut self.pass,
            trace,
            set: self.set,
        };
        fork(rt, &mut site, child)
    }

    // Makes the caller's last visit.
    pub(crate) fn leave<R: Wait>(&mut self, rt: &R, lanes: &Lanes, trace: &mut Trace)
        requires has { HoldsLanes lanes.now self.old.set.caller [] self.old.pass }
        requires new { trace.old ≡ [] }
        ensures { HasLeft lanes.now self.old self.new trace.new }
    {
        let mut site = Site {
            lanes,
            pass: &mut self.pass,
            trace,
            set: self.set,
        };
        end(rt, &mut site);
    }

    /// Makes the caller's last visit, and the line of that visit.
    pub(crate) fn finish<R: Wait>(&mut self, rt: &R, lanes: &Lanes, log: &mut Log)
        requires can { (served : ℕ) × (inside : ℕ) × CanAdvance lanes.now self.old log.old served inside [] }
        ensures has { HoldsLanes lanes.now self.new.set.caller [] self.new.pass }
        ensures set { self.new.set ≡ self.old.set }
        ensures reached { floor (view self.new.pass) ≤ (model self.new.pass 1).base.generation }
        ensures ended { (begun : Start) (events : List Event) (kids : List Start)
            → HasLogged begun events [] self.old log.old kids
            → RunEnded begun events (view self.new.pass) log.new.lines.lines kids }
    {
        let mut trace = Trace::empty();
        self.leave(rt, lanes, &mut trace);
        let done = Reply::only(Answer::Ok);
        self.tell(&mut log.lines, Word::End, done, &trace, &[]);
    }
}
