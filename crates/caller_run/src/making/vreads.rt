//! Reads out of a caller's vgetrandom states.
ghost use Rattle.std.specs.Prelude.{◌≡◌, ◌≤◌, ◌^◌, ◌∷◌, ℕ, [], length};
ghost use Rattle.caller_run.specs.Calling.{IsReady, StateRead, StatesConform};
ghost use Rattle.key_names.specs.declared.events.Event.TheVariants.{Vread};
ghost use Rattle.caller_run.specs.StateReads.{CanRead, CurrentRead};
ghost use Rattle.caller_run.specs.Standing.{CanAdvance, MadeEvent};

use crate::forking::shared::Shared;
use crate::making::acts::all_wanted;
use crate::making::caller::Caller;
use crate::output::logs::{Log, most_shown};
use crate::output::reply::Reply;
use key_names::{Event, Trace, Word};
use lane_table::Lanes;
use rng_core::{Bound, LaneHost, Site, vread, vread_inside};
use std::sync::Wait;

/// The arguments of a read out of a state: the flags, the buffer for the read's bytes, and the buffer for the bytes of
/// the acts inside.
#[derive(Drop)]
pub(crate) struct ReadInto<'a> {
    pub(crate) flags: u32,
    pub(crate) served: &'a mut [u8],
    pub(crate) inside: &'a mut [u8],
}

fn flags_of(event: &Event) -> u32
    requires { (len : ℕ) × (flags : ℕ) × (event.now ≡ Vread len flags) }
    ensures { (len flags : ℕ) → event.now ≡ Vread len flags → result ≡ flags }
{
    match event {
        Event::Vread { flags, .. } => *flags,
        _ => unreachable!(),
    }
}

impl Caller {
    /// Reads bytes out of the current state, as many as `served` holds, without acts inside.
    pub(crate) fn vread_alone<'x, R: Wait>(
        &mut self,
        rt: &'x R,
        lanes: &'x Lanes,
        trace: &mut Trace,
        served: &mut [u8],
        flags: u32,
    ) -> Reply
        requires ready { IsReady lanes.now self.old }
        requires states { StatesConform self.old }
        requires short { length served.old ≤ 2 ^ 20 }
        requires new { trace.old ≡ [] }
        ensures { StateRead lanes.now (length served.old) flags self.old self.new result served.new trace.new [] [] }
    {
        let states = &mut *self.states;
        let state = &mut states.all[states.current as usize];
        let site = Site {
            lanes,
            pass: &mut self.pass,
            trace: &mut *trace,
            set: self.set,
        };
        let mut host = LaneHost::over(rt, site, &mut [], &mut []);
        Reply::read(vread(&mut host, state, served, flags))
    }

    // Reads bytes out of the current state, as many as `into.served` holds, with these acts inside.
    fn vread<'x, R: Wait>(
        &mut self,
        rt: &'x R,
        lanes: &'x Lanes,
        trace: &mut Trace,
        acts: &mut [Bound],
        into: &mut ReadInto,
    ) -> Reply
        requires can { CanRead lanes.now self.old acts.old into.old }
        requires new { trace.old ≡ [] }
        ensures { CurrentRead lanes.now self.old self.new result trace.new acts.old acts.new into.old into.new }
    {
        if acts.is_empty() {
            return self.vread_alone(rt, lanes, trace, into.served, into.flags);
        }
        let states = &mut *self.states;
        let st = &mut states.all[states.current as usize];
        let site = Site {
            lanes,
            pass: &mut self.pass,
            trace: &mut *trace,
            set: self.set,
        };
        let mut host = LaneHost::over(rt, site, &mut *acts, &mut *into.inside);
        Reply::read(vread_inside(&mut host, st, into.served, into.flags))
    }

    /// Reads out of the current state. The acts that waited for this read are made inside the read, and the lines of
    /// these acts are replaced.
    pub(crate) fn read_state<R: Wait, G>(
        &mut self,
        shared: &Shared<'_, R, G>,
        log: &mut Log,
        served: &mut [u8],
        inside: &mut [u8],
        event: &Event,
    )
        requires can { CanAdvance shared.now.lanes.now self.old log.old (length served.old) (length inside.old)
            (event.now ∷ []) }
        requires is { (len : ℕ) × (flags : ℕ) × (event.now ≡ Vread len flags) }
        ensures { MadeEvent shared.now.lanes.now (length served.old) (length inside.old) event.now self.old log.old
            self.new log.new }
    {
        let trace = &mut *log.trace;
        trace.clear();
        let mut into = ReadInto {
            flags: flags_of(event),
            served: &mut served[..most_shown(event) as usize],
            inside: &mut inside[..all_wanted(&log.acts)],
        };
        let said = self.vread(shared.rt, shared.lanes, trace, &mut log.acts, &mut into);
        self.tell_acts(&mut log.lines, &log.acts, into.inside);
        self.tell(&mut log.lines, Word::Vread, said, trace, into.served);
        log.acts.clear();
        self.go_on(event);
    }
}
