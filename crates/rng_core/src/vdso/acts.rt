//! Acts inside a vgetrandom call.
ghost use Rattle.std.specs.Prelude.{◌≡◌, ◌&&◌, ◌<◌, ◌≤◌, [], true, false, Ok, length};
ghost use Rattle.key_names.specs.Callers.Meaning.{ActMeans};
ghost use Rattle.key_names.specs.Kernel.Points.{is_same_point};
ghost use Rattle.key_names.specs.Callers.VreadSteps.{is_wipe};
ghost use Rattle.lane_table.specs.Calls.{view};
ghost use Rattle.rng_core.specs.Acts.{wants, ask_of, asks_of, outcome_of, outcomes_of, wipes_at, is_ready};
ghost use Rattle.rng_core.specs.Acts.{AreReady, done_line, ActRan, ActAt, ActsAt};
ghost use Rattle.rng_core.specs.Makes.{setting_of};
ghost use Rattle.rng_core.specs.Sites.{IsIdle, IsNew, IsOnCpu, IsTimely, Does, KeepsTrace, most_bytes, most_steps};

use crate::crng::reseeds::reseed;
use crate::interface::system_call::getrandom;
use crate::setting::Setting;
use crate::site::Site;
use key_names::{Errno, InsideAct, Point, Trace};
use std::sync::Wait;

/// An act that waits for a point of a vgetrandom call, and its outcome.
#[derive(Drop)]
pub struct Bound {
    /// The point of the call's first attempt at which the act runs.
    pub point: Point,
    pub act: InsideAct,
    /// The number of the act's event among the caller's events.
    pub event: u32,
    /// Whether the act ran: the call's first attempt reached the act's point.
    pub done: bool,
    /// The act's answer, once it is done.
    pub answer: Result<(), Errno>,
    /// The act's own steps.
    pub trace: Trace,
}

impl Bound {
    /// Makes a record of an act that is not done yet.
    pub fn of(point: Point, act: InsideAct, event: u32) -> Bound
        ensures { result
            ≡ record { point = point; act = act; event = event; done = false; answer = Ok tt; trace = [] } }
    {
        Bound {
            point,
            act,
            event,
            done: false,
            answer: Ok(()),
            trace: Trace::empty(),
        }
    }

    /// The number of bytes that the act reads.
    pub fn wanted(&self) -> usize
        ensures { result ≡ wants self.now.act }
    {
        match self.act {
            InsideAct::Vread(len) => len as usize,
            InsideAct::Wipe | InsideAct::Reseed => 0,
        }
    }
}

fn is_wipe(act: InsideAct) -> bool
    ensures { result ≡ is_wipe act }
{
    match act {
        InsideAct::Wipe => true,
        InsideAct::Vread(_) | InsideAct::Reseed => false,
    }
}

// Performs an act's call of the core; a wipe makes no call.
fn do_act<R: Wait>(rt: &R, site: &mut Site, act: InsideAct, out: &mut [u8]) -> Result<(), Errno>
    requires new { IsNew site.old }
    requires cpu { IsOnCpu site.old }
    requires moment { IsTimely site.old }
    requires short { length out.old ≤ most_bytes }
    requires fits { length out.old ≡ wants act }
    ensures { Does most_steps (λ effects. ActMeans (setting_of site.old.set) act (done_line effects result out.new))
        site.old
        site.new }
{
    match act {
        InsideAct::Wipe => Ok(()),
        InsideAct::Vread(_) => getrandom(rt, site, out, 0),
        InsideAct::Reseed => reseed(rt, site),
    }
}

// Runs an act as its own event, and records its steps in the act's own trace.
fn run<R: Wait>(rt: &R, site: &mut Site, bound: &mut Bound, out: &mut [u8])
    requires idle { IsIdle 0 site.old }
    requires cpu { IsOnCpu site.old }
    requires moment { IsTimely site.old }
    requires short { length out.old ≤ most_bytes }
    requires fits { length out.old ≡ wants bound.old.act }
    requires room { length bound.old.trace ≡ 0 }
    ensures keeps { KeepsTrace site.old site.new }
    ensures ask { ask_of bound.new ≡ ask_of bound.old }
    ensures ran { ActRan site.old.set (ask_of bound.old) (view site.old.pass.now) (view site.new.pass.now)
        (outcome_of bound.new out.new) }
{
    let mut inner = Site {
        lanes: site.lanes,
        pass: &mut *site.pass,
        trace: &mut bound.trace,
        set: Setting {
            event: bound.event,
            ..site.set
        },
    };
    bound.answer = do_act(rt, &mut inner, bound.act, out);
    bound.done = true;
}

// Runs an act at its point, unless it was done before.
fn run_at<R: Wait>(rt: &R, site: &mut Site, point: Point, bound: &mut Bound, out: &mut [u8])
    requires idle { IsIdle 0 site.old }
    requires cpu { IsOnCpu site.old }
    requires moment { IsTimely site.old }
    requires fits { length out.old ≡ wants bound.old.act }
    requires ready { is_ready bound.old ≡ true }
    ensures keeps { KeepsTrace site.old site.new }
    ensures ask { ask_of bound.new ≡ ask_of bound.old }
    ensures ready { is_ready bound.new ≡ true }
    ensures ran { ActAt site.old.set point (ask_of bound.old) (view site.old.pass.now) (view site.new.pass.now)
        (outcome_of bound.old out.old) (outcome_of bound.new out.new) }
{
    if point.is(bound.point) && !bound.done {
        run(rt, site, bound, out);
    }
}

// Whether an act wipes the state at a point.
fn is_wiped_by(bound: &Bound, point: Point) -> bool
    ensures { result ≡ (is_same_point bound.now.point point && is_wipe bound.now.act) }
{
    bound.point.is(point) && is_wipe(bound.act)
}

/// Runs, in order, the acts of a list that are bound to a point and not yet done. Returns whether an act bound to the
/// point wipes the state, even if that act was done before.
pub(crate) fn run_acts<R: Wait>(
    rt: &R,
    site: &mut Site,
    point: Point,
    acts: &mut [Bound],
    out: &mut [u8],
) -> bool
    requires idle { IsIdle 0 site.old }
    requires cpu { IsOnCpu site.old }
    requires moment { 0 < length acts.old → IsTimely site.old }
    requires ready { AreReady acts.old out.old }
    ensures keeps { KeepsTrace site.old site.new }
    ensures wipes { result ≡ wipes_at (asks_of acts.old) point }
    ensures asks { asks_of acts.new ≡ asks_of acts.old }
    ensures ready { AreReady acts.new out.new }
    ensures ran { ActsAt site.old.set point (asks_of acts.old) (view site.old.pass.now) (view site.new.pass.now)
        (outcomes_of acts.old out.old) (outcomes_of acts.new out.new) }
{
    if let Some((first, rest)) = acts.split_first_mut() {
        let (place, places) = out.split_at_mut(first.wanted());
        let wipes = is_wiped_by(first, point);
        run_at(rt, site, point, first, place);
        let others = run_acts(rt, site, point, rest, places);
        return wipes || others;
    }
    false
}
