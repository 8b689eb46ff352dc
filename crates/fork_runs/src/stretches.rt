//! Runs a vgetrandom call over the lanes in two parts: up to one of its points, and from there to its end.
ghost use Rattle.std.specs.Prelude.{◌≡◌, ◌<◌, ◌≤◌, true, false, [], List, length};
ghost use Rattle.key_names.specs.declared.names.Step.{Step};
ghost use Rattle.key_names.specs.Callers.VreadSteps.{published_by};
ghost use Rattle.lane_table.specs.Calls.{view};
ghost use Rattle.lane_table.specs.Hands.{HoldsLanes};
ghost use Rattle.lane_table.specs.Advances.{floor};
ghost use Rattle.rng_core.specs.Hosting.{SameLoans};
ghost use Rattle.rng_core.specs.Traces.{moment};
ghost use Rattle.vcall_fork.specs.Stages.{is_open, is_stopped, published_or};
ghost use Rattle.fork_runs.specs.Stretches.{StoppedOver, MissedOver, FinishedOver};

use key_names::Trace;
use lane_table::{Lanes, Pass};
use rng_core::{LaneHost, Setting, Site};
use std::sync::Wait;
use vcall_fork::{Point, Progress, Turn, VCall};
use vdso_state::VState;

/// A caller that uses the lanes of a table, and its setting (CPU, moment and hardware words).
#[derive(Drop)]
pub(crate) struct TableCaller<'a> {
    pub(crate) lanes: &'a Lanes,
    pub(crate) set: Setting,
}

/// A vgetrandom call in progress, and the vgetrandom state that it uses.
#[derive(Drop)]
pub(crate) struct HeldCall {
    pub(crate) call: VCall,
    pub(crate) st: VState,
}

/// Where a vgetrandom call is to be stopped: a point of its first or second attempt.
#[derive(Clone, Copy)]
pub(crate) struct StopAt {
    pub(crate) attempt: Turn,
    pub(crate) point: Point,
}

// Runs `call` on its host up to the point `point` of its attempt `attempt`. Returns whether it is stopped there.
fn run_on_host<R: Wait>(
    host: &mut LaneHost<'_, R>,
    call: &mut VCall,
    st: &mut VState,
    buf: &mut [u8],
    attempt: Turn,
    point: Point,
) -> bool
    requires looks { 5 ≤ host.old.looks }
    requires calls { 3 ≤ host.old.calls }
    requires idle { length host.old.acts.now ≡ 0 }
    requires open { is_open call.old.stage ≡ true }
    requires length { length buf.old ≡ call.old.len }
    requires known { published_or 0 call.old.stage ≤ published_by (floor (view host.old.site.pass.now)) }
    requires ready { 1 ≤ floor (view host.old.site.pass.now) }
    ensures loans { SameLoans host.old host.new }
    ensures has { HoldsLanes host.old.site.lanes.now host.old.site.set.caller [] host.new.site.pass.now }
    ensures len { call.new.len ≡ call.old.len }
    ensures flags { call.new.flags ≡ call.old.flags }
    ensures stopped { result ≡ true → StoppedOver host.old.site.set call.old.len call.old.flags call.old.stage buf.old
        st.old attempt point call.new.stage buf.new st.new
        (moment host.old.site.pass.now host.old.site.trace.now) (moment host.new.site.pass.now host.new.site.trace.now) }
    ensures missed { result ≡ false → MissedOver call.old.len call.old.flags call.old.stage buf.old st.old attempt point
        (view host.old.site.pass.now) (view host.new.site.pass.now) }
{
    match call.run_to(host, st, buf, attempt, point) {
        Progress::At => true,
        Progress::Ended(_) => false,
    }
}

/// Runs a call to a point of an attempt, on a core that the caller has seen to be ready. Returns whether the call is
/// stopped at this point. If not, the call is over, and never reached the point.
pub(crate) fn run_to<'x, R: Wait>(
    rt: &'x R,
    caller: &TableCaller<'x>,
    pass: &mut Pass,
    held: &mut HeldCall,
    buf: &mut [u8],
    stop: StopAt,
) -> bool
    requires has { HoldsLanes caller.now.lanes.now caller.now.set.caller [] pass.old }
    requires cpu { caller.now.set.cpu < caller.now.lanes.now.cpus }
    requires open { is_open held.old.call.stage ≡ true }
    requires length { length buf.old ≡ held.old.call.len }
    requires known { published_or 0 held.old.call.stage ≤ published_by (floor (view pass.old)) }
    requires ready { 1 ≤ floor (view pass.old) }
    ensures has { HoldsLanes caller.now.lanes.now caller.now.set.caller [] pass.new }
    ensures len { held.new.call.len ≡ held.old.call.len }
    ensures flags { held.new.call.flags ≡ held.old.call.flags }
    ensures stopped { result ≡ true → (steps : List Step) × StoppedOver caller.now.set held.old.call.len
        held.old.call.flags held.old.call.stage buf.old held.old.st stop.attempt stop.point held.new.call.stage buf.new
        held.new.st (moment pass.old []) (moment pass.new steps) }
    ensures missed { result ≡ false → MissedOver held.old.call.len held.old.call.flags held.old.call.stage buf.old
        held.old.st stop.attempt stop.point (view pass.old) (view pass.new) }
{
    let mut trace = Trace::empty();
    let site = Site {
        lanes: caller.lanes,
        pass: &mut *pass,
        trace: &mut trace,
        set: caller.set,
    };
    let mut host = LaneHost::over(rt, site, &mut [], &mut []);
    run_on_host(
        &mut host,
        &mut held.call,
        &mut held.st,
        buf,
        stop.attempt,
        stop.point,
    )
}

// Runs the stopped call `call` on its host to the call's end.
fn finish_on_host<R: Wait>(host: &mut LaneHost<'_, R>, call: VCall, st: &mut VState, buf: &mut [u8])
    requires looks { 5 ≤ host.old.looks }
    requires calls { 3 ≤ host.old.calls }
    requires idle { length host.old.acts.now ≡ 0 }
    requires stopped { is_stopped call.stage ≡ true }
    requires plain { call.flags ≡ 0 }
    requires length { length buf.old ≡ call.len }
    requires known { published_or 0 call.stage ≤ published_by (floor (view host.old.site.pass.now)) }
    ensures loans { SameLoans host.old host.new }
    ensures has { HoldsLanes host.old.site.lanes.now host.old.site.set.caller [] host.new.site.pass.now }
    ensures seen { published_by (floor (view host.old.site.pass.now)) ≤ published_by (floor (view host.new.site.pass.now)) }
    ensures finished { FinishedOver host.old.site.set call.len call.flags call.stage buf.old st.old
        buf.new (moment host.old.site.pass.now host.old.site.trace.now) (moment host.new.site.pass.now host.new.site.trace.now) }
{
    let _ended = call.finish(host, st, buf);
}

/// Runs a stopped call without flags to its end. The call gives its bytes in `buf`.
pub(crate) fn finish<'x, R: Wait>(
    rt: &'x R,
    caller: &TableCaller<'x>,
    pass: &mut Pass,
    held: &mut HeldCall,
    buf: &mut [u8],
)
    requires has { HoldsLanes caller.now.lanes.now caller.now.set.caller [] pass.old }
    requires cpu { caller.now.set.cpu < caller.now.lanes.now.cpus }
    requires stopped { is_stopped held.old.call.stage ≡ true }
    requires plain { held.old.call.flags ≡ 0 }
    requires length { length buf.old ≡ held.old.call.len }
    requires known { published_or 0 held.old.call.stage ≤ published_by (floor (view pass.old)) }
    ensures has { HoldsLanes caller.now.lanes.now caller.now.set.caller [] pass.new }
    ensures seen { published_by (floor (view pass.old)) ≤ published_by (floor (view pass.new)) }
    ensures finished { (steps : List Step) × FinishedOver caller.now.set held.old.call.len
        held.old.call.flags held.old.call.stage buf.old held.old.st buf.new (moment pass.old []) (moment pass.new steps) }
{
    let mut trace = Trace::empty();
    let site = Site {
        lanes: caller.lanes,
        pass: &mut *pass,
        trace: &mut trace,
        set: caller.set,
    };
    let mut host = LaneHost::over(rt, site, &mut [], &mut []);
    finish_on_host(&mut host, held.call, &mut held.st, buf)
}
