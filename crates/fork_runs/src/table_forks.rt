//! A vgetrandom call that forks, on a new table of lanes.
ghost use Rattle.std.specs.Prelude.{◌≡◌, ◌<◌, ◌≤◌, ◌^◌, true, [], List, IfOk, length};
ghost use Rattle.std.specs.List.{range_with_len};
ghost use Rattle.key_names.specs.declared.events.Event.TheVariants.{Add, Reseed};
ghost use Rattle.key_names.specs.declared.events.Answer.TheVariants.{Ok as Done};
ghost use Rattle.key_names.specs.declared.names.Step.{Step};
ghost use Rattle.key_names.specs.Transcripts.SeenLine.{no_data};
ghost use Rattle.key_names.specs.Kernel.VgetrandomState.{wiped_state};
ghost use Rattle.key_names.specs.Callers.VreadSteps.{published_by};
ghost use Rattle.lane_table.specs.Calls.{plan_of, view};
ghost use Rattle.lane_table.specs.Hands.{HoldsLanes};
ghost use Rattle.lane_table.specs.Advances.{floor};
ghost use Rattle.lane_table.specs.Steps.{first_view};
ghost use Rattle.rng_core.specs.Traces.{moment};
ghost use Rattle.rng_core.specs.Makes.{Makes, IsOutcomeOf, setting_of};
ghost use Rattle.rng_core.specs.Settings.{first_setting};
ghost use Rattle.vcall_fork.specs.declared.stage.Stage.TheVariants.{New};
ghost use Rattle.vcall_fork.specs.Stages.{is_stopped, published_or};
ghost use Rattle.fork_runs.specs.Runs.{ReachedStop, ForkedOver};
ghost use Rattle.fork_runs.specs.Stretches.{StoppedOver};
ghost use Rattle.fork_runs.specs.TableForks.{AreForkedBytes};

use crate::stretches::{HeldCall, StopAt, TableCaller, finish, run_to};
use key_names::Trace;
use lane_table::{Lanes, Pass};
use rng_core::{Setting, Site, add_first_sample, fork, reseed};
use std::alloc::{AllocError, Global};
use std::sync::Wait;
use vcall_fork::laws::{child_takes_key, forks_are_recorded};
use vcall_fork::{Point, Turn, VCall};
use vdso_state::VState;

/// The bytes that a forked vgetrandom call gave in the parent, and the bytes that it gave in the child.
#[derive(Drop)]
pub struct ForkedBytes {
    pub parent: Vec<u8>,
    pub child: Vec<u8>,
}

// Adds the first sample to a new table of one CPU. No other caller visits the lanes, so the sample makes the core
// ready.
fn make_ready<R: Wait>(rt: &R, lanes: &Lanes, pass: &mut Pass, set: Setting)
    requires has { HoldsLanes lanes.now set.caller [] pass.old }
    requires first { set ≡ first_setting 0 }
    requires one { lanes.now.cpus ≡ 1 }
    requires new { view pass.old ≡ first_view (plan_of 3 0) }
    ensures has { HoldsLanes lanes.now set.caller [] pass.new }
    ensures ready { 1 ≤ floor (view pass.new) }
    ensures did { (steps : List Step) × Makes (IsOutcomeOf (setting_of set) (Add (range_with_len 0 32) 256) Done no_data)
        set (moment pass.old []) (moment pass.new steps) }
{
    add_first_sample(rt, lanes, pass, set);
    lanes.settle(pass);
}

// Reseeds the core, which the caller has seen to be ready. After that the caller has seen a higher generation than
// before.
fn reseed_once<R: Wait>(rt: &R, caller: &TableCaller, pass: &mut Pass)
    requires has { HoldsLanes caller.now.lanes.now caller.now.set.caller [] pass.old }
    requires moment { caller.now.set.now < 2 ^ 40 }
    requires ready { 1 ≤ floor (view pass.old) }
    ensures has { HoldsLanes caller.now.lanes.now caller.now.set.caller [] pass.new }
    ensures rises { floor (view pass.old) < floor (view pass.new) }
    ensures did { (steps : List Step) × Makes (IsOutcomeOf (setting_of caller.now.set)
        Reseed Done no_data) caller.now.set (moment pass.old []) (moment pass.new steps) }
{
    let mut trace = Trace::empty();
    let mut site = Site {
        lanes: caller.lanes,
        pass,
        trace: &mut trace,
        set: caller.set,
    };
    match reseed(rt, &mut site) {
        Ok(()) => {}
        Err(_) => unreachable!(),
    }
}

// Runs a new call to the point `point` of its first attempt. The call's state is wiped, so the attempt reaches each of
// its points.
fn reach_first<R: Wait>(
    rt: &R,
    caller: &TableCaller,
    pass: &mut Pass,
    held: &mut HeldCall,
    buf: &mut [u8],
    point: Point,
)
    requires has { HoldsLanes caller.now.lanes.now caller.now.set.caller [] pass.old }
    requires cpu { caller.now.set.cpu < caller.now.lanes.now.cpus }
    requires ready { 1 ≤ floor (view pass.old) }
    requires new { held.old.call.stage ≡ New }
    requires plain { held.old.call.flags ≡ 0 }
    requires some { 1 ≤ held.old.call.len }
    requires wiped { held.old.st ≡ wiped_state }
    requires length { length buf.old ≡ held.old.call.len }
    ensures has { HoldsLanes caller.now.lanes.now caller.now.set.caller [] pass.new }
    ensures len { held.new.call.len ≡ held.old.call.len }
    ensures flags { held.new.call.flags ≡ held.old.call.flags }
    ensures stopped { (steps : List Step) × StoppedOver caller.now.set held.old.call.len held.old.call.flags
        held.old.call.stage buf.old held.old.st Turn.First point held.new.call.stage buf.new held.new.st
        (moment pass.old []) (moment pass.new steps) }
{
    let stop = StopAt {
        attempt: Turn::First,
        point,
    };
    if !run_to(rt, caller, pass, held, buf, stop) {
        unreachable!()
    }
}

// Runs a new call to the point `point` of its second attempt. Before that, the call is stopped at the point Serve of
// its first attempt, and the core is reseeded there.
fn reach_second<R: Wait>(
    rt: &R,
    caller: &TableCaller,
    pass: &mut Pass,
    held: &mut HeldCall,
    buf: &mut [u8],
    point: Point,
)
    requires has { HoldsLanes caller.now.lanes.now caller.now.set.caller [] pass.old }
    requires cpu { caller.now.set.cpu < caller.now.lanes.now.cpus }
    requires moment { caller.now.set.now < 2 ^ 40 }
    requires ready { 1 ≤ floor (view pass.old) }
    requires new { held.old.call.stage ≡ New }
    requires plain { held.old.call.flags ≡ 0 }
    requires some { 1 ≤ held.old.call.len }
    requires wiped { held.old.st ≡ wiped_state }
    requires length { length buf.old ≡ held.old.call.len }
    ensures has { HoldsLanes caller.now.lanes.now caller.now.set.caller [] pass.new }
    ensures len { held.new.call.len ≡ held.old.call.len }
    ensures flags { held.new.call.flags ≡ held.old.call.flags }
    ensures reached { ReachedStop caller.now.set held.old.call.len held.old.call.flags held.old.st
        Turn.Second point held.new.call.stage buf.new held.new.st (view pass.old) (view pass.new) }
{
    reach_first(rt, caller, pass, held, buf, Point::Serve);
    reseed_once(rt, caller, pass);
    forks_are_recorded();
    let stop = StopAt {
        attempt: Turn::Second,
        point,
    };
    if !run_to(rt, caller, pass, held, buf, stop) {
        unreachable!()
    }
}

// Runs a new call on a wiped state to a point of its first or second attempt.
fn reach_stop<R: Wait>(
    rt: &R,
    caller: &TableCaller,
    pass: &mut Pass,
    held: &mut HeldCall,
    buf: &mut [u8],
    stop: StopAt,
)
    requires has { HoldsLanes caller.now.lanes.now caller.now.set.caller [] pass.old }
    requires cpu { caller.now.set.cpu < caller.now.lanes.now.cpus }
    requires moment { caller.now.set.now < 2 ^ 40 }
    requires ready { 1 ≤ floor (view pass.old) }
    requires new { held.old.call.stage ≡ New }
    requires plain { held.old.call.flags ≡ 0 }
    requires some { 1 ≤ held.old.call.len }
    requires wiped { held.old.st ≡ wiped_state }
    requires length { length buf.old ≡ held.old.call.len }
    ensures has { HoldsLanes caller.now.lanes.now caller.now.set.caller [] pass.new }
    ensures len { held.new.call.len ≡ held.old.call.len }
    ensures flags { held.new.call.flags ≡ held.old.call.flags }
    ensures reached { ReachedStop caller.now.set held.old.call.len held.old.call.flags held.old.st
        stop.attempt stop.point held.new.call.stage buf.new held.new.st (view pass.old) (view pass.new) }
{
    match stop.attempt {
        Turn::First => reach_first(rt, caller, pass, held, buf, stop.point),
        Turn::Second => reach_second(rt, caller, pass, held, buf, stop.point),
    }
}

// Forks the call where it is stopped. The parent ends its call. Then the child's pass takes in the parent's pass, and
// the child ends its own call. Returns the child's pass.
fn fork_at_stop<R: Wait>(
    rt: &R,
    caller: &TableCaller,
    mut pass: Pass,
    held: &mut HeldCall,
    buf: &mut [u8],
    child_buf: &mut [u8],
) -> Pass
    requires has { HoldsLanes caller.now.lanes.now caller.now.set.caller [] pass }
    requires cpu { caller.now.set.cpu < caller.now.lanes.now.cpus }
    requires stopped { is_stopped held.old.call.stage ≡ true }
    requires plain { held.old.call.flags ≡ 0 }
    requires length { length buf.old ≡ held.old.call.len }
    requires child_length { length child_buf.old ≡ held.old.call.len }
    requires known { published_or 0 held.old.call.stage ≤ published_by (floor (view pass)) }
    ensures has { HoldsLanes caller.now.lanes.now 1 [] result }
    ensures forked { ForkedOver caller.now.set held.old.call.len held.old.call.flags
        held.old.call.stage buf.old held.old.st buf.new child_buf.new (view pass) (view result) }
{
    let mut trace = Trace::empty();
    let mut site = Site {
        lanes: caller.lanes,
        pass: &mut pass,
        trace: &mut trace,
        set: caller.set,
    };
    let mut child_pass = fork(rt, &mut site, 1);
    let (call, st) = held.call.fork_call(buf, child_buf);
    finish(rt, caller, &mut pass, held, buf);
    caller.lanes.join(&mut child_pass, pass);
    let child = TableCaller {
        lanes: caller.lanes,
        set: Setting::first(1),
    };
    let mut childs = HeldCall { call, st };
    finish(rt, &child, &mut child_pass, &mut childs, child_buf);
    child_pass
}

// Makes a new table for `fork_on_new_table`, and runs and forks the call on it.
fn fork_at<R: Wait>(
    rt: &R,
    alloc: Global,
    stop: StopAt,
    parent: &mut [u8],
    child: &mut [u8],
) -> Result<(), AllocError>
    requires some { 1 ≤ length parent.old }
    requires short { length parent.old ≤ 2 ^ 20 }
    requires child_length { length child.old ≡ length parent.old }
    ensures { IfOk result (λ done. AreForkedBytes stop.attempt stop.point (length parent.old) parent.new child.new) }
{
    let (lanes, mut pass) = Lanes::start(alloc, 1, 0)?;
    let caller = TableCaller {
        lanes: &lanes,
        set: Setting::first(0),
    };
    make_ready(rt, &lanes, &mut pass, caller.set);
    let mut held = HeldCall {
        call: VCall::begin(parent.len() as u32, 0),
        st: VState::wiped(),
    };
    reach_stop(rt, &caller, &mut pass, &mut held, parent, stop);
    let pass = fork_at_stop(rt, &caller, pass, &mut held, parent, child);
    let _visits = lanes.close(pass);
    forks_are_recorded();
    child_takes_key();
    Ok(())
}

/// Makes a core with one CPU, and adds a first sample that makes the core ready: 32 bytes that count up from 0, with a
/// credit of 256 bits. Then caller 0, with a wiped state, calls vgetrandom for `len` bytes, 1 to 2^20, without flags.
/// The call is stopped at `point` of the attempt `attempt`, and forks caller 1 there. For a second attempt, the core is
/// reseeded while the first attempt is stopped at Serve. The parent ends its call first. Then the child's pass takes in
/// the parent's pass, and the child ends its call. So the child's visits come after the parent's. All of this runs on
/// CPU 0, at moment 0, with zeros as hardware words.
///
/// Both results are the bytes of named spans of keystream, and no byte of a key's keystream is in both.
///
/// The call reaches each of the four points of either attempt, and gives bytes in both callers.
///
/// # Errors
///
/// Memory for the bytes or the table ran out. The call allocates no other memory.
pub fn fork_on_new_table<R: Wait>(
    rt: &R,
    alloc: Global,
    attempt: Turn,
    point: Point,
    len: u32,
) -> Result<ForkedBytes, AllocError>
    requires some { 1 ≤ len }
    requires short { len ≤ 2 ^ 20 }
    ensures ends { IfOk result (λ forked.
        AreForkedBytes attempt point len forked.parent.items forked.child.items) }
    ensures long { IfOk result (λ forked.
        (length forked.parent.items ≡ len) × (length forked.child.items ≡ len)) }
{
    let mut parent = vec![in alloc; 0; len as usize]?;
    let mut child = vec![in alloc; 0; len as usize]?;
    let stop = StopAt { attempt, point };
    fork_at(rt, alloc, stop, &mut parent, &mut child)?;
    Ok(ForkedBytes { parent, child })
}
