//! Calls of one pass, while another pass holds a lane.
ghost use Rattle.std.specs.Prelude.{◌≡◌, ◌<◌, []};
ghost use Rattle.lane_table.specs.LaneNumbers.{index_of};
ghost use Rattle.lane_table.specs.Calls.{count_of};
ghost use Rattle.lane_table.specs.Hands.{HoldsLanes};

use super::{base, cpu, has_steps, pool};
use crate::passes::{is_set_in_time, sees_another_queued, split_off, started};
use crate::reseeds::{install, put_base, raise, rooted};
use key_names::{LaneId, Trace};
use lane_table::{Lanes, Pass};
use rng_core::{Setting, Site, bits, irq, stall, vread_local};
use std::alloc::{AllocError, Global};
use std::sync::Wait;
use std::sync::atomic::{AtomicBool, Ordering};
use std::test::Fail;
use std::thread;
use std::thread::Threads;
use vdso_state::{Local, VState};

// A call of caller 0 that visits only `lane`. The call starts after another pass took `lane`.
fn visit_of<R: Wait>(
    rt: &R,
    lanes: &Lanes,
    mut pass: Pass,
    lane: LaneId,
    is_held: &AtomicBool,
) -> Option<Trace>
    requires has { HoldsLanes lanes.now 0 [] pass }
{
    if !is_set_in_time(is_held) {
        return None;
    }
    let mut trace = Trace::empty();
    let mut site = Site {
        lanes,
        pass: &mut pass,
        trace: &mut trace,
        set: Setting::first(0),
    };
    match lane {
        LaneId::Pool => {
            bits(rt, &mut site);
        }
        LaneId::Base => stall(rt, &mut site),
        LaneId::Cpu(_) => irq(rt, &mut site, 1, 2),
    }
    Some(trace)
}

// Takes a lane, and holds it until another pass is queued for the lane. Returns whether another pass was queued.
fn hold<R: Wait>(
    rt: &R,
    lanes: &Lanes,
    mut pass: Pass,
    lane: LaneId,
    mut watcher: Pass,
    is_held: &AtomicBool,
) -> bool
    requires has { HoldsLanes lanes.now 1 [] pass }
    requires lane { index_of lane < count_of lanes.now }
    requires watcher { HoldsLanes lanes.now 2 [] watcher }
{
    let held = lanes.take(rt, &mut pass, lane);
    is_held.store(true, Ordering::SeqCst);
    let queued = sees_another_queued(lanes, &mut watcher, 2, lane);
    lanes.back(&mut pass, held);
    queued
}

// One thread calls while another holds the lane of the call. Returns whether the call was seen in the queue, and the
// call's trace.
fn waiting_call<R: Threads + Wait + Sync>(
    rt: &R,
    alloc: Global,
    lane: LaneId,
) -> Result<(bool, Option<Trace>), AllocError>
    requires { index_of lane < 3 }
{
    let (lanes, mut pass) = started(alloc, 1, 0)?;
    let holder = split_off(&lanes, &mut pass, 1);
    let watcher = split_off(&lanes, &mut pass, 2);
    let (table, is_held) = (&lanes, &AtomicBool::new(false));
    Ok(thread::join(
        rt,
        move || -> bool
            requires { HoldsLanes table.now 1 [] holder × (index_of lane < count_of table.now) × HoldsLanes table.now 2 [] watcher }
        { hold(rt, table, holder, lane, watcher, is_held) },
        move || -> Option<Trace>
            requires { HoldsLanes table.now 0 [] pass }
        { visit_of(rt, table, pass, lane, is_held) },
    ))
}

#[test]
fn a_call_waits_for_a_lane_that_another_holds(rt: HostRuntime) -> Result<(), Fail> {
    let rows = [
        (LaneId::Pool, pool(0, 1)),
        (LaneId::Base, base(0, 1)),
        (LaneId::Cpu(0), cpu(0, 0, 1)),
    ];
    for (lane, step) in rows {
        let (queued, trace) = waiting_call(&rt, rt.alloc(), lane)?;
        assert!(rt; queued, "{lane:?}");
        assert!(rt;
            trace.is_some_and(|trace| has_steps(&trace, &[step])),
            "{lane:?}"
        );
    }
    Ok(())
}

// A read of 8 bytes from a wiped state. The trace must be empty.
fn local_read(lanes: &Lanes, pass: &mut Pass) -> Option<Local>
    requires has { HoldsLanes lanes.now 1 [] pass.old }
    ensures has { HoldsLanes lanes.now 1 [] pass.new }
{
    let mut trace = Trace::empty();
    let mut bytes = [0; 8];
    let mut st = VState::wiped();
    let mut site = Site {
        lanes,
        pass,
        trace: &mut trace,
        set: Setting::first(1),
    };
    let local = vread_local(&mut site, &mut st, &mut bytes, 0);
    has_steps(&trace, &[]).then_some(local)
}

// One pass reseeds. Another pass reads locally while the base is held, before the raise and after it.
fn reads_around_a_raise<R: Wait>(
    rt: &R,
    lanes: &Lanes,
    pass: &mut Pass,
    other: &mut Pass,
) -> [Option<Local>; 2]
    requires has { HoldsLanes lanes.now 0 [] pass.old }
    requires other { HoldsLanes lanes.now 1 [] other.old }
{
    let mut base = lanes.take(rt, pass, LaneId::Base);
    let (root, extracted) = rooted(rt, lanes, pass, &base);
    let before = local_read(lanes, other);
    let generation = install(base.state_mut(), root);
    raise(lanes, pass, &base, extracted.place, generation);
    let following = local_read(lanes, other);
    put_base(lanes, pass, base, extracted.place);
    [before, following]
}

#[test]
fn a_local_read_of_a_wiped_state_waits_for_no_lane(rt: HostRuntime) -> Result<(), Fail> {
    let (lanes, mut pass) = started(rt.alloc(), 1, 0)?;
    let mut other = split_off(&lanes, &mut pass, 1);
    let reads = reads_around_a_raise(&rt, &lanes, &mut pass, &mut other);
    assert_eq!(rt; reads, [Some(Local::NeedsSystem), Some(Local::NeedsSystem)]);
    Ok(())
}
