//! A child without a thread.
ghost use Rattle.std.specs.Prelude.{◌≤◌, [], length};
ghost use Rattle.lane_table.specs.Hands.{HoldsLanes};
ghost use Rattle.rng_core.specs.Traces.{moment};
ghost use Rattle.caller_run.specs.RunningCallers.{RanHere};

use crate::forking::rooms::Room;
use key_names::Trace;
use lane_table::{Lanes, Pass};
use rng_core::{Setting, Site, stall, unstall};
use std::sync::Wait;

/// Runs a child in its parent's thread, and returns the child's result. This is for a child whose thread could not be
/// started: `child` is its closure, which the failed start gave back. Two visits of the base record this: with the
/// first the parent stops running, and with the second it goes on. The contract fixes the order of the two visits. That
/// the child runs between them is tested and not promised.
pub fn run_here<R: Wait, F: FnOnce() -> (Pass, Room)>(
    rt: &R,
    lanes: &Lanes,
    pass: &mut Pass,
    set: &Setting,
    trace: &mut Trace,
    child: F,
) -> (Pass, Room)
    requires has { HoldsLanes lanes.now set.now.caller [] pass.old }
    requires room { length trace.old ≤ 18 }
    requires child { F.IsAlwaysCallable child }
    ensures has { HoldsLanes lanes.now set.entry.now.caller [] pass.new }
    ensures here { RanHere set.entry.now (moment pass.old trace.old) (moment pass.new trace.new) }
    ensures child { F.post child result }
{
    let mut site = Site {
        lanes,
        pass,
        trace,
        set: *set,
    };
    stall(rt, &mut site);
    let done = child();
    unstall(rt, &mut site);
    done
}
