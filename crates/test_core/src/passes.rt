//! A table, its passes, and a pass that watches another one.
ghost use Rattle.std.specs.Prelude.{◌≡◌, ◌+◌, ◌^◌, ◌<◌, ◌≤◌, [], IfOk};
ghost use Rattle.lane_table.specs.LaneNumbers.{index_of};
ghost use Rattle.lane_table.specs.Calls.{view, count_of};
ghost use Rattle.lane_table.specs.Hands.{HoldsLanes};

use key_names::LaneId;
use lane_table::{Lanes, Pass, TakeFault};
use std::alloc::{AllocError, Global};
use std::sync::atomic::{AtomicBool, Ordering};
use std::thread;

const TURNS: u32 = 100_000_000;

/// A table with stamps from `first` on, and the table's pass.
pub(crate) fn started(alloc: Global, cpus: u32, first: u64) -> Result<(Lanes, Pass), AllocError>
    requires cpus { (1 ≤ cpus) × (cpus ≤ 256) }
    requires first { first ≤ 2 ^ 62 }
    ensures cpus { IfOk result (λ r. r.0.cpus ≡ cpus) }
    ensures has { IfOk result (λ r. HoldsLanes r.0 0 [] r.1) }
    ensures share { IfOk result (λ r. ((view r.1).share ≡ 1) × ((view r.1).halvings ≡ 0)) }
    ensures start { IfOk result (λ r. r.1.stamp ≡ first) }
{
    let started = Lanes::start(alloc, cpus, first)?;
    Ok(started)
}

/// Splits a pass for another caller off the pass of caller 0.
pub(crate) fn split_off(lanes: &Lanes, pass: &mut Pass, caller: u32) -> Pass
    requires { HoldsLanes lanes.now 0 [] pass.old }
    ensures has { HoldsLanes lanes.now 0 [] pass.new }
    ensures child { HoldsLanes lanes.now caller [] result }
    ensures share { ((view pass.new).share ≡ (view pass.old).share)
        × ((view pass.new).halvings ≡ (view pass.old).halvings + 1) }
    ensures shares { ((view result).share ≡ (view pass.old).share)
        × ((view result).halvings ≡ (view pass.old).halvings + 1) }
    ensures stamp { pass.new.stamp ≡ pass.old.stamp }
{
    lanes.split(pass, caller)
}

/// Whether the flag is set within `TURNS` turns.
pub(crate) fn is_set_in_time(flag: &AtomicBool) -> bool {
    for _ in 0..TURNS {
        if flag.load(Ordering::SeqCst) {
            return true;
        }
        thread::yield_now();
    }
    false
}

/// Whether another pass queues for a lane within `TURNS` turns, while the holder of the lane has the first ticket, 0.
pub(crate) fn sees_another_queued(lanes: &Lanes, pass: &mut Pass, caller: u32, lane: LaneId) -> bool
    requires has { HoldsLanes lanes.now caller [] pass.old }
    requires lane { index_of lane < count_of lanes.now }
    ensures has { HoldsLanes lanes.now caller [] pass.new }
    ensures share { ((view pass.new).share ≡ (view pass.old).share)
        × ((view pass.new).halvings ≡ (view pass.old).halvings) }
{
    let _caller = caller;
    let queued = TakeFault::Busy {
        serving: 0,
        ticket: 2,
    };
    for _ in 0..TURNS {
        match lanes.try_take(pass, lane) {
            Err(fault) if fault == queued => return true,
            Err(_) => thread::yield_now(),
            Ok(held) => {
                lanes.back(pass, held);
                return false;
            }
        }
    }
    false
}
