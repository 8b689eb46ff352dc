//! A caller waits for a CPU while a pass outside the run holds that CPU.
ghost use Rattle.std.specs.Prelude.{◌≡◌, ◌*◌, ◌^◌, []};
ghost use Rattle.key_names.specs.Texts.ScriptGrammar.{WellFormed};
ghost use Rattle.lane_table.specs.declared.view.View.{View};
ghost use Rattle.lane_table.specs.Steps.{halved, child};
ghost use Rattle.lane_table.specs.Calls.{view};
ghost use Rattle.lane_table.specs.Hands.{HoldsLanes};
ghost use Rattle.caller_run.specs.Families.{SameShare};
ghost use Rattle.caller_run.specs.Plans.{IsPlanFor};

use crate::passes::{is_set_in_time, sees_another_queued, split_off, started};
use caller_run::{Plan, run_all};
use event_script::{Script, read};
use io_edges::Gate;
use key_names::LaneId;
use lane_table::{Lanes, Pass};
use std::alloc::{AllocError, Global};
use std::sync::Wait;
use std::sync::atomic::{AtomicBool, Ordering};
use std::test::Fail;
use std::thread;
use std::thread::Threads;

const SCRIPT: &[u8] = b"rngscript 1\n\
    cpus 2\n\
    caller 0\n\
    credit 256\n\
    fork 1\n\
    kread 8\n\
    caller 1\n\
    on 1\n\
    kread 8\n\
    bits\n\
    end\n";

// The progress of the test. Caller 1 waits before its read until caller 0 is queued for CPU 0.
#[derive(Drop)]
struct HeldCpu {
    cpu_is_held: AtomicBool,
    parent_is_queued: AtomicBool,
    child_has_read: AtomicBool,
    is_late: AtomicBool,
}

impl HeldCpu {
    fn new() -> HeldCpu {
        HeldCpu {
            cpu_is_held: AtomicBool::new(false),
            parent_is_queued: AtomicBool::new(false),
            child_has_read: AtomicBool::new(false),
            is_late: AtomicBool::new(false),
        }
    }

    fn wait_for(&self, flag: &AtomicBool) {
        if !is_set_in_time(flag) {
            self.is_late.store(true, Ordering::SeqCst);
        }
    }
}

impl Gate for HeldCpu {
    fn before<R: Wait>(&self, _rt: &R, caller: u32, event: u32) {
        match (caller, event) {
            (1, 1) => self.wait_for(&self.parent_is_queued),
            (1, 2) => self.child_has_read.store(true, Ordering::SeqCst),
            _ => {}
        }
    }
}

// Holds CPU 0 until caller 0 is queued for it and caller 1 has read.
fn hold<R: Wait>(
    rt: &R,
    lanes: &Lanes,
    mut pass: Pass,
    mut watcher: Pass,
    gate: &HeldCpu,
) -> (Pass, Pass)
    requires pass { HoldsLanes lanes.now 2 [] pass }
    requires watcher { HoldsLanes lanes.now 3 [] watcher }
    ensures pass { HoldsLanes lanes.now 2 [] result.0 }
    ensures watcher { HoldsLanes lanes.now 3 [] result.1 }
    ensures share { ((view result.0).share ≡ (view pass).share) × ((view result.0).halvings ≡ (view pass).halvings) }
    ensures shares { ((view result.1).share ≡ (view watcher).share)
        × ((view result.1).halvings ≡ (view watcher).halvings) }
{
    let held = lanes.take(rt, &mut pass, LaneId::Cpu(0));
    gate.cpu_is_held.store(true, Ordering::SeqCst);
    let queued = sees_another_queued(lanes, &mut watcher, 3, LaneId::Cpu(0));
    gate.parent_is_queued.store(true, Ordering::SeqCst);
    if queued {
        gate.wait_for(&gate.child_has_read);
    } else {
        gate.is_late.store(true, Ordering::SeqCst);
    }
    lanes.back(&mut pass, held);
    (pass, watcher)
}

// Waits until CPU 0 is held, and then runs the script.
fn run_after<R: Threads + Wait + Sync>(
    rt: &R,
    lanes: &Lanes,
    pass: Pass,
    script: &Script,
    plan: Plan,
    gate: &HeldCpu,
) -> Pass
    requires has { HoldsLanes lanes.now 0 [] pass }
    requires share { ((view pass).share ≡ 1) × ((view pass).halvings ≡ 2) }
    requires well { WellFormed script.now }
    requires cpus { lanes.now.cpus ≡ script.now.cpus }
    requires plan { IsPlanFor script.now plan }
    ensures has { HoldsLanes lanes.now 0 [] result }
    ensures share { (view result).share * 4 ≡ 2 ^ (view result).halvings }
{
    gate.wait_for(&gate.cpu_is_held);
    let (pass, _transcript) = run_all(rt, lanes, pass, script, plan, gate);
    pass
}

fn join_in(lanes: &Lanes, pass: &mut Pass, other: Pass, _caller: u32)
    requires pass { HoldsLanes lanes.now 0 [] pass.old }
    requires other { HoldsLanes lanes.now _caller [] other }
    ensures pass { HoldsLanes lanes.now 0 [] pass.new }
    ensures share { (whole : View) → SameShare (halved whole) (view pass.old) → SameShare (child whole) (view other)
        → SameShare whole (view pass.new) }
{
    lanes.join(pass, other);
}

// `pass` has a quarter of the share, `half` a half, and `quarter` a quarter. Joins the other two to `pass`, and closes
// the table.
fn closed(lanes: Lanes, mut pass: Pass, half: Pass, quarter: Pass) -> u128
    requires pass { HoldsLanes lanes 0 [] pass × ((view pass).share * 4 ≡ 2 ^ (view pass).halvings) }
    requires half { HoldsLanes lanes 2 [] half × ((view half).share ≡ 1) × ((view half).halvings ≡ 1) }
    requires quarter { HoldsLanes lanes 3 [] quarter × ((view quarter).share ≡ 1) × ((view quarter).halvings ≡ 2) }
{
    join_in(&lanes, &mut pass, quarter, 3);
    join_in(&lanes, &mut pass, half, 2);
    lanes.close(pass)
}

// Runs the script while CPU 0 is held, and returns the number of visits.
fn visits_of<R: Threads + Wait + Sync>(
    rt: &R,
    alloc: Global,
    script: &Script,
    gate: &HeldCpu,
) -> Result<u128, AllocError>
    requires { WellFormed script.now }
{
    let plan = Plan::make(alloc, script)?;
    let (lanes, mut pass) = started(alloc, script.cpus(), 0)?;
    let half = split_off(&lanes, &mut pass, 2);
    let quarter = split_off(&lanes, &mut pass, 3);
    let table = &lanes;
    let ((half, quarter), pass) = thread::join(
        rt,
        move || -> (Pass, Pass)
            requires { HoldsLanes table.now 2 [] half × ((view half).share ≡ 1) × ((view half).halvings ≡ 1)
                × HoldsLanes table.now 3 [] quarter × ((view quarter).share ≡ 1) × ((view quarter).halvings ≡ 2) }
            ensures { HoldsLanes table.entry.now 2 [] result.0 × ((view result.0).share ≡ 1) × ((view result.0).halvings ≡ 1)
                × HoldsLanes table.entry.now 3 [] result.1 × ((view result.1).share ≡ 1) × ((view result.1).halvings ≡ 2) }
        { hold(rt, table, half, quarter, gate) },
        move || -> Pass
            requires { HoldsLanes table.now 0 [] pass × ((view pass).share ≡ 1) × ((view pass).halvings ≡ 2)
                × WellFormed script.now × (table.now.cpus ≡ script.now.cpus)
                × IsPlanFor script.now plan }
            ensures { HoldsLanes table.entry.now 0 [] result × ((view result).share * 4 ≡ 2 ^ (view result).halvings) }
        { run_after(rt, table, pass, script, plan, gate) },
    );
    Ok(closed(lanes, pass, half, quarter))
}

#[test]
fn a_held_cpu_stops_nobody_else(rt: HostRuntime) -> Result<(), Fail> {
    let alloc = rt.alloc();
    let Ok(script) = read(alloc, SCRIPT) else {
        panic!(&rt; "no script");
    };
    let gate = HeldCpu::new();
    let visits = visits_of(&rt, alloc, &script, &gate)?;
    assert!(rt; !gate.is_late.load(Ordering::SeqCst));
    assert_eq!(rt; visits, 11);
    Ok(())
}
