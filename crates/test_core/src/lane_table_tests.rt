//! Passes of two callers that visit the same lanes.
ghost use Rattle.std.specs.Prelude.{◌≡◌, ℕ, ◌<◌, ◌≤◌, ◌^◌, []};
ghost use Rattle.key_names.specs.declared.entries.CpuEntry.TheVariants.{Irq};
ghost use Rattle.lane_table.specs.declared.view.Handed.{Handed};
ghost use Rattle.lane_table.specs.declared.view.LaneEntry.TheVariants.{Cpu};
ghost use Rattle.lane_table.specs.LaneNumbers.{index_of};
ghost use Rattle.lane_table.specs.Meaning.{Model, ValueRepresents, made_of};
ghost use Rattle.lane_table.specs.Calls.{view, count_of};
ghost use Rattle.lane_table.specs.Hands.{HoldsLanes};

use crate::passes::{split_off, started};
use crate::reseeds::{install, put_base, raise, rooted};
use key_names::{CpuEntry, LaneId, Mark, Who};
use lane_table::{Held, LaneState, Lanes, Pass, TakeFault};
use std::alloc::{AllocError, Global};
use std::sync::Wait;
use std::test::Fail;
use std::thread;
use std::thread::Threads;

const NEVER: u64 = 1 << 62;

// Joins the two halves of a pass that was split once, and ends the table.
fn counted(lanes: Lanes, mut pass: Pass, other: Pass) -> u128
    requires pass { HoldsLanes lanes 0 [] pass × ((view pass).share ≡ 1) × ((view pass).halvings ≡ 1) }
    requires other { HoldsLanes lanes 1 [] other × ((view other).share ≡ 1) × ((view other).halvings ≡ 1) }
{
    lanes.join(&mut pass, other);
    lanes.close(pass)
}

// The lane, its next place, and its last stamp.
type FoundVisit = (LaneId, u64, u64);

// Tries to take a lane for caller 1. Returns the lane, its next place and its last stamp, or the reason for the
// refusal. If the lane was taken, it is given back.
fn find(lanes: &Lanes, pass: &mut Pass, lane: LaneId) -> Result<FoundVisit, TakeFault>
    requires has { HoldsLanes lanes.now 1 [] pass.old }
    requires lane { index_of lane < count_of lanes.now }
    ensures has { HoldsLanes lanes.now 1 [] pass.new }
    ensures share { ((view pass.new).share ≡ (view pass.old).share)
        × ((view pass.new).halvings ≡ (view pass.old).halvings) }
{
    match lanes.try_take(pass, lane) {
        Err(fault) => Err(fault),
        Ok(held) => {
            let found = (held.lane(), held.place(), held.stamp());
            lanes.back(pass, held);
            Ok(found)
        }
    }
}

// The results of `find` for caller 1, at CPU 0 and at CPU 1, while caller 0 holds CPU 0.
fn beside<R: Wait>(
    rt: &R,
    lanes: &Lanes,
    pass: &mut Pass,
    other: &mut Pass,
) -> (Result<FoundVisit, TakeFault>, Result<FoundVisit, TakeFault>)
    requires has { HoldsLanes lanes.now 0 [] pass.old }
    requires other { HoldsLanes lanes.now 1 [] other.old }
    requires cpus { lanes.now.cpus ≡ 2 }
    ensures has { HoldsLanes lanes.now 0 [] pass.new }
    ensures other { HoldsLanes lanes.now 1 [] other.new }
    ensures share { ((view pass.new).share ≡ (view pass.old).share)
        × ((view pass.new).halvings ≡ (view pass.old).halvings) }
    ensures shares { ((view other.new).share ≡ (view other.old).share)
        × ((view other.new).halvings ≡ (view other.old).halvings) }
{
    let held = lanes.take(rt, pass, LaneId::Cpu(0));
    let same = find(lanes, other, LaneId::Cpu(0));
    let another = find(lanes, other, LaneId::Cpu(1));
    lanes.back(pass, held);
    (same, another)
}

// The results of `find` for caller 1 on a new table: at CPU 0 while caller 0 holds it for the first time, at CPU 1, and
// then at CPU 0 while caller 0 holds it again.
fn found_from<R: Wait>(
    rt: &R,
    alloc: Global,
    first: u64,
) -> Result<[Result<FoundVisit, TakeFault>; 3], AllocError>
    requires { first ≤ 2 ^ 62 }
{
    let (lanes, mut a) = started(alloc, 2, first)?;
    let mut b = split_off(&lanes, &mut a, 1);
    let (same, another) = beside(rt, &lanes, &mut a, &mut b);
    let (again, _) = beside(rt, &lanes, &mut a, &mut b);
    Ok([same, another, again])
}

// Mixes an interrupt into the held CPU.
fn mix(held: &mut Held)
    requires { (i : ℕ) × (s : Model) × (2 ≤ i) × ValueRepresents i held.old.state s }
    ensures turn { held.new.turn ≡ held.old.turn }
    ensures made { (i : ℕ) (s : Model) (got : Handed) → 2 ≤ i → ValueRepresents i held.old.state s
        → ValueRepresents i held.new.state (made_of s (Cpu (Irq 1 2 0)) got) }
{
    match held.state_mut() {
        LaneState::Cpu(lane) => {
            lane.fast.mix(1, 2, 0);
        }
        _ => unreachable!(),
    }
}

// One visit of CPU 0.
fn irq<R: Wait>(rt: &R, lanes: &Lanes, pass: &mut Pass, caller: u32, event: u32)
    requires has { HoldsLanes lanes.now caller [] pass.old }
    ensures has { HoldsLanes lanes.now caller [] pass.new }
    ensures share { ((view pass.new).share ≡ (view pass.old).share)
        × ((view pass.new).halvings ≡ (view pass.old).halvings) }
{
    let mut held = lanes.take(rt, pass, LaneId::Cpu(0));
    mix(&mut held);
    let who = Who {
        caller,
        event,
        step: 0,
    };
    lanes.put(
        pass,
        held,
        who,
        CpuEntry::Irq {
            v1: 1,
            v2: 2,
            now: 0,
        },
    );
}

fn irqs<R: Wait>(rt: &R, lanes: &Lanes, mut pass: Pass, caller: u32, times: u32) -> Pass
    requires { HoldsLanes lanes.now caller [] pass }
    ensures has { HoldsLanes lanes.now caller [] result }
    ensures share { ((view result).share ≡ (view pass).share) × ((view result).halvings ≡ (view pass).halvings) }
{
    for event in 0..times {
        irq(rt, lanes, &mut pass, caller, event);
    }
    pass
}

// The marks of a reseed, and the looks of another pass before and after the reseed raises the generation.
#[derive(Drop)]
struct Reseeded {
    extracted: Mark,
    reseeded: Mark,
    before: u64,
    after: u64,
}

// Extracts a root from the pool, makes the root the base's key, and raises the generation (`crng_reseed`). The other
// pass looks before and after the raise, while the base is held.
fn reseed<R: Wait>(rt: &R, lanes: &Lanes, pass: &mut Pass, other: &mut Pass) -> Reseeded
    requires has { HoldsLanes lanes.now 0 [] pass.old }
    requires other { HoldsLanes lanes.now 1 [] other.old }
    ensures has { HoldsLanes lanes.now 0 [] pass.new }
    ensures other { HoldsLanes lanes.now 1 [] other.new }
    ensures share { ((view pass.new).share ≡ (view pass.old).share)
        × ((view pass.new).halvings ≡ (view pass.old).halvings) }
    ensures shares { ((view other.new).share ≡ (view other.old).share)
        × ((view other.new).halvings ≡ (view other.old).halvings) }
{
    let mut base = lanes.take(rt, pass, LaneId::Base);
    let (root, extracted) = rooted(rt, lanes, pass, &base);
    let before = lanes.generation(other);
    let generation = install(base.state_mut(), root);
    raise(lanes, pass, &base, extracted.place, generation);
    let after = lanes.generation(other);
    let reseeded = put_base(lanes, pass, base, extracted.place);
    Reseeded {
        extracted,
        reseeded,
        before,
        after,
    }
}

// Two threads visit one CPU. The table counts their visits.
fn two_threads<R: Threads + Wait + Sync>(
    rt: &R,
    alloc: Global,
    times: u32,
) -> Result<u128, AllocError> {
    let (lanes, mut mine) = started(alloc, 1, 0)?;
    let theirs = split_off(&lanes, &mut mine, 1);
    let table = &lanes;
    let (one, two) = thread::join(
        rt,
        move || -> Pass
            requires { HoldsLanes table.now 0 [] mine × ((view mine).share ≡ 1) × ((view mine).halvings ≡ 1) }
            ensures { HoldsLanes table.entry.now 0 [] result × ((view result).share ≡ 1) × ((view result).halvings ≡ 1) }
        { irqs(rt, table, mine, 0, times) },
        move || -> Pass
            requires { HoldsLanes table.now 1 [] theirs × ((view theirs).share ≡ 1) × ((view theirs).halvings ≡ 1) }
            ensures { HoldsLanes table.entry.now 1 [] result × ((view result).share ≡ 1) × ((view result).halvings ≡ 1) }
        { irqs(rt, table, theirs, 1, times) },
    );
    Ok(counted(lanes, one, two))
}

#[test]
fn held_cpu_is_busy_and_another_is_free(rt: HostRuntime) -> Result<(), Fail> {
    let (lanes, mut a) = started(rt.alloc(), 2, 0)?;
    let mut b = split_off(&lanes, &mut a, 1);
    let (same, another) = beside(&rt, &lanes, &mut a, &mut b);
    assert_eq!(rt;
        same,
        Err(TakeFault::Busy {
            serving: 0,
            ticket: 1
        })
    );
    assert_eq!(rt; another, Ok((LaneId::Cpu(1), 0, 0)));
    let following = find(&lanes, &mut b, LaneId::Cpu(0));
    assert_eq!(rt; following, Ok((LaneId::Cpu(0), 0, 0)));
    assert_eq!(rt; counted(lanes, a, b), 0);
    Ok(())
}

fn busy<T>(serving: u64, ticket: u64) -> Result<T, TakeFault> {
    Err(TakeFault::Busy { serving, ticket })
}

#[test]
fn tickets_and_serving_numbers_count_from_the_first(rt: HostRuntime) -> Result<(), Fail> {
    let found = found_from(&rt, rt.alloc(), 7)?;
    assert_eq!(rt; found, [busy(7, 8), Ok((LaneId::Cpu(1), 0, 7)), busy(8, 9)]);
    let last = NEVER - 2;
    let found = found_from(&rt, rt.alloc(), last)?;
    assert_eq!(rt;
        found,
        [
            busy(last, last + 1),
            Ok((LaneId::Cpu(1), 0, last)),
            Err(TakeFault::Spent)
        ]
    );
    Ok(())
}

#[test]
fn every_lane_is_spent_at_the_end_of_the_stamps(rt: HostRuntime) -> Result<(), Fail> {
    let (lanes, mut a) = started(rt.alloc(), 1, NEVER)?;
    let mut b = split_off(&lanes, &mut a, 1);
    assert_eq!(rt; find(&lanes, &mut b, LaneId::Pool), Err(TakeFault::Spent));
    assert_eq!(rt; find(&lanes, &mut b, LaneId::Base), Err(TakeFault::Spent));
    assert_eq!(rt; find(&lanes, &mut b, LaneId::Cpu(0)), Err(TakeFault::Spent));
    Ok(())
}

#[test]
fn look_finds_a_raise_before_the_base_is_put(rt: HostRuntime) -> Result<(), Fail> {
    let (lanes, mut a) = started(rt.alloc(), 1, 0)?;
    let mut b = split_off(&lanes, &mut a, 1);
    let done = reseed(&rt, &lanes, &mut a, &mut b);
    assert_eq!(rt; (done.before, done.after), (0, 1));
    assert_eq!(rt; (done.extracted.place, done.extracted.stamp), (0, 1));
    assert_eq!(rt; (done.reseeded.place, done.reseeded.stamp), (0, 2));
    assert_eq!(rt; counted(lanes, a, b), 2);
    Ok(())
}

#[test]
fn visits_of_two_threads_are_all_counted(rt: HostRuntime) -> Result<(), Fail> {
    assert_eq!(rt; two_threads(&rt, rt.alloc(), 2000)?, 4000);
    Ok(())
}
