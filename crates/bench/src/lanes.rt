//! Loops over a lane (the pool, the base or a CPU, with its lock) and over a `Mutex`, both without contention.
ghost use Rattle.std.specs.Prelude.{◌≡◌, ◌≢◌, ℕ, ◌+◌, ◌^◌, ◌<◌, ◌≤◌, [], IfOk};
ghost use Rattle.key_names.specs.declared.entries.CpuEntry.TheVariants.{Irq};
ghost use Rattle.lane_table.specs.declared.view.Handed.{Handed};
ghost use Rattle.lane_table.specs.declared.view.LaneEntry.TheVariants.{Cpu};
ghost use Rattle.lane_table.specs.Meaning.{Model, ValueRepresents, made_of};
ghost use Rattle.lane_table.specs.Hands.{HoldsLanes};

use key_names::{CpuEntry, LaneId, Who};
use lane_table::{Held, LaneState, Lanes, Pass};
use std::alloc::{AllocError, Global};
use std::sync::{Mutex, Wait};

const NEVER: u64 = 1 << 62;

fn started(alloc: Global) -> Result<(Lanes, Pass), AllocError>
    ensures { IfOk result (λ r. HoldsLanes r.0 0 [] r.1) }
{
    Lanes::start(alloc, 1, 0)
}

// Mixes an interrupt into the held CPU.
fn mix(held: &mut Held)
    requires { (i : ℕ) × (s : Model) × (2 ≤ i) × ValueRepresents i held.old.state s }
    ensures turn { held.new.turn ≡ held.old.turn }
    ensures made { (i : ℕ) (s : Model) (got : Handed) → 2 ≤ i → ValueRepresents i held.old.state s
        → ValueRepresents i held.new.state (made_of s (Cpu (Irq 1 2 0)) got) }
{
    match held.state_mut() {
        LaneState::Cpu(lane) => {
            lane.fast.mix(1, 2, 0);
        }
        _ => unreachable!(),
    }
}

// One visit of CPU 0: takes the CPU, mixes an interrupt into it, and puts it back.
fn visit<R: Wait>(rt: &R, lanes: &Lanes, pass: &mut Pass, event: u32)
    requires { HoldsLanes lanes.now 0 [] pass.old }
    ensures { HoldsLanes lanes.now 0 [] pass.new }
{
    if pass.stamp() >= NEVER {
        return;
    }
    let mut held = lanes.take(rt, pass, LaneId::Cpu(0));
    mix(&mut held);
    let caller = pass.caller();
    let who = Who {
        caller,
        event,
        step: 0,
    };
    lanes.put(
        pass,
        held,
        who,
        CpuEntry::Irq {
            v1: 1,
            v2: 2,
            now: 0,
        },
    );
}

/// The stamp after `count` visits of a CPU.
pub fn visits<R: Wait>(rt: &R, alloc: Global, count: u32) -> Result<u64, AllocError> {
    let (lanes, mut pass) = started(alloc)?;
    for event in 0..count {
        visit(rt, &lanes, &mut pass, event);
    }
    Ok(pass.stamp())
}

/// Locks a `Mutex` `count` times, adds one to a number each time, and returns the number.
pub fn locks<R: Wait>(rt: &R, count: u32) -> u64 {
    let number = Mutex::new(0u64);
    for _ in 0..count {
        let mut guard = number.lock(rt);
        *guard = guard.wrapping_add(1);
    }
    let guard = number.lock(rt);
    *guard
}
