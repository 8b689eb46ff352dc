//! A whole reseed (`crng_reseed`), step by step.
ghost use Rattle.std.specs.Prelude.{◌≡◌, ℕ, ◌+◌, ◌^◌, ◌<◌, ◌≤◌, [], ◌∷◌, Some, None};
ghost use Rattle.key_names.specs.declared.entries.PoolEntry.TheVariants.{Extract};
ghost use Rattle.key_names.specs.declared.entries.BaseEntry.TheVariants.{Reseed};
ghost use Rattle.key_names.specs.Lanes.PoolList.{root_of_extraction};
ghost use Rattle.lane_table.specs.declared.view.Handed.{Handed};
ghost use Rattle.lane_table.specs.declared.view.LaneEntry.TheVariants.{Pool, Base};
ghost use Rattle.lane_table.specs.Meaning.{Model, ValueRepresents, made_of, got_of, nothing};
ghost use Rattle.lane_table.specs.WorldRule.{known_of};
ghost use Rattle.lane_table.specs.Calls.{view, SameView};
ghost use Rattle.lane_table.specs.Hands.{HoldsLanes, hand, model};

use key_names::{BaseEntry, LaneId, Mark, PoolNote, Who};
use lane_table::{Held, LaneState, Lanes, Pass};
use std::sync::Wait;

const NOW: u64 = 1000;

const HARDWARE: [u8; 32] = [0; 32];

const WHO: Who = Who {
    caller: 0,
    event: 0,
    step: 0,
};

// Extracts a root (the next base key) from the pool, and returns it.
fn extract(state: &mut LaneState) -> [u8; 32]
    requires { (s : Model) × ValueRepresents 0 state.old s }
    ensures made { (s : Model) (place : ℕ) → ValueRepresents 0 state.old s
        → ValueRepresents 0 state.new (made_of s (Pool (Extract HARDWARE place)) nothing) }
    ensures root { (s : Model) → ValueRepresents 0 state.old s → result ≡ root_of_extraction s.pool HARDWARE }
{
    match state {
        LaneState::Pool(lane) => lane.pool.extract(&HARDWARE),
        _ => unreachable!(),
    }
}

/// Installs a root in the base, and returns the new generation.
pub(crate) fn install(state: &mut LaneState, root: [u8; 32]) -> u64
    requires { (s : Model) × ValueRepresents 1 state.old s × (s.base.generation < 2 ^ 62) }
    ensures made { (s : Model) (place : ℕ) (got : Handed) → got.key ≡ root → ValueRepresents 1 state.old s
        → ValueRepresents 1 state.new (made_of s (Base (Reseed place 1000)) got) }
    ensures generation { (s : Model) → ValueRepresents 1 state.old s → result ≡ s.base.generation + 1 }
{
    match state {
        LaneState::Base(lane) => {
            lane.base.install(root, NOW);
            lane.base.generation()
        }
        _ => unreachable!(),
    }
}

// Puts the pool back. The entry is an extraction that names the place of the held base.
fn put_pool(lanes: &Lanes, pass: &mut Pass, base: &Held, pool: Held) -> Mark
    requires has { HoldsLanes lanes.now 0 (hand pool.turn None 0 ∷ hand base.now.turn None 0 ∷ []) pass.old }
    requires at { (pool.turn.lane ≡ 0) × (base.now.turn.lane ≡ 1) }
    requires makes { ValueRepresents 0 pool.state (made_of (model pass.old 0) (Pool (Extract HARDWARE base.now.turn.place))
        nothing) }
    requires early { pass.old.stamp < 2 ^ 62 }
    ensures has { HoldsLanes lanes.now 0 (hand base.now.turn (Some result.place) 0 ∷ []) pass.new }
    ensures kept { model pass.new 1 ≡ model pass.old 1 }
    ensures root { (got_of (Some result.place) (known_of (view pass.new) 0)).key ≡ root_of_extraction
        (model pass.old 0).pool HARDWARE }
    ensures same { SameView (view pass.old) (view pass.new) }
    ensures early { pass.new.stamp ≤ 2 ^ 62 }
{
    let note = PoolNote::Extract {
        hw: HARDWARE,
        base_place: base.place(),
    };
    lanes.put(pass, pool, WHO, note)
}

/// Extracts a root for the held base. Returns the root with the mark of the extraction.
pub(crate) fn rooted<R: Wait>(
    rt: &R,
    lanes: &Lanes,
    pass: &mut Pass,
    base: &Held,
) -> ([u8; 32], Mark)
    requires has { HoldsLanes lanes.now 0 (hand base.now.turn None 0 ∷ []) pass.old }
    requires at { base.now.turn.lane ≡ 1 }
    ensures has { HoldsLanes lanes.now 0 (hand base.now.turn (Some result.1.place) 0 ∷ []) pass.new }
    ensures kept { model pass.new 1 ≡ model pass.old 1 }
    ensures root { (got_of (Some result.1.place) (known_of (view pass.new) 0)).key ≡ result.0 }
    ensures share { ((view pass.new).share ≡ (view pass.old).share)
        × ((view pass.new).halvings ≡ (view pass.old).halvings) }
    ensures early { pass.new.stamp ≤ 2 ^ 62 }
{
    let mut pool = lanes.take(rt, pass, LaneId::Pool);
    let root = extract(pool.state_mut());
    let extracted = put_pool(lanes, pass, base, pool);
    (root, extracted)
}

/// Raises the generation to the one that the base will have after its next entry.
pub(crate) fn raise(lanes: &Lanes, pass: &mut Pass, base: &Held, root: u64, generation: u64)
    requires has { HoldsLanes lanes.now 0 (hand base.now.turn (Some root) 0 ∷ []) pass.old }
    requires at { base.now.turn.lane ≡ 1 }
    requires next { generation ≡ (model pass.old 1).base.generation + 1 }
    ensures has { HoldsLanes lanes.now 0 (hand base.now.turn (Some root) 1 ∷ []) pass.new }
    ensures kept { model pass.new 1 ≡ model pass.old 1 }
    ensures following { known_of (view pass.new) 0 ≡ known_of (view pass.old) 0 }
    ensures share { ((view pass.new).share ≡ (view pass.old).share)
        × ((view pass.new).halvings ≡ (view pass.old).halvings) }
    ensures early { pass.new.stamp ≡ pass.old.stamp }
{
    let _root = root;
    lanes.raise(pass, base, generation);
}

/// Puts the reseeded base back. The entry is the reseed.
pub(crate) fn put_base(lanes: &Lanes, pass: &mut Pass, base: Held, root: u64) -> Mark
    requires has { HoldsLanes lanes.now 0 (hand base.turn (Some root) 1 ∷ []) pass.old }
    requires at { base.turn.lane ≡ 1 }
    requires makes { ValueRepresents 1 base.state (made_of (model pass.old 1) (Base (Reseed root 1000))
        (got_of (Some root) (known_of (view pass.old) 0))) }
    requires early { pass.old.stamp ≤ 2 ^ 62 }
    ensures has { HoldsLanes lanes.now 0 [] pass.new }
    ensures share { ((view pass.new).share ≡ (view pass.old).share)
        × ((view pass.new).halvings ≡ (view pass.old).halvings) }
{
    lanes.put(pass, base, WHO, BaseEntry::Reseed { root, now: NOW })
}
