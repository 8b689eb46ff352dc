//! The effects of calls on a lane's value, as the calls' entries define them.
ghost use Rattle.std.specs.Prelude.{◌≡◌, ◌≢◌, ◌↔◌, ℕ, ◌<◌, ◌≤◌, ◌+◌, ◌^◌, ◌++◌, None, Some, List, length, IsTrue};
ghost use Rattle.std.specs.Int.{w64, to_le_bytes};
ghost use Rattle.key_names.specs.declared.entries.PoolEntry.{PoolEntry};
ghost use Rattle.key_names.specs.declared.entries.PoolEntry.TheVariants.{Mix, Input as InputEntry, Bits as BitsEntry, Extract};
ghost use Rattle.key_names.specs.declared.entries.BaseEntry.TheVariants.{Early as EarlyEntry, Reseed, Tick, Refill};
ghost use Rattle.key_names.specs.Kernel.Keystream.{keystream};
ghost use Rattle.key_names.specs.Lanes.BaseList.{IsDue, one_more, one_less};
ghost use Rattle.base_gen.specs.BaseValue.{phase_of};
ghost use Rattle.lane_table.specs.declared.view.Handed.{Handed};
ghost use Rattle.key_names.specs.Lanes.PoolList.{PoolState, crossing, pool_step, root_of_extraction};
ghost use Rattle.input_pool.specs.PoolConforms.{crossing_of};
ghost use Rattle.lane_table.specs.declared.view.LaneEntry.TheVariants.{Pool as OfPool, Base as OfBase, Cpu as OfCpu};
ghost use Rattle.lane_table.specs.Meaning.{Model, PoolLaneConforms, ValueRepresents, made_of, nothing};

use crate::projections::{with_base, with_pool};
use base_gen::Phase;
use input_pool::Crossing;
use lane_table::{LaneState, PoolLane};
use sample_credit::input_sample;

// The bits of a full pool (`POOL_READY_BITS`).
const READY_BITS: u32 = 256;

/// Mixes bytes into the pool.
pub(crate) fn mix(state: &mut LaneState, text: &[u8])
    requires { (s : Model) × ValueRepresents 0 state.old s }
    ensures { (s : Model) → ValueRepresents 0 state.old s
        → ValueRepresents 0 state.new (made_of s (OfPool (Mix text.now 0)) nothing) }
{
    with_pool!(state, lane => lane.pool.mix(text))
}

/// Mixes bytes into the pool, and credits bits for them.
pub(crate) fn mix_and_credit(state: &mut LaneState, text: &[u8], bits: u32) -> Crossing
    requires { (s : Model) × ValueRepresents 0 state.old s }
    ensures made { (s : Model) → ValueRepresents 0 state.old s
        → ValueRepresents 0 state.new (made_of s (OfPool (Mix text.now bits)) nothing) }
    ensures crossed { (s : Model) → ValueRepresents 0 state.old s
        → crossing_of result ≡ crossing s.pool.bits (pool_step s.pool (Mix text.now bits)).bits }
{
    with_pool!(state, lane => {
        lane.pool.mix(text);
        lane.pool.credit(bits)
    })
}

/// Extracts a root from the pool.
pub(crate) fn extract(state: &mut LaneState, hw: &[u8; 32]) -> [u8; 32]
    requires { (s : Model) × ValueRepresents 0 state.old s }
    ensures made { (s : Model) (place : ℕ) → ValueRepresents 0 state.old s
        → ValueRepresents 0 state.new (made_of s (OfPool (Extract hw.now place)) nothing) }
    ensures root { (s : Model) → ValueRepresents 0 state.old s → result ≡ root_of_extraction s.pool hw.now }
{
    with_pool!(state, lane => lane.pool.extract(hw))
}

/// The bits credited to the pool.
pub(crate) fn bits(state: &LaneState) -> u32
    requires { (s : Model) × ValueRepresents 0 state.now s }
    ensures { (s : Model) → ValueRepresents 0 state.now s → result ≡ s.pool.bits }
{
    with_pool!(state, lane => lane.pool.bits())
}

/// The phase of the core.
pub(crate) fn phase(state: &LaneState) -> Phase
    requires { (s : Model) × ValueRepresents 1 state.now s }
    ensures { (s : Model) → ValueRepresents 1 state.now s → phase_of result ≡ s.base.phase }
{
    with_base!(state, lane => lane.base.phase())
}

/// How often the base was reseeded.
pub(crate) fn base_generation(state: &LaneState) -> u64
    requires { (s : Model) × ValueRepresents 1 state.now s }
    ensures { (s : Model) → ValueRepresents 1 state.now s → result ≡ s.base.generation }
{
    with_base!(state, lane => lane.base.generation())
}

/// Whether the base counts no running caller.
pub(crate) fn is_idle(state: &LaneState) -> bool
    requires { (s : Model) × ValueRepresents 1 state.now s }
    ensures { (s : Model) → ValueRepresents 1 state.now s → IsTrue result ↔ (s.base.running ≡ 0) }
{
    with_base!(state, lane => lane.base.idle())
}

/// Whether the reseed timer is due.
pub(crate) fn is_due(state: &LaneState, now: u64) -> bool
    requires { (s : Model) × ValueRepresents 1 state.now s }
    ensures { (s : Model) → ValueRepresents 1 state.now s → IsTrue result ↔ IsDue s.base.timer now }
{
    with_base!(state, lane => lane.base.due(now))
}

/// Counts one more running caller.
pub(crate) fn up(state: &mut LaneState)
    requires { (s : Model) × ValueRepresents 1 state.old s }
    ensures { (s : Model) → ValueRepresents 1 state.old s
        → ValueRepresents 1 state.new (record s { base = record s.base { running = one_more s.base.running } }) }
{
    with_base!(state, lane => lane.base.up())
}

/// Counts one running caller fewer.
pub(crate) fn down(state: &mut LaneState)
    requires { (s : Model) × ValueRepresents 1 state.old s }
    ensures { (s : Model) → ValueRepresents 1 state.old s
        → ValueRepresents 1 state.new (record s { base = record s.base { running = one_less s.base.running } }) }
{
    with_base!(state, lane => lane.base.down())
}

/// Gives the base a root before the core is ready (`CRNG_EARLY`).
pub(crate) fn install_early(state: &mut LaneState, root: [u8; 32])
    requires { (s : Model) × ValueRepresents 1 state.old s }
    ensures { (s : Model) (got : Handed) (place : ℕ) → got.key ≡ root → ValueRepresents 1 state.old s
        → ValueRepresents 1 state.new (made_of s (OfBase (EarlyEntry (Some place))) got) }
{
    with_base!(state, lane => lane.base.install_early(root))
}

/// Reseeds the base with a root.
pub(crate) fn install(state: &mut LaneState, root: [u8; 32], now: u64)
    requires conforms { (s : Model) × ValueRepresents 1 state.old s × (s.base.generation < 2 ^ 63) }
    requires now { now < 2 ^ 40 }
    ensures { (s : Model) (got : Handed) (place : ℕ) → got.key ≡ root → ValueRepresents 1 state.old s
        → ValueRepresents 1 state.new (made_of s (OfBase (Reseed place now)) got) }
{
    with_base!(state, lane => lane.base.install(root, now))
}

/// Reseeds the base with a root because the timer is due, and sets the timer again.
pub(crate) fn fire(state: &mut LaneState, root: [u8; 32], now: u64)
    requires conforms { (s : Model) × ValueRepresents 1 state.old s × (s.base.generation < 2 ^ 63) }
    requires now { now < 2 ^ 40 }
    ensures { (s : Model) (got : Handed) (place : ℕ) → got.key ≡ root → ValueRepresents 1 state.old s
        → ValueRepresents 1 state.new (made_of s (OfBase (Tick now (Some place))) got) }
{
    with_base!(state, lane => lane.base.fire(root, now))
}

/// Takes from the base the key for a refill of a CPU.
pub(crate) fn hand_over(state: &mut LaneState) -> [u8; 32]
    requires { (s : Model) × ValueRepresents 1 state.old s }
    ensures made { (s : Model) (got : Handed) (cpu place : ℕ) → ValueRepresents 1 state.old s
        → ValueRepresents 1 state.new (made_of s (OfBase (Refill cpu place)) got) }
    ensures key { (s : Model) → ValueRepresents 1 state.old s → result ≡ keystream s.base.key 32 32 }
{
    with_base!(state, lane => lane.base.call_key())
}

/// Mixes a device's word and bytes into the pool.
pub(crate) fn mix_device(state: &mut LaneState, word: u64, text: &[u8])
    requires { (s : Model) × ValueRepresents 0 state.old s }
    ensures { (s : Model) → ValueRepresents 0 state.old s
        → ValueRepresents 0 state.new (made_of s (OfPool (Mix (to_le_bytes w64 word ++ text.now) 0)) nothing) }
{
    with_pool!(state, lane => {
        lane.pool.mix(&word.to_le_bytes());
        lane.pool.mix(text);
    })
}

// Applies an input event to the pool and its timer.
fn mix_sample(lane: &mut PoolLane, word: u64, kind: u16, code: u16, value: u8, now: u64) -> Crossing
    requires { now < 2 ^ 40 }
    ensures made { (s : PoolState) → PoolLaneConforms lane.old s
        → PoolLaneConforms lane.new (pool_step s (InputEntry word kind code value now)) }
    ensures crossed { (s : PoolState) → PoolLaneConforms lane.old s
        → crossing_of result ≡ crossing s.bits (pool_step s (InputEntry word kind code value now)).bits }
{
    if !lane.timer.fresh(value) {
        return Crossing::None;
    }
    lane.pool.mix(&input_sample(word, kind, code, value));
    if lane.pool.bits() >= READY_BITS {
        return Crossing::None;
    }
    let bits = lane.timer.bits(now);
    lane.pool.credit(bits)
}

/// Mixes an input event, and credits the bits that its timing is worth.
pub(crate) fn mix_input(
    state: &mut LaneState,
    word: u64,
    kind: u16,
    code: u16,
    value: u8,
    now: u64,
) -> Crossing
    requires conforms { (s : Model) × ValueRepresents 0 state.old s }
    requires moment { now < 2 ^ 40 }
    ensures made { (s : Model) → ValueRepresents 0 state.old s
        → ValueRepresents 0 state.new (made_of s (OfPool (InputEntry word kind code value now)) nothing) }
    ensures crossed { (s : Model) → ValueRepresents 0 state.old s
        → crossing_of result ≡ crossing s.pool.bits (pool_step s.pool (InputEntry word kind code value now)).bits }
{
    with_pool!(state, lane => mix_sample(lane, word, kind, code, value, now))
}
