//! A read in two parts: it makes at most 32 bytes while it holds a lane, and the rest after it released the lane.
ghost use Rattle.std.specs.Prelude.{◌≡◌, ◌≤◌, ℕ, Some, None};
ghost use Rattle.key_names.specs.declared.entries.BaseEntry.TheVariants.{Draw};
ghost use Rattle.key_names.specs.declared.entries.CpuEntry.TheVariants.{Read};
ghost use Rattle.key_names.specs.Keys.KeyInUse.{taken_bytes};
ghost use Rattle.base_gen.specs.BaseValue.{erased as base_erased};
ghost use Rattle.cpu_gen.specs.CpuValue.{erased};
ghost use Rattle.lane_table.specs.declared.view.LaneEntry.TheVariants.{Base as OfBase, Cpu as OfCpu};
ghost use Rattle.lane_table.specs.declared.view.Handed.{Handed};
ghost use Rattle.lane_table.specs.Meaning.{Model, ValueRepresents, made_of};
ghost use Rattle.rng_core.specs.Reading.{IsCpuValue};
ghost use Rattle.rng_core.specs.Rests.{Asks, finished, IsBegun};

use crate::projections::{with_base, with_cpu};
use base_gen::Base;
use chacha_blocks::Detached;
use cpu_gen::Cpu;
use key_names::Taken;
use lane_table::LaneState;

// A block has this many bytes after the 32 that replace the key. While a read holds a lane, it makes at most this many
// bytes.
const MOST_UNDER_LANE: usize = 32;

/// The part of a read after its first bytes. This part needs no lane: the read's key was erased from the lane.
#[derive(Drop)]
pub(crate) struct Rest {
    pub(crate) made: usize,
    pub(crate) key: Detached,
}

impl Rest {
    /// Makes the remaining bytes (the work of `_get_random_bytes` after `crng_make_state`).
    pub(crate) fn fill(self, buf: &mut [u8])
        requires { IsBegun self buf.old }
        ensures { buf.new ≡ finished self buf.old }
    {
        let Rest { made, mut key } = self;
        if made < buf.len() {
            key.more(&mut buf[made..]);
        }
    }
}

// Erases the CPU's key, and makes up to 32 bytes (`crng_fast_key_erasure`).
fn front_of_cpu(cpu: &mut Cpu, buf: &mut [u8], taken: Taken) -> Rest
    requires { Asks taken buf.old }
    ensures state { cpu.new ≡ erased cpu.old }
    ensures begun { IsBegun result buf.new }
    ensures rest { finished result buf.new ≡ taken_bytes cpu.old.key taken }
{
    if let Taken::User(count) = taken {
        if count > 32 {
            let key = Detached::of(cpu.call_key(), 1);
            return Rest { made: 0, key };
        }
    }
    let made = buf.len().min(MOST_UNDER_LANE);
    let key = cpu.front(&mut buf[..made]);
    Rest { made, key }
}

// Erases the base's key, and makes up to 32 bytes (`crng_fast_key_erasure`).
fn front_of_base(base: &mut Base, buf: &mut [u8], taken: Taken) -> Rest
    requires { Asks taken buf.old }
    ensures state { base.new ≡ base_erased base.old }
    ensures begun { IsBegun result buf.new }
    ensures rest { finished result buf.new ≡ taken_bytes base.old.key taken }
{
    if let Taken::User(count) = taken {
        if count > 32 {
            let key = Detached::of(base.call_key(), 1);
            return Rest { made: 0, key };
        }
    }
    let made = buf.len().min(MOST_UNDER_LANE);
    let key = base.draw(&mut buf[..made]);
    Rest { made, key }
}

/// Begins a read from the CPU: erases its key, and makes at most 32 bytes with the key.
pub(crate) fn read(state: &mut LaneState, buf: &mut [u8], taken: Taken) -> Rest
    requires conforms { IsCpuValue state.old }
    requires asks { Asks taken buf.old }
    ensures made { (lane : ℕ) (s : Model) (got : Handed) (look : ℕ) → 2 ≤ lane → ValueRepresents lane state.old s
        → ValueRepresents lane state.new (made_of s (OfCpu (Read look None taken)) got) }
    ensures begun { IsBegun result buf.new }
    ensures rest { (lane : ℕ) (s : Model) → 2 ≤ lane → ValueRepresents lane state.old s
        → finished result buf.new ≡ taken_bytes s.cpu.cpu.key taken }
{
    with_cpu!(state, lane => front_of_cpu(&mut lane.cpu, buf, taken))
}

/// Begins a read from the CPU with the key that the base hands over, as `read` does with the CPU's own key.
pub(crate) fn read_refilled(
    state: &mut LaneState,
    key: [u8; 32],
    generation: u64,
    buf: &mut [u8],
    taken: Taken,
) -> Rest
    requires conforms { IsCpuValue state.old }
    requires asks { Asks taken buf.old }
    ensures made { (lane : ℕ) (s : Model) (got : Handed) (look place : ℕ) → 2 ≤ lane → got.key ≡ key
        → got.generation ≡ generation → ValueRepresents lane state.old s
        → ValueRepresents lane state.new (made_of s (OfCpu (Read look (Some place) taken)) got) }
    ensures begun { IsBegun result buf.new }
    ensures rest { finished result buf.new ≡ taken_bytes key taken }
{
    with_cpu!(state, lane => {
        lane.cpu.refill(key, generation);
        front_of_cpu(&mut lane.cpu, buf, taken)
    })
}

/// Begins a read from the base: erases its key, and makes at most 32 bytes with the key.
pub(crate) fn draw(state: &mut LaneState, buf: &mut [u8], taken: Taken) -> Rest
    requires conforms { (s : Model) × ValueRepresents 1 state.old s }
    requires asks { Asks taken buf.old }
    ensures made { (s : Model) (got : Handed) → ValueRepresents 1 state.old s
        → ValueRepresents 1 state.new (made_of s (OfBase (Draw None taken)) got) }
    ensures begun { IsBegun result buf.new }
    ensures rest { (s : Model) → ValueRepresents 1 state.old s
        → finished result buf.new ≡ taken_bytes s.base.key taken }
{
    with_base!(state, lane => front_of_base(&mut lane.base, buf, taken))
}

/// Begins a read from the base with a root that serves this read alone.
pub(crate) fn draw_rooted(
    state: &mut LaneState,
    root: [u8; 32],
    buf: &mut [u8],
    taken: Taken,
) -> Rest
    requires conforms { (s : Model) × ValueRepresents 1 state.old s }
    requires asks { Asks taken buf.old }
    ensures made { (s : Model) (got : Handed) (place : ℕ) → got.key ≡ root → ValueRepresents 1 state.old s
        → ValueRepresents 1 state.new (made_of s (OfBase (Draw (Some place) taken)) got) }
    ensures begun { IsBegun result buf.new }
    ensures rest { finished result buf.new ≡ taken_bytes root taken }
{
    with_base!(state, lane => {
        lane.base.fill_empty(root);
        front_of_base(&mut lane.base, buf, taken)
    })
}
