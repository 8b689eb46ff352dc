//! The effects of calls on a CPU's value, as the calls' entries define them.
ghost use Rattle.std.specs.Prelude.{◌≡◌, ◌≢◌, ℕ, ◌<◌, ◌≤◌, ◌+◌, ◌^◌, Bool, true, None, Some, length};
ghost use Rattle.key_names.specs.declared.entries.CpuEntry.TheVariants.{Read, Int, Irq, Dump as DumpEntry, Prepare, Online};
ghost use Rattle.key_names.specs.Kernel.Batches.{must_fill};
ghost use Rattle.key_names.specs.Kernel.FastPool.{makes_due, dump_bits, dump_bytes};
ghost use Rattle.lane_table.specs.declared.view.LaneEntry.TheVariants.{Cpu as OfCpu};
ghost use Rattle.lane_table.specs.declared.view.Handed.{Handed};
ghost use Rattle.lane_table.specs.Meaning.{Model, ValueRepresents, made_of};
ghost use Rattle.lane_table.specs.VisitsMet.{cpu_serving};
ghost use Rattle.rng_core.specs.Reading.{IsCpuValue};
ghost use Rattle.rng_core.specs.Integers.{IsWidth};

use crate::batches;
use crate::projections::with_cpu;
use lane_table::LaneState;
use sample_credit::Dump;

/// The generation of the CPU's key.
pub(crate) fn cpu_generation(state: &LaneState) -> u64
    requires { IsCpuValue state.now }
    ensures { (lane : ℕ) (s : Model) → 2 ≤ lane → ValueRepresents lane state.now s → result ≡ s.cpu.cpu.generation }
{
    with_cpu!(state, lane => lane.cpu.generation())
}

/// Whether the batch of this width has to be filled before it serves an integer at generation `look`.
pub(crate) fn wants(state: &LaneState, width: usize, look: u64) -> bool
    requires conforms { IsCpuValue state.now }
    requires width { IsWidth width }
    ensures { (lane : ℕ) (s : Model) → 2 ≤ lane → ValueRepresents lane state.now s
        → result ≡ must_fill look width (s.cpu.fills width) }
{
    with_cpu!(state, lane => batches::wants(lane, width, look))
}

/// Serves an integer out of the batch of its width; if the batch has to be filled, the CPU's key fills it first.
pub(crate) fn serve(state: &mut LaneState, look: u64, out: &mut [u8])
    requires conforms { IsCpuValue state.old }
    requires width { IsWidth (length out.old) }
    ensures made { (lane : ℕ) (s : Model) (got : Handed) (filled : Bool) → 2 ≤ lane
        → filled ≡ must_fill look (length out.old) (s.cpu.fills (length out.old)) → ValueRepresents lane state.old s
        → ValueRepresents lane state.new (made_of s (OfCpu (Int look None (length out.old) filled)) got) }
    ensures bytes { (lane : ℕ) (s : Model) (got : Handed) (filled : Bool) → 2 ≤ lane
        → filled ≡ must_fill look (length out.old) (s.cpu.fills (length out.old)) → ValueRepresents lane state.old s
        → out.new ≡ cpu_serving s.cpu got (Int look None (length out.old) filled) }
{
    with_cpu!(state, lane => batches::serve(lane, look, out))
}

/// Refills the CPU with the key from the base. That key then fills the batch of this width, and the batch serves its
/// first integer.
pub(crate) fn serve_refilled(
    state: &mut LaneState,
    key: [u8; 32],
    generation: u64,
    look: u64,
    out: &mut [u8],
)
    requires conforms { IsCpuValue state.old }
    requires width { IsWidth (length out.old) }
    ensures made { (lane : ℕ) (s : Model) (got : Handed) (place : ℕ) → 2 ≤ lane → got.key ≡ key
        → got.generation ≡ generation → must_fill look (length out.old) (s.cpu.fills (length out.old)) ≡ true
        → ValueRepresents lane state.old s → ValueRepresents lane state.new
        (made_of s (OfCpu (Int look (Some place) (length out.old) true)) got) }
    ensures bytes { (lane : ℕ) (s : Model) (got : Handed) (place : ℕ) → 2 ≤ lane → got.key ≡ key
        → got.generation ≡ generation → must_fill look (length out.old) (s.cpu.fills (length out.old)) ≡ true
        → ValueRepresents lane state.old s → out.new ≡ cpu_serving s.cpu got
        (Int look (Some place) (length out.old) true) }
{
    with_cpu!(state, lane => {
        lane.cpu.refill(key, generation);
        batches::serve(lane, look, out);
    })
}

/// Takes an interrupt's sample, and returns whether a dump is due.
pub(crate) fn sample(state: &mut LaneState, v1: u64, v2: u64, now: u64) -> bool
    requires { IsCpuValue state.old }
    ensures made { (lane : ℕ) (s : Model) (got : Handed) → 2 ≤ lane → ValueRepresents lane state.old s
        → ValueRepresents lane state.new (made_of s (OfCpu (Irq v1 v2 now)) got) }
    ensures due { (lane : ℕ) (s : Model) → 2 ≤ lane → ValueRepresents lane state.old s →
        result ≡ makes_due s.cpu.fast now }
{
    with_cpu!(state, lane => lane.fast.mix(v1, v2, now))
}

/// Takes the dump out of the CPU's fast pool; the caller mixes it into the input pool.
pub(crate) fn dump(state: &mut LaneState, now: u64) -> Dump
    requires { IsCpuValue state.old }
    ensures made { (lane : ℕ) (s : Model) (got : Handed) → 2 ≤ lane → ValueRepresents lane state.old s
        → ValueRepresents lane state.new (made_of s (OfCpu (DumpEntry now)) got) }
    ensures bytes { (lane : ℕ) (s : Model) → 2 ≤ lane → ValueRepresents lane state.old s
        → result.bytes ≡ dump_bytes s.cpu.fast }
    ensures bits { (lane : ℕ) (s : Model) → 2 ≤ lane → ValueRepresents lane state.old s
        → result.bits ≡ dump_bits s.cpu.fast }
{
    with_cpu!(state, lane => lane.fast.dump(now))
}

/// Brings the CPU online.
pub(crate) fn online(state: &mut LaneState)
    requires { IsCpuValue state.old }
    ensures { (lane : ℕ) (s : Model) (got : Handed) → 2 ≤ lane → ValueRepresents lane state.old s
        → ValueRepresents lane state.new (made_of s (OfCpu Online) got) }
{
    with_cpu!(state, lane => lane.fast.online())
}

/// Prepares the CPU to come online: its key counts as old, and its batches as used up.
pub(crate) fn prepare(state: &mut LaneState)
    requires { IsCpuValue state.old }
    ensures { (lane : ℕ) (s : Model) (got : Handed) → 2 ≤ lane → ValueRepresents lane state.old s
        → ValueRepresents lane state.new (made_of s (OfCpu Prepare) got) }
{
    with_cpu!(state, lane => {
        lane.cpu.prepare();
        lane.b8.drop_rest();
        lane.b16.drop_rest();
        lane.b32.drop_rest();
        lane.b64.drop_rest();
    })
}
