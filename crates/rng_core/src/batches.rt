//! A CPU's batches of integers, one for each width.
ghost use Rattle.std.specs.Prelude.{◌≡◌, ◌<◌, ◌/◌, ℕ, Bool, None, length};
ghost use Rattle.key_names.specs.declared.entries.CpuEntry.TheVariants.{Int};
ghost use Rattle.key_names.specs.Kernel.Batches.{must_fill};
ghost use Rattle.lane_table.specs.declared.view.Handed.{Handed};
ghost use Rattle.lane_table.specs.Meaning.{CpuModel, CpuLaneConforms, batch_at, cpu_entered};
ghost use Rattle.lane_table.specs.VisitsMet.{cpu_serving};
ghost use Rattle.int_batch.specs.BatchValue.{next_bytes, after_serving};
ghost use Rattle.rng_core.specs.Integers.{IsWidth};

use cpu_gen::Cpu;
use int_batch::Batch;
use lane_table::CpuLane;

// Serves the next integer of a batch that has one left.
fn serve_next<const W: usize>(batch: &mut Batch<W>, out: &mut [u8])
    requires left { batch.old.position < 96 / W }
    requires width { length out.old ≡ W }
    ensures batch { batch.new ≡ after_serving W batch.old }
    ensures bytes { out.new ≡ next_bytes W batch.old }
{
    out.copy_from_slice(&batch.serve());
}

// Serves the next integer of a batch; if the batch has to be filled, the CPU's key fills it first.
fn serve_from<const W: usize>(cpu: &mut Cpu, batch: &mut Batch<W>, look: u64, out: &mut [u8])
    requires width { IsWidth W }
    requires out { length out.old ≡ W }
    ensures cpu { (c : CpuModel) (got : Handed) (filled : Bool) → cpu.old ≡ c.cpu → batch.old ≡ batch_at W c
        → filled ≡ must_fill look W (c.fills W) → cpu.new ≡ (cpu_entered (Int look None W filled) got c).cpu }
    ensures batch { (c : CpuModel) (got : Handed) (filled : Bool) → cpu.old ≡ c.cpu → batch.old ≡ batch_at W c
        → filled ≡ must_fill look W (c.fills W) → batch.new ≡ batch_at W (cpu_entered (Int look None W filled) got c) }
    ensures bytes { (c : CpuModel) (got : Handed) (filled : Bool) → cpu.old ≡ c.cpu → batch.old ≡ batch_at W c
        → filled ≡ must_fill look W (c.fills W) → out.new ≡ cpu_serving c got (Int look None W filled) }
{
    if !batch.wants(look) {
        serve_next(batch, out);
        return;
    }
    let mut bytes = [0; 96];
    cpu.kernel_read(&mut bytes);
    batch.refill(&bytes, look);
    serve_next(batch, out);
}

/// Whether the batch of this width has to be filled before it serves an integer at generation `look`.
pub(crate) fn wants(lane: &CpuLane, width: usize, look: u64) -> bool
    requires { IsWidth width }
    ensures { (c : CpuModel) → CpuLaneConforms lane.now c → result ≡ must_fill look width (c.fills width) }
{
    match width {
        1 => lane.b8.wants(look),
        2 => lane.b16.wants(look),
        4 => lane.b32.wants(look),
        8 => lane.b64.wants(look),
        _ => unreachable!(),
    }
}

/// Serves an integer at generation `look` out of the batch of its width (`get_random_u8` to `get_random_u64`).
pub(crate) fn serve(lane: &mut CpuLane, look: u64, out: &mut [u8])
    requires { IsWidth (length out.old) }
    ensures made { (c : CpuModel) (got : Handed) (filled : Bool) → CpuLaneConforms lane.old c
        → filled ≡ must_fill look (length out.old) (c.fills (length out.old))
        → CpuLaneConforms lane.new (cpu_entered (Int look None (length out.old) filled) got c) }
    ensures bytes { (c : CpuModel) (got : Handed) (filled : Bool) → CpuLaneConforms lane.old c
        → filled ≡ must_fill look (length out.old) (c.fills (length out.old))
        → out.new ≡ cpu_serving c got (Int look None (length out.old) filled) }
{
    match out.len() {
        1 => serve_from(&mut lane.cpu, &mut lane.b8, look, out),
        2 => serve_from(&mut lane.cpu, &mut lane.b16, look, out),
        4 => serve_from(&mut lane.cpu, &mut lane.b32, look, out),
        8 => serve_from(&mut lane.cpu, &mut lane.b64, look, out),
        _ => unreachable!(),
    }
}
