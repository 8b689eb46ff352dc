//! Random integers, served out of a CPU's batches after the core is ready.
ghost use Rattle.std.specs.Prelude.{◌≡◌, ◌≤◌, Bool, true, None, Some, length};
ghost use Rattle.key_names.specs.declared.entries.CpuEntry.TheVariants.{Int};
ghost use Rattle.key_names.specs.declared.events.Answer.TheVariants.{Ok as Done};
ghost use Rattle.key_names.specs.Transcripts.SeenLine.{bytes_or_none};
ghost use Rattle.key_names.specs.Kernel.Batches.{must_fill};
ghost use Rattle.lane_table.specs.declared.view.LaneEntry.TheVariants.{Cpu as OfCpu};
ghost use Rattle.rng_core.specs.Makes.{Serving, setting_of};
ghost use Rattle.rng_core.specs.Integers.{IsWidth, BatchedForm, int_event};
ghost use Rattle.rng_core.specs.Sites.{IsIdle, IsOnCpu, HasRoom, Holds, HoldsWith, IsFill, IsRefill, VisitedServing, Does, Completes, own_lane, own_cpu, seen_by};

use crate::cpu_values;
use crate::crng::keys::KeyHandoff;
use crate::crng::reads::read_after;
use crate::site::Site;
use key_names::{CpuEntry, Taken};
use lane_table::Held;
use std::sync::Wait;

// Serves an integer out of a batch. If the batch needs a fill, the CPU's own key fills it; that key is of the
// generation that the look found.
fn serve(site: &mut Site, mut cpu: Held, look: u64, filled: bool, out: &mut [u8])
    requires holds { Holds (own_lane site.old) cpu site.old }
    requires fill { IsFill look (length out.old) filled site.old }
    requires width { IsWidth (length out.old) }
    requires room { HasRoom 1 site.old }
    ensures { VisitedServing (own_lane site.old) cpu (OfCpu (Int look None (length out.old) filled)) out.new site.old
        site.new }
{
    let width = out.len() as u8;
    cpu_values::serve(cpu.state_mut(), look, out);
    let entry = CpuEntry::Int {
        look,
        refill: None,
        width,
        filled,
    };
    site.visit_cpu(cpu, entry);
}

// Serves an integer out of a batch that the CPU fills with a key from the base.
fn serve_refilled(site: &mut Site, mut cpu: Held, look: u64, base: &KeyHandoff, out: &mut [u8])
    requires holds { HoldsWith (Some base.now.place) 0 (own_lane site.old) cpu site.old }
    requires refill { IsRefill look base.now site.old }
    requires fills { must_fill look (length out.old) ((own_cpu site.old).fills (length out.old)) ≡ true }
    requires width { IsWidth (length out.old) }
    requires room { HasRoom 1 site.old }
    ensures { VisitedServing (own_lane site.old) cpu (OfCpu (Int look (Some base.now.place) (length out.old) true)) out.new
        site.old site.new }
{
    let width = out.len() as u8;
    cpu_values::serve_refilled(cpu.state_mut(), base.key, base.generation, look, out);
    let entry = CpuEntry::Int {
        look,
        refill: Some(base.place),
        width,
        filled: true,
    };
    site.visit_cpu(cpu, entry);
}

// Serves an integer out of a CPU's batch (`DEFINE_BATCHED_ENTROPY` after the core is ready).
fn serve_batched<R: Wait>(rt: &R, site: &mut Site, out: &mut [u8])
    requires idle { IsIdle 3 site.old }
    requires cpu { IsOnCpu site.old }
    requires ready { 1 ≤ seen_by site.old }
    requires width { IsWidth (length out.old) }
    ensures { Does 3 (Serving (BatchedForm (setting_of site.old.set) (length out.old)) out.new) site.old site.new }
{
    let (cpu, look) = site.enter_cpu(rt);
    if !cpu_values::wants(cpu.state(), out.len(), look) {
        serve(site, cpu, look, false, out);
        return;
    }
    if look == cpu_values::cpu_generation(cpu.state()) {
        serve(site, cpu, look, true, out);
        return;
    }
    let base = site.refill(rt, &cpu);
    serve_refilled(site, cpu, look, &base, out);
}

/// Serves a random integer of 1, 2, 4 or 8 bytes, the length of `out` (`get_random_u8` to `get_random_u64`). Before
/// the core is ready, a kernel read makes the integer, and no batch is used.
pub fn int<R: Wait>(rt: &R, site: &mut Site, out: &mut [u8])
    requires idle { IsIdle 4 site.old }
    requires cpu { IsOnCpu site.old }
    requires width { IsWidth (length out.old) }
    ensures { Completes 4 (int_event (length out.old)) Done (bytes_or_none out.new) site.old site.new }
{
    let found = site.look();
    if found == 0 {
        let taken = Taken::Kernel(out.len() as u32);
        read_after(rt, site, found, out, taken);
        return;
    }
    serve_batched(rt, site, out);
}
