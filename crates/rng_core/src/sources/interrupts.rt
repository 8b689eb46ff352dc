//! Interrupts: samples of a CPU's fast pool, and its dumps into the input pool.
ghost use Rattle.key_names.specs.declared.events.Event.TheVariants.{Irq as IrqEvent};
ghost use Rattle.key_names.specs.declared.events.Answer.TheVariants.{Ok as Done};
ghost use Rattle.key_names.specs.Transcripts.SeenLine.{no_data};
ghost use Rattle.rng_core.specs.Makes.{IsOutcomeOf, setting_of};
ghost use Rattle.rng_core.specs.SampleEffects.{DumpConforms, Sampled};
ghost use Rattle.rng_core.specs.Sites.{IsIdle, IsOnCpu, IsTimely, DoesIn, Entered, own_lane, own_places};

use crate::cpu_values;
use crate::site::Site;
use crate::sources::samples::add;
use key_names::{CpuEntry, LaneId};
use lane_table::Held;
use std::sync::Wait;

// Takes the CPU that the caller runs on.
fn enter_own<R: Wait>(rt: &R, site: &mut Site) -> Held
    requires idle { IsIdle 0 site.old }
    requires cpu { IsOnCpu site.old }
    ensures { Entered (own_lane site.new) result site.old site.new }
{
    let lane = LaneId::Cpu(site.set.cpu);
    site.enter(rt, lane)
}

// Makes a dump that is due: the fast pool's content goes into the input pool (`mix_interrupt_randomness`).
fn dump<R: Wait>(rt: &R, site: &mut Site)
    requires idle { IsIdle 4 site.old }
    requires cpu { IsOnCpu site.old }
    requires moment { IsTimely site.old }
    ensures { DoesIn 4 (DumpConforms (setting_of site.old.set) (own_places site.old)) site.old site.new }
{
    let mut cpu = enter_own(rt, site);
    let now = site.set.now;
    let dump = cpu_values::dump(cpu.state_mut(), now);
    site.visit_cpu(cpu, CpuEntry::Dump { now });
    add(rt, site, &dump.bytes, dump.bits);
}

/// Handles an interrupt (`add_interrupt_randomness`): takes its sample, and makes a dump if and only if the sample
/// makes one due.
// Without this hint a run of interrupts is 2 to 5 % slower.
#[inline(always)]
pub fn irq<R: Wait>(rt: &R, site: &mut Site, v1: u64, v2: u64)
    requires idle { IsIdle 5 site.old }
    requires cpu { IsOnCpu site.old }
    requires moment { IsTimely site.old }
    ensures { DoesIn 5 (Sampled (IsOutcomeOf (setting_of site.old.set) (IrqEvent v1 v2) Done no_data)) site.old
        site.new }
{
    let mut cpu = enter_own(rt, site);
    let now = site.set.now;
    let due = cpu_values::sample(cpu.state_mut(), v1, v2, now);
    site.visit_cpu(cpu, CpuEntry::Irq { v1, v2, now });
    if !due {
        return;
    }
    dump(rt, site);
}
