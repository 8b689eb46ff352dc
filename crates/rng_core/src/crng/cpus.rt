//! CPUs that come online.
ghost use Rattle.std.specs.Prelude.{◌<◌};
ghost use Rattle.key_names.specs.declared.events.Event.TheVariants.{Prepare as PrepareEvent, Online as OnlineEvent};
ghost use Rattle.key_names.specs.declared.events.Answer.TheVariants.{Ok as Done};
ghost use Rattle.key_names.specs.Transcripts.SeenLine.{no_data};
ghost use Rattle.rng_core.specs.Sites.{IsIdle, Completes};

use crate::cpu_values;
use crate::site::Site;
use key_names::{CpuEntry, LaneId};
use std::sync::Wait;

/// Prepares a CPU of the table to come online (`random_prepare_cpu`).
pub fn prepare<R: Wait>(rt: &R, site: &mut Site, cpu: u32)
    requires idle { IsIdle 1 site.old }
    requires cpu { cpu < site.old.lanes.now.cpus }
    ensures { Completes 1 (PrepareEvent cpu) Done no_data site.old site.new }
{
    let mut held = site.enter(rt, LaneId::Cpu(cpu));
    cpu_values::prepare(held.state_mut());
    site.visit(held, CpuEntry::Prepare);
}

/// Brings a CPU of the table online (`random_online_cpu`).
pub fn online<R: Wait>(rt: &R, site: &mut Site, cpu: u32)
    requires idle { IsIdle 1 site.old }
    requires cpu { cpu < site.old.lanes.now.cpus }
    ensures { Completes 1 (OnlineEvent cpu) Done no_data site.old site.new }
{
    let mut held = site.enter(rt, LaneId::Cpu(cpu));
    cpu_values::online(held.state_mut());
    site.visit(held, CpuEntry::Online);
}
