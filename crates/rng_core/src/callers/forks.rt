//! The fork of a caller: an entry of the base records the child, and the caller's pass is split for it.
ghost use Rattle.rng_core.specs.Forks.{TellsOf, SplitsOff};
ghost use Rattle.rng_core.specs.Sites.{IsIdle};

use crate::lane_values;
use crate::site::Site;
use key_names::{BaseEntry, LaneId};
use lane_table::Pass;
use std::sync::Wait;

// Records one more running caller.
fn tell<R: Wait>(rt: &R, site: &mut Site, child: u32)
    requires idle { IsIdle 1 site.old }
    ensures { TellsOf child site.old site.new }
{
    let mut base = site.enter(rt, LaneId::Base);
    lane_values::up(base.state_mut());
    site.visit_base(base, BaseEntry::Fork { child });
}

/// Makes the caller `child`, which counts as running from now on. Returns the child's pass, which has this pass's
/// knowledge and half of this pass's share.
pub fn fork<R: Wait>(rt: &R, site: &mut Site, child: u32) -> Pass
    requires idle { IsIdle 1 site.old }
    ensures { SplitsOff child result site.old site.new }
{
    tell(rt, site, child);
    site.lanes.split(site.pass, child)
}
