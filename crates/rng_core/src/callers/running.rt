//! The number of running callers: entries of the base that raise and lower it.
ghost use Rattle.std.specs.Prelude.{◌≤◌, ◌≡◌, ◌+◌, length};
ghost use Rattle.key_names.specs.declared.entries.BaseEntry.TheVariants.{Stall, Unstall, End};
ghost use Rattle.key_names.specs.Callers.Forms.{BaseOnly};
ghost use Rattle.rng_core.specs.Sites.{IsIdle, Does, IsOneStep, lane_of, base_lane, seen_by};

use crate::lane_values;
use crate::site::Site;
use key_names::{BaseEntry, LaneId};
use std::sync::Wait;

/// Counts the caller as not running, in a visit of the base, because it is about to run a child in its own thread.
/// The kernel has no such function.
pub fn stall<R: Wait>(rt: &R, site: &mut Site)
    requires idle { IsIdle 1 site.old }
    ensures does { Does 1 (BaseOnly Stall) site.old site.new }
    ensures step { IsOneStep site.old site.new }
{
    let mut base = site.enter(rt, LaneId::Base);
    lane_values::down(base.state_mut());
    site.visit_base(base, BaseEntry::Stall);
}

/// Counts the caller as running again, in a visit of the base.
pub fn unstall<R: Wait>(rt: &R, site: &mut Site)
    requires idle { IsIdle 1 site.old }
    ensures does { Does 1 (BaseOnly Unstall) site.old site.new }
    ensures step { IsOneStep site.old site.new }
{
    let mut base = site.enter(rt, LaneId::Base);
    lane_values::up(base.state_mut());
    site.visit_base(base, BaseEntry::Unstall);
}

/// Ends the caller, in a visit of the base. After that, the base's generation is at least each generation that the pass
/// has seen.
pub fn end<R: Wait>(rt: &R, site: &mut Site)
    requires idle { IsIdle 1 site.old }
    ensures does { Does 1 (BaseOnly End) site.old site.new }
    ensures reached { seen_by site.new ≤ (lane_of site.new base_lane).base.generation }
{
    let mut base = site.enter(rt, LaneId::Base);
    lane_values::down(base.state_mut());
    site.visit_base(base, BaseEntry::End);
}
