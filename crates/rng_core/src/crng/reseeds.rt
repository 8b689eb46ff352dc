//! Reseeds of the base from the pool.
ghost use Rattle.std.specs.Prelude.{◌≡◌, ◌<◌, ◌≤◌, ℕ, Some, IsOk};
ghost use Rattle.key_names.specs.declared.entries.BaseEntry.TheVariants.{Reseed, Early as EarlyEntry, Tick as TickEntry};
ghost use Rattle.key_names.specs.declared.events.Event.TheVariants.{Reseed as ReseedEvent, Tick as TickEvent};
ghost use Rattle.key_names.specs.Callers.Forms.{Rooted, Cross};
ghost use Rattle.key_names.specs.Transcripts.SeenLine.{no_data};
ghost use Rattle.key_names.specs.Lanes.BaseList.{IsDue, empty};
ghost use Rattle.key_names.specs.Lanes.PoolList.{early};
ghost use Rattle.lane_table.specs.Calls.{view};
ghost use Rattle.input_pool.specs.PoolConforms.{crossing_of};
ghost use Rattle.rng_core.specs.Causes.{ReseedCause};
ghost use Rattle.rng_core.specs.Makes.{setting_of, result_answer, tick_result};
ghost use Rattle.rng_core.specs.Sites.{IsIdle, IsTimely, HasRoom, Holds, IsLow, Does, Completes, lane_of, base_lane, seen_by};

use crate::lane_values;
use crate::site::Site;
use base_gen::Phase;
use input_pool::Crossing;
use key_names::{BaseEntry, Errno, LaneId};
use lane_table::Held;
use std::sync::Wait;

/// Gives the base a root of the pool as its key, and raises the generation (`crng_reseed`).
pub(crate) fn reseed_base<R: Wait>(rt: &R, site: &mut Site)
    requires idle { IsIdle 2 site.old }
    requires moment { IsTimely site.old }
    ensures does { Does 2 (Rooted (setting_of site.old.set) (λ r. Reseed r site.old.set.now)) site.old site.new }
    ensures rises { seen_by site.old < seen_by site.new }
{
    let now = site.set.now;
    let mut base = site.enter(rt, LaneId::Base);
    let root = site.extract_raising(rt, &base);
    lane_values::install(base.state_mut(), root.key, now);
    let entry = BaseEntry::Reseed {
        root: root.place,
        now,
    };
    site.visit_base(base, entry);
}

/// Reseeds the core on request (`random_ioctl` of `RNDRESEEDCRNG`). After success the caller has seen a higher
/// generation than any that it had seen before.
///
/// # Errors
///
/// `NoData` if and only if the look finds that the core is not ready. A caller that saw the core ready before never
/// gets this error.
pub fn reseed<R: Wait>(rt: &R, site: &mut Site) -> Result<(), Errno>
    requires idle { IsIdle 3 site.old }
    requires moment { IsTimely site.old }
    ensures does { Completes 3 ReseedEvent (result_answer result) no_data site.old site.new }
    ensures cause { ReseedCause result site.old site.new }
    ensures rises { IsOk result → seen_by site.old < seen_by site.new }
{
    if site.look() == 0 {
        return Err(Errno::NoData);
    }
    reseed_base(rt, site);
    Ok(())
}

// Reseeds the base because the timer is due: installs a root, and sets the timer again.
fn fire<R: Wait>(rt: &R, site: &mut Site, mut base: Held)
    requires holds { Holds base_lane base site.old }
    requires due { IsDue (lane_of site.old base_lane).base.timer site.old.set.now }
    requires low { IsLow site.old }
    requires moment { IsTimely site.old }
    requires room { HasRoom 2 site.old }
    ensures { Does 2 (Rooted (setting_of site.old.set) (λ r. TickEntry site.old.set.now (Some r))) site.old site.new }
{
    let now = site.set.now;
    let root = site.extract_raising(rt, &base);
    lane_values::fire(base.state_mut(), root.key, now);
    let entry = BaseEntry::Tick {
        now,
        root: Some(root.place),
    };
    site.visit_base(base, entry);
}

/// Checks the reseed timer at this moment (the delayed work of `crng_reseed`). Returns whether the timer was due and
/// the base was reseeded.
pub fn tick<R: Wait>(rt: &R, site: &mut Site) -> bool
    requires idle { IsIdle 2 site.old }
    requires moment { IsTimely site.old }
    ensures { Completes 2 TickEvent (tick_result result) no_data site.old site.new }
{
    let now = site.set.now;
    let base = site.enter(rt, LaneId::Base);
    if lane_values::is_due(base.state(), now) {
        fire(rt, site, base);
        return true;
    }
    site.visit_base(base, BaseEntry::Tick { now, root: None });
    false
}

// Gives a root to a base that was never seeded (`crng_init` rises to `CRNG_EARLY`).
fn seed_early<R: Wait>(rt: &R, site: &mut Site, mut base: Held)
    requires holds { Holds base_lane base site.old }
    requires unseeded { (lane_of site.old base_lane).base.phase ≡ empty }
    requires room { HasRoom 2 site.old }
    ensures { Does 2 (Rooted (setting_of site.old.set) (λ r. EarlyEntry (Some r))) site.old site.new }
{
    let root = site.extract(rt, &base);
    lane_values::install_early(base.state_mut(), root.key);
    let entry = BaseEntry::Early {
        root: Some(root.place),
    };
    site.visit_base(base, entry);
}

// Handles a credit that reaches 128 bits, half of what readiness needs.
fn cross_early<R: Wait>(rt: &R, site: &mut Site)
    requires idle { IsIdle 2 site.old }
    ensures { Does 2 (Cross (setting_of site.old.set) early) site.old site.new }
{
    let base = site.enter(rt, LaneId::Base);
    if lane_values::phase(base.state()) == Phase::Empty {
        seed_early(rt, site, base);
        return;
    }
    site.visit_base(base, BaseEntry::Early { root: None });
}

/// Handles the threshold that a credit crossed (`_credit_init_bits`).
pub(crate) fn cross<R: Wait>(rt: &R, site: &mut Site, crossing: Crossing)
    requires idle { IsIdle 2 site.old }
    requires moment { IsTimely site.old }
    ensures { Does 2 (Cross (setting_of site.old.set) (crossing_of crossing)) site.old site.new }
{
    match crossing {
        Crossing::None => {}
        Crossing::Early => cross_early(rt, site),
        Crossing::Ready => reseed_base(rt, site),
    }
}
