//! The integers of the core as words.
ghost use Rattle.std.specs.Prelude.{◌≡◌, ◌<◌, []};
ghost use Rattle.lane_table.specs.Hands.{HoldsLanes};
ghost use Rattle.rng_core.specs.Hosted.{IsFree, free_props};

use lane_table::{Lanes, Pass};
use rng_core::Setting;

/// The integers of 4 bytes that a caller reads from the core, each as a word with the lowest byte first. Each read is
/// a call of the core with its own trace.
#[derive(Drop)]
pub struct LaneWords<'a> {
    pub(crate) lanes: &'a Lanes,
    pub(crate) pass: &'a mut Pass,
    pub(crate) set: Setting,
    ghost free: { IsFree lanes.now set.caller pass.now } by { Prim.hlevel free_props },
    ghost cpu: { set.cpu < lanes.now.cpus },
}

impl<'a> LaneWords<'a> {
    /// The source of the words that `pass` reads with the setting `set`.
    pub fn over(lanes: &'a Lanes, pass: &'a mut Pass, set: Setting) -> LaneWords<'a>
        requires has { HoldsLanes lanes.now set.caller [] pass.old }
        requires cpu { set.cpu < lanes.now.cpus }
        ensures lanes { result.lanes.now ≡ lanes.now }
        ensures same_reference { result.pass.ghost_name ≡ pass.entry.ghost_name }
        ensures pass { result.pass.now ≡ pass.old }
        ensures set { result.set ≡ set }
    {
        LaneWords { lanes, pass, set }
    }
}
