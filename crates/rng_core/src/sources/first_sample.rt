//! The first sample of a new core.
ghost use Rattle.std.specs.Prelude.{◌≡◌, ◌^◌, ◌<◌, [], List};
ghost use Rattle.std.specs.List.{range_with_len};
ghost use Rattle.key_names.specs.declared.events.Event.TheVariants.{Add};
ghost use Rattle.key_names.specs.declared.events.Answer.TheVariants.{Ok as Done};
ghost use Rattle.key_names.specs.declared.names.Step.{Step};
ghost use Rattle.key_names.specs.Transcripts.SeenLine.{no_data};
ghost use Rattle.lane_table.specs.Hands.{HoldsLanes};
ghost use Rattle.rng_core.specs.Traces.{moment};
ghost use Rattle.rng_core.specs.Makes.{Makes, IsOutcomeOf, setting_of};

use crate::setting::Setting;
use crate::site::Site;
use crate::sources::samples::add;
use key_names::Trace;
use lane_table::{Lanes, Pass};
use std::sync::Wait;

const SAMPLE: [u8; 32] = [
    0, 1, 2, 3, 4, 5, 6, 7, 8, 9, 10, 11, 12, 13, 14, 15, 16, 17, 18, 19, 20, 21, 22, 23, 24, 25,
    26, 27, 28, 29, 30, 31,
];

const SAMPLE_BITS: u32 = 256;

/// Adds the bytes 0 to 31 and credits 256 bits for them, which makes a new core ready. The call's trace is not
/// returned. The pass must hold no lane, and holds none afterwards; `set.now` must be below 2^40.
pub fn add_first_sample<R: Wait>(rt: &R, lanes: &Lanes, pass: &mut Pass, set: Setting)
    requires has { HoldsLanes lanes.now set.caller [] pass.old }
    requires moment { set.now < 2 ^ 40 }
    ensures has { HoldsLanes lanes.now set.caller [] pass.new }
    ensures did { (steps : List Step) × Makes (IsOutcomeOf (setting_of set) (Add (range_with_len 0 32) 256) Done no_data)
        set (moment pass.old []) (moment pass.new steps) }
{
    let mut trace = Trace::empty();
    let mut site = Site {
        lanes,
        pass,
        trace: &mut trace,
        set,
    };
    add(rt, &mut site, &SAMPLE, SAMPLE_BITS);
}
