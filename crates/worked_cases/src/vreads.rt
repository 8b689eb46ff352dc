//! Worked cases of vgetrandom calls.
ghost use Rattle.worked_cases.specs.Runs.{Holds};
ghost use Rattle.worked_cases.specs.Vreads.{vread_batch, vread_of_nothing, wipe_inside_with_nested_read};
ghost use Rattle.worked_cases.specs.Vreads.{reseed_inside_vread, point_not_reached, two_vgetrandom_states, load_1_1_8};

/// Three reads from one vgetrandom state: the first with a new key, the second from the batch, the third with a new
/// batch.
#[tactic(auto, using(crate::proofs::VreadLanes::vread_batch_holds))]
pub fn vread_batch()
    ensures { Holds vread_batch }
{}

/// A `vread` of no bytes has one look (a read of the generation).
#[tactic(auto, using(crate::proofs::VreadLanes::vread_of_nothing_holds))]
pub fn vread_of_nothing()
    ensures { Holds vread_of_nothing }
{}

/// A read with another read inside it, and a wipe in the middle. The second attempt reads a new key.
#[tactic(auto, using(crate::proofs::VreadLanes::wipe_inside_with_nested_read_holds))]
pub fn wipe_inside_with_nested_read()
    ensures { Holds wipe_inside_with_nested_read }
{}

/// A reseed in the middle of a read outdates the read's first attempt.
#[tactic(auto, using(crate::proofs::VreadLanes::reseed_inside_vread_holds))]
pub fn reseed_inside_vread()
    ensures { Holds reseed_inside_vread }
{}

/// If a `vread` does not reach the point of an act (an event inside the `vread`), the act is not done.
#[tactic(auto, using(crate::proofs::VreadLanes::point_not_reached_holds))]
pub fn point_not_reached()
    ensures { Holds point_not_reached }
{}

/// Two vgetrandom states, each with a key of its own.
#[tactic(auto, using(crate::proofs::VreadLanes::two_vgetrandom_states_holds))]
pub fn two_vgetrandom_states()
    ensures { Holds two_vgetrandom_states }
{}

/// The script of a generated load of one CPU, one caller and eight calls.
#[tactic(auto, using(crate::proofs::VreadLanes::load_1_1_8_holds))]
pub fn load_1_1_8()
    ensures { Holds load_1_1_8 }
{}
