//! The base and the CPUs of a ready core: refills, reseeds and their timer, batched integers.
ghost use Rattle.worked_cases.specs.Runs.{Holds};
ghost use Rattle.worked_cases.specs.Generators.{two_cpus, cpu_255, reseed_timer, late_interval};
ghost use Rattle.worked_cases.specs.Generators.{int16_across_readiness_and_reseed, prepare_refills};
ghost use Rattle.worked_cases.specs.Generators.{vmfork_before_and_after_readiness, int8_batch_of_96};

/// Each CPU gets a key of its own from the base (a refill), and another one after a reseed.
#[tactic(auto, using(crate::proofs::GeneratorLanes::two_cpus_holds))]
pub fn two_cpus()
    ensures { Holds two_cpus }
{}

/// A run on the last of 256 CPUs.
#[tactic(auto, using(crate::proofs::GeneratorLanes::cpu_255_holds))]
pub fn cpu_255()
    ensures { Holds cpu_255 }
{}

/// The reseed timer fires when it is due, and a forced reseed does not change the timer.
#[tactic(auto, using(crate::proofs::GeneratorLanes::reseed_timer_holds))]
pub fn reseed_timer()
    ensures { Holds reseed_timer }
{}

/// From 120 seconds on, the timer fires 60 seconds after it was set, even if an event in between has an earlier moment.
#[tactic(auto, using(crate::proofs::GeneratorLanes::late_interval_holds))]
pub fn late_interval()
    ensures { Holds late_interval }
{}

/// Integers that are read before the core is ready, when it is ready, and after a reseed.
#[tactic(auto, using(crate::proofs::GeneratorLanes::int16_across_readiness_and_reseed_holds))]
pub fn int16_across_readiness_and_reseed()
    ensures { Holds int16_across_readiness_and_reseed }
{}

/// A read on a CPU that was prepared gets the CPU a new key from the base.
#[tactic(auto, using(crate::proofs::GeneratorLanes::prepare_refills_holds))]
pub fn prepare_refills()
    ensures { Holds prepare_refills }
{}

/// A VM fork reseeds a ready core. If the core is not ready, the fork only mixes bytes into the pool.
#[tactic(auto, using(crate::proofs::GeneratorLanes::vmfork_before_and_after_readiness_holds))]
pub fn vmfork_before_and_after_readiness()
    ensures { Holds vmfork_before_and_after_readiness }
{}

/// A CPU's batch of 96 bytes is used up, and the next batch begins.
#[tactic(auto, using(crate::proofs::GeneratorLanes::int8_batch_of_96_holds))]
pub fn int8_batch_of_96()
    ensures { Holds int8_batch_of_96 }
{}
