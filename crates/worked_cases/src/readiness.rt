//! Reads before the core is ready, and how the core becomes ready.
ghost use Rattle.worked_cases.specs.Runs.{Holds};
ghost use Rattle.worked_cases.specs.Readiness.{first_run, before_readiness, first_use_after_credit};
ghost use Rattle.worked_cases.specs.Readiness.{empty_base_extracts_each_time, read_of_33_before_readiness};
ghost use Rattle.worked_cases.specs.Readiness.{early_then_ready, early_step_skipped, early_base_no_second_extraction};
ghost use Rattle.worked_cases.specs.Readiness.{random_file_not_ready, kernel_and_file_reads};

/// A write, and a read that is served from a root (a base key from an extraction) made for this read alone.
#[tactic(auto, using(crate::proofs::ReadinessLanes::first_run_holds))]
pub fn first_run()
    ensures { Holds first_run }
{}

/// A core that is not ready: reads (`EAGAIN`, `EINVAL`, `EINTR`), a reseed (`ENODATA`), and the core's bits.
#[tactic(auto, using(crate::proofs::ReadinessLanes::before_readiness_holds))]
pub fn before_readiness()
    ensures { Holds before_readiness }
{}

/// A credit of 256 bits makes the core ready, and a read gets the CPU a key from the base (a refill).
#[tactic(auto, using(crate::proofs::ReadinessLanes::first_use_after_credit_holds))]
pub fn first_use_after_credit()
    ensures { Holds first_use_after_credit }
{}

/// While fewer than 128 bits are credited, each read that is served extracts a root (new base key).
#[tactic(auto, using(crate::proofs::ReadinessLanes::empty_base_extracts_each_time_holds))]
pub fn empty_base_extracts_each_time()
    ensures { Holds empty_base_extracts_each_time }
{}

/// A read of more than 32 bytes is served from a key of its own.
#[tactic(auto, using(crate::proofs::ReadinessLanes::read_of_33_before_readiness_holds))]
pub fn read_of_33_before_readiness()
    ensures { Holds read_of_33_before_readiness }
{}

/// The pool's bits cross 128 and then 256.
#[tactic(auto, using(crate::proofs::ReadinessLanes::early_then_ready_holds))]
pub fn early_then_ready()
    ensures { Holds early_then_ready }
{}

/// A credit that passes both 128 and 256 makes the core ready.
#[tactic(auto, using(crate::proofs::ReadinessLanes::early_step_skipped_holds))]
pub fn early_step_skipped()
    ensures { Holds early_step_skipped }
{}

/// If the base has an early key (128 bits are credited), a read extracts no root (new base key).
#[tactic(auto, using(crate::proofs::ReadinessLanes::early_base_no_second_extraction_holds))]
pub fn early_base_no_second_extraction()
    ensures { Holds early_base_no_second_extraction }
{}

/// Reads of /dev/random, one that does not wait and one that waits in vain.
#[tactic(auto, using(crate::proofs::ReadinessLanes::random_file_not_ready_holds))]
pub fn random_file_not_ready()
    ensures { Holds random_file_not_ready }
{}

/// A kernel read of 33 bytes, and reads of /dev/urandom and /dev/random.
#[tactic(auto, using(crate::proofs::ReadinessLanes::kernel_and_file_reads_holds))]
pub fn kernel_and_file_reads()
    ensures { Holds kernel_and_file_reads }
{}
