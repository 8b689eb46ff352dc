//! Worked cases of interrupts and input events.
ghost use Rattle.worked_cases.specs.Runs.{Holds};
ghost use Rattle.worked_cases.specs.SampleEvents.{irq_at_1000_no_dump, irq_at_1001_dumps, input_timer};
ghost use Rattle.worked_cases.specs.SampleEvents.{input_bytes_mixed};

/// An interrupt at 1,000 milliseconds makes no dump due.
#[tactic(auto, using(crate::proofs::SampleLanes::irq_at_1000_no_dump_holds))]
pub fn irq_at_1000_no_dump()
    ensures { Holds irq_at_1000_no_dump }
{}

/// An interrupt at 1,001 milliseconds makes a dump due, and the dump credits one bit.
#[tactic(auto, using(crate::proofs::SampleLanes::irq_at_1001_dumps_holds))]
pub fn irq_at_1001_dumps()
    ensures { Holds irq_at_1001_dumps }
{}

/// The differences between the moments of input events determine their credit. An event that repeats a value is
/// credited with no bits.
#[tactic(auto, using(crate::proofs::SampleLanes::input_timer_holds))]
pub fn input_timer()
    ensures { Holds input_timer }
{}

/// The bytes that an input event mixes.
#[tactic(auto, using(crate::proofs::SampleLanes::input_bytes_mixed_holds))]
pub fn input_bytes_mixed()
    ensures { Holds input_bytes_mixed }
{}
