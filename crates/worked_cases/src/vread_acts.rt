//! Acts (events inside vgetrandom calls): an act's setting, and its place in the order of steps.
ghost use Rattle.worked_cases.specs.Runs.{Holds};
ghost use Rattle.worked_cases.specs.VreadActs.{act_has_the_cpu_of_its_read, act_conforms_at_its_point, act_before_a_fork};

/// A nested read uses the CPU of the outer read, even if the script lists the nested read while the caller is on
/// another CPU.
#[tactic(auto, using(crate::proofs::ActLanes::act_has_the_cpu_of_its_read_holds))]
pub fn act_has_the_cpu_of_its_read()
    ensures { Holds act_has_the_cpu_of_its_read }
{}

/// A nested read happens at a point of the outer read. It comes after the outer read's visits before that point, and
/// has a higher stamp than these visits.
#[tactic(auto, using(crate::proofs::ActLanes::act_conforms_at_its_point_holds))]
pub fn act_conforms_at_its_point()
    ensures { Holds act_conforms_at_its_point }
{}

/// An act comes before a fork in the script, but after the fork in the order of steps.
#[tactic(auto, using(crate::proofs::ActLanes::act_before_a_fork_holds))]
pub fn act_before_a_fork()
    ensures { Holds act_before_a_fork }
{}
