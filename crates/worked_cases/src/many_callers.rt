//! Runs of two callers. Each run shows one of many orders that are lawful for its script.
ghost use Rattle.worked_cases.specs.Runs.{Holds};
ghost use Rattle.worked_cases.specs.ManyCallers.{both_wait_one_lawful_example, waiter_resumes_one_lawful_example};
ghost use Rattle.worked_cases.specs.ManyCallers.{fork_wipes_the_childs_state, handed_back_child};

/// Two callers wait, and the last one that runs is interrupted. This is one order of many.
#[tactic(auto, using(crate::proofs::CallerLanes::both_wait_one_lawful_example_holds))]
pub fn both_wait()
    ensures { Holds both_wait_one_lawful_example }
{}

/// A caller waits until another caller credits bits. This is one order of many.
#[tactic(auto, using(crate::proofs::CallerLanes::waiter_resumes_one_lawful_example_holds))]
pub fn waiter_resumes()
    ensures { Holds waiter_resumes_one_lawful_example }
{}

/// A child has a key of its own, and its parent goes on with the parent's batch.
#[tactic(auto, using(crate::proofs::CallerLanes::fork_wipes_the_childs_state_holds))]
pub fn fork_wipes_the_childs_state()
    ensures { Holds fork_wipes_the_childs_state }
{}

/// A child has a key of its own, even if its fork got no thread and the parent ran the child itself.
#[tactic(auto, using(crate::proofs::CallerLanes::handed_back_child_holds))]
pub fn handed_back_child()
    ensures { Holds handed_back_child }
{}
