//! Steps that are no form (allowed pattern) of their event, whatever entries the lanes have.
ghost use Rattle.key_names.specs.Transcripts.IsTranscript.{forms_clause};
ghost use Rattle.worked_cases.specs.Runs.{FailsFirst, transcript_with};
ghost use Rattle.worked_cases.specs.UnfitSteps.{read_without_a_look, fork_without_a_visit, looks_that_fall};
ghost use Rattle.worked_cases.specs.UnfitSteps.{visit_of_no_cpu, batch_of_the_parent};

/// A read that gets `EAGAIN` must have a look (a read of the generation).
#[tactic(auto, using(crate::proofs::UnfitForms::read_without_a_look_fails))]
pub fn read_without_a_look()
    ensures { FailsFirst forms_clause read_without_a_look.script (transcript_with read_without_a_look.lines) }
{}

/// A fork must visit the base.
#[tactic(auto, using(crate::proofs::UnfitForms::fork_without_a_visit_fails))]
pub fn fork_without_a_visit()
    ensures { FailsFirst forms_clause fork_without_a_visit.script (transcript_with fork_without_a_visit.lines) }
{}

/// No look (read of the generation) of a vgetrandom call may find a lower generation than the look before.
#[tactic(auto, using(crate::proofs::UnfitForms::looks_that_fall_fails))]
pub fn looks_that_fall()
    ensures { FailsFirst forms_clause looks_that_fall.script (transcript_with looks_that_fall.lines) }
{}

/// No visit may be on a CPU that the script does not have.
#[tactic(auto, using(crate::proofs::UnfitForms::visit_of_no_cpu_fails))]
pub fn visit_of_no_cpu()
    ensures { FailsFirst forms_clause visit_of_no_cpu.script (transcript_with visit_of_no_cpu.lines) }
{}

/// A child may not go on with its parent's batch. The child's state was wiped. So a copy from the batch, which has only
/// one look, cannot serve the child.
#[tactic(auto, using(crate::proofs::UnfitForms::batch_of_the_parent_fails))]
pub fn batch_of_the_parent()
    ensures { FailsFirst forms_clause batch_of_the_parent.script (transcript_with batch_of_the_parent.lines) }
{}
