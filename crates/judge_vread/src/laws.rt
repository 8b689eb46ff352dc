//! The laws of following a `vread`, each as the contract of a function without code.
//!
//! If each visit of some steps has its inferred entry, and the code can follow the steps, they are a `vread`. If the
//! entries of a `vread` fit, the code can follow it, and returns the answer, bytes and state that its meaning has.
ghost use Rattle.judge_vread.specs.Laws.{FollowedIsVread, VreadIsFollowed, CalledIsRow, RowIsCalled, CalledSays};
ghost use Rattle.judge_vread.specs.Laws.{ActJoins, VreadIsInferred};

/// If each visit of some steps has the inferred entry, and the code can follow the steps, they are a `vread`.
#[tactic(auto, using(crate::proofs::Vreads::vread_of_followed))]
pub fn followed_is_vread()
    ensures { FollowedIsVread }
{}

/// If the entries of a `vread` fit, the `vread` can be followed, and the result has the answer, bytes and state of its
/// meaning.
pub fn vread_is_followed()
    ensures { VreadIsFollowed }
{}

/// If the code recognizes a system call by its seen steps, the list of their kinds is a row of a system call.
#[tactic(auto, using(crate::proofs::CalledRows::called_row))]
pub fn called_is_row()
    ensures { CalledIsRow }
{}

/// If the kinds of seen steps are a row of a system call, the code recognizes the steps as this system call.
#[tactic(auto, using(crate::proofs::CalledRows::row_called))]
pub fn row_is_called()
    ensures { RowIsCalled }
{}

/// If each visit of a system call that the code recognizes has the inferred entry, the code returns the answer and
/// bytes that the call's effects give.
pub fn called_says()
    ensures { CalledSays }
{}

/// If an act is appended to a list of acts, `Inside::add` changes what the list does to the state into what the longer
/// list does.
#[tactic(auto, using(crate::proofs::Vreads::act_joins))]
pub fn act_joins()
    ensures { ActJoins }
{}

/// If all entries of a `vread` fit (its lanes allow them), each visit has the entry that is inferred from the steps
/// around it.
pub fn vread_is_inferred()
    ensures { VreadIsInferred }
{}
