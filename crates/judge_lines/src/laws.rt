//! The laws of forms (what the steps of an event may be) and of rows (lists of kinds of steps). Each law is the
//! contract of a function without code.
//!
//! Suppose that all entries of a line fit the states of their lanes, and that the line's samples are correct. Then the
//! line's steps are a form of its event exactly if two things hold. Their kinds are a row of the event, and each visit
//! has the entry that is inferred from the steps around it.
ghost use Rattle.judge_lines.specs.Laws.{KeyRowIsCall, LastRowIsCall, KeyCallIsInferred, LastCallIsInferred};
ghost use Rattle.judge_lines.specs.Laws.{LawfulListsFit, ActHasForm, ActIsInferred, ActRowIsForm};
ghost use Rattle.judge_lines.specs.Laws.{ActFormIsRow, FormIsInferred, EndIsInferred, SystemCallIsInferred, SystemRowIsForm};
ghost use Rattle.judge_lines.specs.Laws.{RowIsForm, EndRowIsForm, FormIsRow, EndFormIsRow, SystemFormIsRow};

/// If the entries of an event's form fit their lanes and the form's samples are correct, each visit has the entry that
/// is inferred from the steps around it.
#[tactic(auto, using(crate::proofs::InferredEvents::form_inferred))]
pub fn form_is_inferred()
    ensures { FormIsInferred }
{}

/// Each visit in the line of a caller's end has the entry that is inferred from the steps around it.
#[tactic(auto, using(crate::proofs::InferredEvents::end_inferred))]
pub fn end_is_inferred()
    ensures { EndIsInferred }
{}

/// If the entries of a system call fit their lanes, each of its visits has the inferred entry.
#[tactic(auto, using(crate::proofs::InferredReads::system_inferred))]
pub fn system_call_is_inferred()
    ensures { SystemCallIsInferred }
{}

/// If steps have the kinds of a system call and the inferred entries, they are a system call.
#[tactic(auto, using(crate::proofs::RowReads::system_rows))]
pub fn system_row_is_form()
    ensures { SystemRowIsForm }
{}

/// If the kinds of steps are a row of an event, and each visit has the inferred entry, the steps are a form of the
/// event.
#[tactic(auto, using(crate::proofs::RowEvents::row_form))]
pub fn row_is_form()
    ensures { RowIsForm }
{}

/// If steps have the kinds and the inferred entries of a caller's end, they are a caller's end.
#[tactic(auto, using(crate::proofs::RowEvents::end_row))]
pub fn end_row_is_form()
    ensures { EndRowIsForm }
{}

/// If the entries of an event's form fit their lanes, the kinds of its steps are a row of the event.
#[tactic(auto, using(crate::proofs::FormRows::form_row))]
pub fn form_is_row()
    ensures { FormIsRow }
{}

/// The steps of a caller's end have the kinds of the row for an end.
#[tactic(auto, using(crate::proofs::FormRows::end_form))]
pub fn end_form_is_row()
    ensures { EndFormIsRow }
{}

/// If the entries of a system call fit their lanes, the kinds of its steps are a row of a system call.
#[tactic(auto, using(crate::proofs::FormRows::system_form))]
pub fn system_form_is_row()
    ensures { SystemFormIsRow }
{}

/// If the lists of all lanes are lawful, the entries of any visits in them fit their lanes.
#[tactic(auto, using(crate::proofs::ActLines::lists_fit))]
pub fn lawful_lists_fit()
    ensures { LawfulListsFit }
{}

/// The effects of an act inside a `vread` are a form of the act.
#[tactic(auto, using(crate::proofs::ActLines::act_form))]
pub fn act_has_form()
    ensures { ActHasForm }
{}

/// If the entries of an act fit their lanes, each of its visits has the entry that is inferred from the steps around
/// it.
#[tactic(auto, using(crate::proofs::ActLines::act_inferred))]
pub fn act_is_inferred()
    ensures { ActIsInferred }
{}

/// If steps have the kinds and the inferred entries of an act inside a `vread`, they are this act.
#[tactic(auto, using(crate::proofs::ActLines::act_row))]
pub fn act_row_is_form()
    ensures { ActRowIsForm }
{}

/// If the entries of an act fit their lanes, the kinds of its steps are a row of the act.
#[tactic(auto, using(crate::proofs::ActLines::act_is_row))]
pub fn act_form_is_row()
    ensures { ActFormIsRow }
{}

/// Suppose that the entries of the system call by which an attempt of a `vread` reads a key fit their lanes. If the
/// steps after this call have the inferred entries, the steps of the call have them too.
#[tactic(auto, using(crate::proofs::InferredReads::key_inferred))]
pub fn key_call_is_inferred()
    ensures { KeyCallIsInferred }
{}

/// If the entries of the system call that ends a `vread` fit their lanes, they are the inferred ones.
#[tactic(auto, using(crate::proofs::InferredReads::last_inferred))]
pub fn last_call_is_inferred()
    ensures { LastCallIsInferred }
{}

/// If steps inside a `vread` have the kinds and the inferred entries of the system call that reads a key, they are this
/// call.
#[tactic(auto, using(crate::proofs::RowReads::key_row))]
pub fn key_row_is_call()
    ensures { KeyRowIsCall }
{}

/// If steps inside a `vread` have the kinds and the inferred entries of the system call that ends it, they are this
/// call.
#[tactic(auto, using(crate::proofs::RowReads::last_row))]
pub fn last_row_is_call()
    ensures { LastRowIsCall }
{}
