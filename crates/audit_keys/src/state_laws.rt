//! The laws about the entries that calls leave in the lists of vgetrandom states. Each law is the contract of a
//! function without code.
ghost use Rattle.audit_keys.specs.Laws.{VreadLeaves, CallsLeave};

/// Whatever meaning a `vread` has, the `vread` leaves the entries of this meaning. These entries depend only on the
/// steps of the `vread`'s line, and on the outline of its state.
pub fn vread_leaves()
    ensures { VreadLeaves }
{}

/// Whatever meanings the calls of a caller have, the calls leave the lists of these meanings.
pub fn calls_leave()
    ensures { CallsLeave }
{}
