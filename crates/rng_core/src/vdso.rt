//! Reads out of a caller's own state (the vDSO's `vgetrandom`), over the lanes.
//!
//! A read without acts copies out of the state's batch, if the state's key is of the published generation and the batch
//! has enough bytes left. Any other read is a call of `vgetrandom` with the caller itself as the host: the caller makes
//! the call's looks and system calls over the lanes. Acts that are bound to points of the call run at these points,
//! each in its own event and with its own trace.
//!
//! The calls of this section, with the part of `lib/vdso/getrandom.c` that each follows:
//!
//! - `vread`, `vread_inside`: `__cvdso_getrandom_data`
//! - `vread_local`: the copy out of the batch in `__cvdso_getrandom_data`
//!
//! `hosting::publish` gives the generation that `crng_reseed` stores for the vDSO.

pub(crate) mod acts;
pub(crate) mod attempt;
pub(crate) mod hosting;
pub(crate) mod lane_host;
pub(crate) mod vreads;
