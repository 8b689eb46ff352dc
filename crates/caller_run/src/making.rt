//! Making a caller's events: the calls of the core, the reads of vgetrandom states, and what a caller keeps between
//! two events.

pub(crate) mod acts;
pub(crate) mod caller;
pub(crate) mod calls;
pub(crate) mod settings;
pub(crate) mod states;
pub(crate) mod vreads;
