//! The stages of a vgetrandom call: new, stopped at a point, or over.

use key_names::Errno;
use vdso_state::{Place, VEnd};

/// The stage of a vgetrandom call.
#[derive(Clone, Copy, Debug, PartialEq, Eq)]
pub enum Stage {
    /// The call has made no step yet.
    New,
    /// The call is stopped at a point, before the host's `at`.
    At(Place),
    /// The call is over.
    Over,
}

/// The result of running a call to a point.
#[derive(Clone, Copy, Debug, PartialEq, Eq)]
pub enum Progress {
    /// The call is stopped at the wanted point.
    At,
    /// The call ended before that point.
    Ended(Result<VEnd, Errno>),
}
