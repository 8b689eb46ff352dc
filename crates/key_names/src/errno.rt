//! The errors of a system call.

/// The reason why a system call failed, with Linux's number for it.
#[derive(Clone, Copy, Debug, PartialEq, Eq)]
pub enum Errno {
    /// The call waited until no running caller was left that could have made the core ready.
    Interrupted = 4,
    /// The core is not ready, and the call must not wait.
    Again = 11,
    /// A flag is unknown, or two flags exclude each other.
    Invalid = 22,
    /// The call asks for a reseed, and the core is not ready.
    NoData = 61,
}
