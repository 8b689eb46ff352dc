//! The callers: how many run, and the fork of a new one.
//!
//! The kernel does not count running callers, so it has no functions like these:
//!
//! - `fork`: records the child, and splits the caller's pass.
//! - `stall`: the caller stops running, while a child runs in the caller's thread.
//! - `unstall`: the caller runs again.
//! - `end`: the caller's end.

pub(crate) mod forks;
pub(crate) mod running;
