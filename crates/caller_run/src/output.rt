//! The lines that a caller's events leave, and the memory for them.

pub(crate) mod emitted;
pub(crate) mod lines;
pub(crate) mod logs;
pub(crate) mod reply;
