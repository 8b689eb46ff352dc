//! Callers that fork: each caller's memory, where each caller runs, and how a parent runs from one fork to the next.

pub(crate) mod children;
pub(crate) mod here;
pub(crate) mod plans;
pub(crate) mod rooms;
pub(crate) mod running_callers;
pub(crate) mod shared;
