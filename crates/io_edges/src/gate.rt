//! A hook that is called before each event of a caller, and can hold the caller back.

use std::sync::Wait;

/// The hook before each event of a caller.
pub trait Gate: Sync {
    /// The run calls this function before each event, with the number of the caller and the event's index in the
    /// caller's list. It does not call this function before a caller's end (tested).
    fn before<R: Wait>(&self, rt: &R, caller: u32, event: u32);
}

/// A gate that holds no caller back.
#[derive(Drop)]
pub struct OpenGate;

impl Gate for OpenGate {
    fn before<R: Wait>(&self, _rt: &R, _caller: u32, _event: u32) {}
}
