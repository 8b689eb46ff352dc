//! A whole script: its lines in sequence, the script that the lines read so far give, and the first fault.

pub(crate) mod draft;
pub(crate) mod error;
pub(crate) mod front;
pub(crate) mod reading;
pub(crate) mod stage;
