//! One line of a script: its word, its fields, and the event that they spell.

pub(crate) mod acts;
pub(crate) mod amounts;
pub(crate) mod events;
pub(crate) mod fields;
pub(crate) mod head;
pub(crate) mod hexes;
pub(crate) mod line;
pub(crate) mod short;
