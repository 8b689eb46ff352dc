//! A use of bytes of a key, and its entry.
use key_names::{KeyName, LaneId, Span};

/// The length of a key, which is also the longest read that needs no call key.
pub const KEY_BYTES: u32 = 32;

/// An entry that makes, uses or erases a key. The entry is at a place of a lane, or at a place in the list of a
/// caller's vgetrandom state. Sorted, entries of lanes come before entries of states.
#[derive(Clone, Copy, Debug, PartialEq, Eq, PartialOrd, Ord)]
pub enum Origin {
    Lane(LaneId, u64),
    State { caller: u32, state: u32, place: u64 },
}

/// The purpose of bytes of a keystream.
#[derive(Clone, Copy, Debug, PartialEq, Eq)]
pub enum Purpose {
    /// The bytes became this key.
    Kept(KeyName),
    /// The bytes were served to a caller.
    Served,
}

/// A use of some bytes of a key, and the entry that used them.
#[derive(Clone, Copy, Debug, PartialEq, Eq)]
pub struct Used {
    pub span: Span,
    pub purpose: Purpose,
    pub by: Origin,
}
