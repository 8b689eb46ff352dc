//! Lanes, marks of visits, and the names of keys.

/// One lane of the core: the input pool, the base key, or one CPU's generator.
#[derive(Clone, Copy, Debug, PartialEq, Eq, PartialOrd, Ord)]
pub enum LaneId {
    Pool,
    Base,
    Cpu(u32),
}

/// A visit of a lane: its place in the lane's list, from 0, and its stamp.
#[derive(Clone, Copy, Debug, PartialEq, Eq)]
pub struct Mark {
    pub lane: LaneId,
    pub place: u64,
    pub stamp: u64,
}

/// One step of a call: a look at the generation word, or a visit of a lane.
#[derive(Clone, Copy, Debug, PartialEq, Eq)]
pub enum Step {
    Look(u64),
    Visit(Mark),
}

/// The maker of a visit: the caller, its event, and the number of the step among the event's steps.
#[derive(Clone, Copy, Debug, PartialEq, Eq)]
pub struct Who {
    pub caller: u32,
    pub event: u32,
    pub step: u32,
}

/// The name of a key: where the key was made. A place is the number of a visit in its lane's list, from 0.
///
/// - `Root(p)`: the root that visit `p` of the pool extracted.
/// - `Base(i)`: the key that visit `i` of the base kept: bytes 0 to 32 of the keystream that the visit used.
/// - `Cpu(c, k)`: the key that visit `k` of CPU `c` kept: bytes 0 to 32 of the keystream that the visit used.
/// - `Call(lane, i)`: bytes 32 to 64 of the keystream that visit `i` of the lane used, if they become a key.
/// - `Vdso(caller, state, n)`: the key that this vgetrandom state kept when it made batch `n`, counted from 0.
#[derive(Clone, Copy, Debug, PartialEq, Eq, PartialOrd, Ord)]
pub enum KeyName {
    Root(u64),
    Base(u64),
    Cpu(u32, u64),
    Call(LaneId, u64),
    Vdso(u32, u32, u64),
}

/// Bytes `from` to `from + len` of a key's keystream.
#[derive(Clone, Copy, Debug, PartialEq, Eq)]
pub struct Span {
    pub key: KeyName,
    pub from: u64,
    pub len: u64,
}
