//! The phase of the core.

/// How far the core is with gathering entropy (`crng_init`).
#[derive(Clone, Copy, Debug, PartialEq, Eq)]
pub enum Phase {
    /// Little or no entropy is credited (`CRNG_EMPTY`).
    Empty,
    /// 128 bits are credited, half of those needed for readiness (`CRNG_EARLY`).
    Early,
    /// The base was seeded with 256 bits (`CRNG_READY`).
    Ready,
}
