//! The data kept about each visit when a lane's list is replayed. Answers and bytes are made from these data.
ghost use Rattle.std.specs.Prelude.{◌≡◌};
ghost use Rattle.judge_log.specs.Kept.{no_source};

use input_pool::Crossing;
use key_names::{BaseEntry, CpuEntry};

/// An extracted root, and the place of the base's entry that the extraction names.
#[derive(Clone, Copy, Debug, PartialEq, Eq)]
pub struct KeptRoot {
    pub value: [u8; 32],
    pub base_place: u64,
}

/// The data kept about a visit of the pool.
#[derive(Clone, Copy, Debug, PartialEq, Eq)]
pub struct KeptPool {
    /// The pool's bits before the visit, 0 to 256.
    pub before: u32,
    /// The threshold (128 or 256 bits) that this visit crosses, if any.
    pub crossing: Crossing,
    /// The root, if the visit is an extraction.
    pub root: Option<KeptRoot>,
}

/// The data kept about a visit of the base.
#[derive(Clone, Copy, Debug, PartialEq, Eq)]
pub struct KeptBase {
    pub entry: BaseEntry,
    /// The number of reseeds of the base, including this visit.
    pub generation: u64,
    /// The base's key in use, if the visit erases it.
    pub key: Option<[u8; 32]>,
}

/// What the bytes of a CPU's visit are made from, if the visit serves any.
#[derive(Clone, Copy, Debug, PartialEq, Eq)]
pub struct BytesSource {
    /// The key in use: for a read, at the visit; for an integer, when its batch was filled.
    pub key: Option<[u8; 32]>,
    /// How many integers the batch had served before, if the entry is an integer.
    pub served: u32,
}

impl BytesSource {
    /// The source of a visit that serves no bytes.
    pub(crate) fn none() -> BytesSource
        ensures { result ≡ no_source }
    {
        BytesSource {
            key: None,
            served: 0,
        }
    }
}

/// The data kept about a visit of a CPU.
#[derive(Clone, Copy, Debug, PartialEq, Eq)]
pub struct KeptCpu {
    pub entry: CpuEntry,
    /// The CPU's generation after the visit.
    pub generation: u64,
    pub source: BytesSource,
}

/// The data kept about the visits of each lane, by place.
#[derive(Drop)]
pub struct Lists {
    pub pool: Vec<KeptPool>,
    pub base: Vec<KeptBase>,
    pub cpus: Vec<Vec<KeptCpu>>,
}
