//! The inferred entries of the lanes' lists, in tables by place.
use judge_lines::inferred::{BaseInferred, CpuInferred};
use key_names::PoolNote;

/// The pool's entry that is inferred for a visit.
#[derive(Clone, Copy)]
pub enum InferredPool<'a> {
    /// An entry that is known in full: one that the event makes from its own fields, or an extraction.
    Is(PoolNote<'a>),
    /// An entry that mixes the dump made at this place of this CPU.
    Dumped { cpu: u32, place: u64 },
}

/// The CPU's entry that is inferred for a visit.
#[derive(Clone, Copy, Debug, PartialEq, Eq)]
pub struct InferredCpu {
    pub entry: CpuInferred,
    /// Whether the visit is in an interrupt's line, and the next step dumps the CPU's fast pool. This matters only for
    /// the interrupt's sample.
    pub dumps: bool,
}

/// The entries that are inferred from a transcript's steps. Each lane has one entry for each visit, in the order of
/// places. Each CPU of the script has its own table.
#[derive(Drop)]
pub struct InferredEntries<'a> {
    pub pool: Vec<InferredPool<'a>>,
    pub base: Vec<BaseInferred>,
    pub cpus: Vec<Vec<InferredCpu>>,
}
