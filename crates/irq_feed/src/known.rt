//! The knowledge of a pass about the queue. No code makes a value of these types: they are for the proofs.

use crate::samples::{Feeds, Sample};
use std::collections::LinkedList;

/// A feeder whose pass the worker took in, and the number of samples that the feeder pushed.
pub struct Ended {
    pub feeder: u32,
    pub pushed: u32,
}

/// The knowledge of the worker: the samples that it took, the number of the next feeder, and the feeders that ended.
pub struct WorkerKnowledge {
    pub feeds: Feeds,
    pub taken: LinkedList<Sample>,
    pub next: u32,
    pub ended: LinkedList<Ended>,
}

/// The knowledge of a feeder: its number, and how many samples it pushed.
pub struct FeederKnowledge {
    pub feeds: Feeds,
    pub number: u32,
    pub pushed: u32,
}

/// The knowledge of a pass of the queue.
pub enum Known {
    Worker(WorkerKnowledge),
    Feeder(FeederKnowledge),
    Nobody,
}
