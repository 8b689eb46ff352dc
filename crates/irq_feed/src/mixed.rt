//! The mixed samples, in their order.
ghost use Rattle.std.specs.Prelude.{◌≡◌, ◌*◌, ◌<◌, ◌≤◌, Some, [], IfOk, slice_get, vec_len, vec_capacity, length};
ghost use Rattle.irq_feed.specs.declared.samples.Sample.{Sample};

use crate::samples::{Feeds, Sample};
use io_edges::NoMemory;
use std::alloc::Global;

/// The samples of a call of `feed`, in the order in which they were mixed.
#[derive(Drop)]
pub struct Mixed {
    pub(crate) samples: Vec<Sample>,
    pub(crate) direct: [bool; 16],
    ghost few: { vec_len samples ≤ 160000 },
    ghost all: { length direct ≡ 16 },
}

impl Mixed {
    ghost use Rattle.irq_feed.specs.Fed.{mixed_in, is_direct};

    /// An empty list with room for all samples of the feeds.
    pub(crate) fn with_room(alloc: Global, feeds: &Feeds) -> Result<Mixed, NoMemory>
        ensures none { IfOk result (λ m. mixed_in m ≡ []) }
        ensures room { IfOk result (λ m. vec_capacity m.samples ≡ feeds.now.feeders * feeds.now.each) }
        ensures few { (feeds.now.feeders ≤ 16) × (1 ≤ feeds.now.each) × (feeds.now.each ≤ 10000) }
    {
        let room = feeds.feeders() as usize * feeds.each() as usize;
        Ok(Mixed {
            samples: Vec::with_capacity(alloc, room)?,
            direct: [false; 16],
        })
    }

    /// The number of mixed samples.
    pub fn len(&self) -> u32
        ensures { result ≡ length (mixed_in self.now) }
    {
        self.samples.len() as u32
    }

    /// The feeder of the i-th mixed sample, and the sample's index among that feeder's samples.
    pub fn get(&self, i: u32) -> (u32, u32)
        requires { i < length (mixed_in self.now) }
        ensures { (x : Sample) × (slice_get (mixed_in self.now) i ≡ Some x) × (result ≡ (x.feeder, x.index)) }
    {
        let sample = self.samples[i as usize];
        (sample.feeder, sample.index)
    }

    /// Whether the worker mixed the feeder's samples itself, after all others. `feeder` is below 16. A test checks that
    /// the worker does so only for a feeder without a thread.
    pub fn direct(&self, feeder: u32) -> bool
        requires { feeder < 16 }
        ensures { result ≡ is_direct self.now feeder }
    {
        self.direct[feeder as usize]
    }
}
