//! The samples of the feeders.
ghost use Rattle.std.specs.Prelude.{◌≡◌, ◌<◌, ◌≤◌, ◌^◌, IfOk};
ghost use Rattle.irq_feed.specs.Samples.{numbers, sample};

use io_edges::NoMemory;
use std::alloc::Global;
use std::marker::Model;

/// A sample of an interrupt: two words of the machine's state, the feeder that took the sample, and the number of
/// samples that this feeder took before.
#[derive(Clone, Copy, Debug, PartialEq, Eq)]
pub struct Sample {
    pub feeder: u32,
    pub index: u32,
    pub v1: u64,
    pub v2: u64,
}

/// The samples of 1 to 16 feeders, 1 to 10,000 for each. Each sample is computed when it is needed.
#[derive(Drop)]
pub struct Feeds {
    start: u32,
    feeders: u32,
    each: u32,
}

impl Model for Feeds {
    ghost use Rattle.std.specs.Prelude.{◌≤◌};
    ghost use Rattle.irq_feed.specs.Feeds.{Numbers, numbers};

    ghost Value = { Numbers };

    ghost view = { λ f. numbers f.start f.feeders f.each };

    ghost invariant = { λ f. (1 ≤ f.feeders) × (f.feeders ≤ 16) × (1 ≤ f.each) × (f.each ≤ 10000) };
}

impl Feeds {
    /// Gives `each` samples to each of `feeders` feeders. Sample `i` of feeder `f` has the words `start` + `i` and `f`.
    /// `i` and `f` count from 0.
    ///
    /// # Errors
    ///
    /// None today, since samples are computed. The error type leaves room for feeds that are kept in memory.
    pub fn of(_alloc: Global, start: u32, feeders: u32, each: u32) -> Result<Feeds, NoMemory>
        requires feeders { (1 ≤ feeders) × (feeders ≤ 16) }
        requires each { (1 ≤ each) × (each ≤ 10000) }
        ensures { IfOk result (λ f. f ≡ numbers start feeders each) }
    {
        Ok(Feeds {
            start,
            feeders,
            each,
        })
    }

    /// The number of feeders.
    pub fn feeders(&self) -> u32
        ensures feeders { result ≡ self.now.feeders }
        ensures few { (1 ≤ result) × (result ≤ 16) }
    {
        self.feeders
    }

    /// The number of samples of each feeder.
    pub fn each(&self) -> u32
        ensures each { result ≡ self.now.each }
        ensures few { (1 ≤ result) × (result ≤ 10000) }
    {
        self.each
    }

    /// Sample `index` of feeder `feeder`.
    pub fn sample(&self, feeder: u32, index: u32) -> Sample
        ensures { result ≡ sample self.now feeder index }
    {
        Sample {
            feeder,
            index,
            v1: self.start as u64 + index as u64,
            v2: feeder as u64,
        }
    }
}
