//! Feeders on a new table.
ghost use Rattle.std.specs.Prelude.{◌≡◌, ◌≤◌, ◌*◌, ◌/◌, min, IfOk};
ghost use Rattle.irq_feed.specs.TableFeed.{IsFed};

use crate::intake::FeedIntake;
use crate::queue::FeedQueue;
use crate::run::feed;
use crate::samples::Feeds;
use io_edges::{Gate, NoMemory};
use lane_table::Lanes;
use rng_core::Setting;
use std::alloc::Global;
use std::sync::Wait;
use std::thread::Threads;

/// The number of samples after which a CPU dumps them into the pool.
const DUMP_AT: u32 = 1024;

/// The credit of a dump after `DUMP_AT` samples, in bits.
const DUMP_BITS: u32 = 16;

/// The most bits that the pool can have.
const MOST_BITS: u32 = 256;

/// The sums that `feed_on_new_table` returns.
#[derive(Clone, Copy, Debug, PartialEq, Eq)]
pub struct FeedSums {
    /// The number of mixed samples.
    pub samples: u32,
    /// The number of the CPU's dumps.
    pub dumps: u32,
    /// The pool's credited bits, once all dumps are made.
    pub bits: u32,
}

// The sums for a number of mixed samples.
fn sums(samples: u32) -> FeedSums
    ensures samples { result.samples ≡ samples }
    ensures dumps { result.dumps ≡ samples / 1024 }
    ensures bits { result.bits ≡ min 256 (16 * result.dumps) }
{
    let dumps = samples / DUMP_AT;
    FeedSums {
        samples,
        dumps,
        bits: MOST_BITS.min(DUMP_BITS * dumps),
    }
}

/// Makes a table with one CPU, and feeds it as [`feed`] does, by caller 0 at moment 0. There are `feeders` feeders with
/// `each` samples per feeder. Sample `i` of feeder `f` has the words `start` + `i` and `f`. The function computes the
/// sums from the number of samples. They are proved to be the sums over the table's visits.
///
/// # Errors
///
/// Memory for the table, for the queue, or for the list of mixed samples ran out. Then no feeder has started.
pub fn feed_on_new_table<R: Threads + Wait + Sync, G: Gate>(
    rt: &R,
    alloc: Global,
    start: u32,
    feeders: u32,
    each: u32,
    gate: &G,
) -> Result<FeedSums, NoMemory>
    requires feeders { (1 ≤ feeders) × (feeders ≤ 16) }
    requires each { (1 ≤ each) × (each ≤ 10000) }
    ensures { IfOk result (λ sums. IsFed start feeders each sums) }
{
    let feeds = Feeds::of(alloc, start, feeders, each)?;
    let (queue, worker) = FeedQueue::of(alloc, &feeds)?;
    let (lanes, mut pass) = Lanes::start(alloc, 1, 0)?;
    let intake = FeedIntake {
        lanes: &lanes,
        set: Setting::first(0),
        feeds: &feeds,
        queue: &queue,
        gate,
    };
    let (mixed, _worker) = feed(rt, alloc, &intake, &mut pass, worker);
    let mixed = mixed?;
    let _visits = lanes.close(pass);
    Ok(sums(mixed.len()))
}
