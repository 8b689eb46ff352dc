//! The data of a call of `feed`.

use crate::queue::FeedQueue;
use crate::samples::Feeds;
use io_edges::Gate;
use lane_table::Lanes;
use rng_core::Setting;

/// The input of a call: the table of lanes; the caller's setting, which holds for all its interrupts; the feeders'
/// samples; the queue between the feeders and the caller; and the gate, which is called before each sample.
#[derive(Drop)]
pub struct FeedIntake<'a, G: Gate> {
    pub lanes: &'a Lanes,
    pub set: Setting,
    pub feeds: &'a Feeds,
    pub queue: &'a FeedQueue,
    pub gate: &'a G,
}
