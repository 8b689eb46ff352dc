//! The worker: it takes samples out of the queue, and makes an interrupt of each.
ghost use Rattle.std.specs.Prelude.{◌≡◌, ◌<◌, ◌≤◌, ◌^◌, ◌++◌, ◌∷◌, [], length, vec_capacity};
ghost use Rattle.lane_table.specs.Calls.{view};
ghost use Rattle.lane_table.specs.Hands.{HoldsLanes};
ghost use Rattle.irq_feed.specs.Samples.{first_samples};
ghost use Rattle.irq_feed.specs.Rule.{IsWorker, Popped, with_taken};
ghost use Rattle.irq_feed.specs.Passes.{known, IsPassOf};
ghost use Rattle.irq_feed.specs.Mixing.{Interrupted, Mixes};
ghost use Rattle.irq_feed.specs.Fed.{HasRoom, mixed_in};

use crate::intake::FeedIntake;
use crate::mixed::Mixed;
use crate::queue::{FeedPass, FeedQueue};
use crate::samples::Sample;
use crossbeam_utils::Backoff;
use io_edges::Gate;
use key_names::Trace;
use lane_table::{Lanes, Pass};
use rng_core::{Setting, Site, irq};
use std::sync::Wait;

/// The worker's state during a call of `feed`.
#[derive(Drop)]
pub(crate) struct WorkerState {
    pub(crate) worker: FeedPass,
    pub(crate) mixed: Mixed,
    /// The number of samples that come through the queue from the feeders started so far.
    pub(crate) owed: u32,
}

fn pop<R: Wait>(rt: &R, queue: &FeedQueue, worker: &mut FeedPass) -> Sample
    requires { IsPassOf queue.now worker.old × IsWorker (known worker.old) }
    ensures worker { IsPassOf queue.now worker.new }
    ensures popped { Popped (known worker.old) result (known worker.new) }
{
    let backoff = Backoff::new();
    for _ in rt.forever() {
        if let Some(sample) = queue.try_pop(worker) {
            return sample;
        }
        backoff.snooze();
    }
    unreachable!()
}

// Makes an interrupt from a sample. The number of the interrupt's event is the number of interrupts made before it.
fn mix<R: Wait>(
    rt: &R,
    lanes: &Lanes,
    pass: &mut Pass,
    set: &Setting,
    mixed: &mut Mixed,
    sample: Sample,
)
    requires has { HoldsLanes lanes.now set.now.caller [] pass.old }
    requires cpu { set.now.cpu < lanes.now.cpus }
    requires moment { set.now.now < 2 ^ 40 }
    requires room { (length (mixed_in mixed.old) < 160000) × (length (mixed_in mixed.old) < vec_capacity mixed.old.samples) }
    ensures has { HoldsLanes lanes.now set.entry.now.caller [] pass.new }
    ensures mixed { mixed_in mixed.new ≡ mixed_in mixed.old ++ sample ∷ [] }
    ensures direct { mixed.new.direct ≡ mixed.old.direct }
    ensures room { vec_capacity mixed.new.samples ≡ vec_capacity mixed.old.samples }
    ensures irq { Interrupted set.entry.now (length (mixed_in mixed.old)) sample (view pass.old) (view pass.new) }
{
    let set = Setting {
        event: mixed.len(),
        ..*set
    };
    let mut trace = Trace::empty();
    let mut site = Site {
        lanes,
        pass,
        trace: &mut trace,
        set,
    };
    irq(rt, &mut site, sample.v1, sample.v2);
    mixed.samples.push_reserved(sample);
}

/// Takes the `owed` samples out of the queue, and makes an interrupt of each sample.
pub(crate) fn drain<R: Wait, G: Gate>(
    rt: &R,
    intake: &FeedIntake<G>,
    pass: &mut Pass,
    hand: &mut WorkerState,
)
    requires has { HoldsLanes intake.now.lanes.now intake.now.set.caller [] pass.old }
    requires set { (intake.now.set.cpu < intake.now.lanes.now.cpus) × (intake.now.set.now < 2 ^ 40) }
    requires worker { IsPassOf intake.now.queue.now hand.old.worker × IsWorker (known hand.old.worker) }
    requires none { (mixed_in hand.old.mixed ≡ []) × (known hand.old.worker ≡ with_taken (known hand.old.worker) []) }
    requires room { (hand.old.owed ≤ 160000) × (hand.old.owed ≤ vec_capacity hand.old.mixed.samples) }
    ensures has { HoldsLanes intake.now.lanes.now intake.now.set.caller [] pass.new }
    ensures worker { IsPassOf intake.now.queue.now hand.new.worker }
    ensures taken { known hand.new.worker ≡ with_taken (known hand.old.worker) (mixed_in hand.new.mixed) }
    ensures count { length (mixed_in hand.new.mixed) ≡ hand.old.owed }
    ensures direct { hand.new.mixed.direct ≡ hand.old.mixed.direct }
    ensures room { vec_capacity hand.new.mixed.samples ≡ vec_capacity hand.old.mixed.samples }
    ensures irqs { Mixes intake.now.set 0 (mixed_in hand.new.mixed) (view pass.old) (view pass.new) }
{
    for _taken in 0..hand.owed {
        let sample = pop(rt, intake.queue, &mut hand.worker);
        mix(rt, intake.lanes, pass, &intake.set, &mut hand.mixed, sample);
    }
}

/// Mixes the samples of a feeder, in order, without the queue.
pub(crate) fn mix_directly<R: Wait, G: Gate>(
    rt: &R,
    intake: &FeedIntake<G>,
    pass: &mut Pass,
    mixed: &mut Mixed,
    number: u32,
)
    requires has { HoldsLanes intake.now.lanes.now intake.now.set.caller [] pass.old }
    requires set { (intake.now.set.cpu < intake.now.lanes.now.cpus) × (intake.now.set.now < 2 ^ 40) }
    requires room { HasRoom intake.now.feeds.now mixed.old }
    ensures has { HoldsLanes intake.now.lanes.now intake.now.set.caller [] pass.new }
    ensures mixed { mixed_in mixed.new ≡ mixed_in mixed.old ++ first_samples intake.now.feeds.now number intake.now.feeds.now.each }
    ensures direct { mixed.new.direct ≡ mixed.old.direct }
    ensures room { vec_capacity mixed.new.samples ≡ vec_capacity mixed.old.samples }
    ensures irqs { Mixes intake.now.set (length (mixed_in mixed.old))
        (first_samples intake.now.feeds.now number intake.now.feeds.now.each) (view pass.old) (view pass.new) }
{
    let each = intake.feeds.each();
    for index in 0..each {
        intake.gate.before(rt, number, index);
        let sample = intake.feeds.sample(number, index);
        mix(rt, intake.lanes, pass, &intake.set, mixed, sample);
    }
}
