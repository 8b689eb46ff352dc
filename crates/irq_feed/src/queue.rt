//! The queue between the feeders and the worker, and its rule.
ghost use Rattle.std.specs.Prelude.{◌≡◌, IfOk, List, MatchBool, MatchOption};
ghost use Rattle.irq_feed.specs.declared.samples.Sample.{Sample};
ghost use Rattle.irq_feed.specs.Feeds.{numbers};
ghost use Rattle.irq_feed.specs.Rule.{IsFeeding, IsWorker, Learns, MayPush, Popped, Pushed, after_split, new_feeder, taken_in};
ghost use Rattle.irq_feed.specs.Passes.{known, IsPassOf, AreNew};

use crate::known::Known;
use crate::samples::{Feeds, Sample};
use crossbeam_queue::protocol::{Join, Lesson, Outcome, Protocol, Split};
use crossbeam_queue::{Pass, RuledArrayQueue};
use io_edges::NoMemory;
use std::alloc::Global;
use std::marker::{Brand, PhantomData};

/// The most samples that the queue can hold.
pub const ROOM: usize = 64;

/// The rule: for each feeder, the samples that the worker took, followed by the samples in the queue, are the feeder's
/// first samples, in order.
pub struct Ordered;

impl Protocol<Sample, Known> for Ordered {
    ghost use Rattle.irq_feed.specs.Rule.{InOrder, no_feeds};

    ghost holds = { InOrder };

    ghost first = { no_feeds };
}

/// A feeder pushes its next sample.
struct Push;

impl Outcome<Sample, Known> for Push {
    ghost use Rattle.irq_feed.specs.Rule.{Pushed};

    ghost then = { Pushed };
}

/// The worker takes the sample at the front.
struct Pop;

impl Outcome<Sample, Known> for Pop {
    ghost use Rattle.irq_feed.specs.Rule.{Popped};

    ghost then = { Popped };
}

/// The worker learns which samples of each feeder were pushed.
struct PushReport;

impl Lesson<Sample, Known> for PushReport {
    ghost use Rattle.irq_feed.specs.Rule.{Learns};

    ghost fact = { Learns };
}

/// Split: the worker splits off a pass for the next feeder. Join: the worker takes in a feeder's pass.
struct Next;

impl Split<Known> for Next {
    ghost use Rattle.irq_feed.specs.Rule.{after_split, new_feeder};

    ghost left = { after_split };

    ghost right = { new_feeder };
}

impl Join<Known> for Next {
    ghost use Rattle.irq_feed.specs.declared.known.Known.TheVariants.{Nobody};
    ghost use Rattle.irq_feed.specs.Rule.{taken_in};

    ghost both = { taken_in };

    ghost spent = { Nobody };
}

/// The bound of the type parameter of `Begin`. Such a type determines the feeds of a queue. Only `tell_feeds` has to
/// choose such a type.
pub trait Naming {
    ghost use Rattle.irq_feed.specs.Feeds.{Numbers};

    ghost feeds: { Numbers };
}

impl Naming for Brand {
    ghost use Rattle.irq_feed.specs.Feeds.{numbers};

    ghost feeds = { numbers 0 0 0 };
}

/// The worker learns the feeds: how many feeders there are, and which samples they have.
struct Begin<F: Naming> {
    of: PhantomData<F>,
}

impl<F: Naming> Split<Known> for Begin<F> {
    ghost use Rattle.irq_feed.specs.declared.known.Known.TheVariants.{Nobody};
    ghost use Rattle.irq_feed.specs.Rule.{begun};

    ghost left = { λ v. begun F.feeds };

    ghost right = { λ v. Nobody };
}

type SampleLine = RuledArrayQueue<Sample, Known, Ordered>;

/// The queue between the feeders and the worker. It has room for 64 samples, and all threads share it.
#[derive(Drop)]
pub struct FeedQueue {
    line: SampleLine,
}

/// The token of the worker or of a feeder. The worker's pass records which samples the worker took from the queue, and
/// which number the next feeder gets.
#[derive(Drop)]
pub struct FeedPass {
    pass: Pass<Sample, Known>,
}

fn tell_feeds<F: Naming>(queue: &FeedQueue, worker: &mut FeedPass, _feeds: &Feeds)
    requires feeds { F.feeds ≡ _feeds.now }
    requires worker { AreNew queue.now (numbers 0 0 0) worker.old }
    ensures { AreNew queue.now _feeds.now worker.new }
{
    let _nobody = queue.line.another::<Begin<F>>(&mut worker.pass);
}

impl FeedQueue {
    /// Makes an empty queue for `feeds`, and the worker's pass. The worker has taken no sample, and the next feeder
    /// gets number 0.
    ///
    /// # Errors
    ///
    /// `NoMemory` if memory for 64 samples ran out.
    pub fn of(alloc: Global, feeds: &Feeds) -> Result<(FeedQueue, FeedPass), NoMemory>
        ensures { IfOk result (λ r. AreNew r.0 feeds.now r.1) }
    {
        let (line, pass) = SampleLine::ruled(alloc, ROOM)?;
        let queue = FeedQueue { line };
        let mut worker = FeedPass { pass };
        tell_feeds::<Brand>(&queue, &mut worker, feeds);
        Ok((queue, worker))
    }

    /// Makes a pass for the next feeder.
    pub(crate) fn next(&self, worker: &mut FeedPass) -> FeedPass
        requires worker { IsPassOf self.now worker.old × IsWorker (known worker.old) }
        ensures worker { IsPassOf self.now worker.new × (known worker.new ≡ after_split (known worker.old)) }
        ensures feeder { IsPassOf self.now result × (known result ≡ new_feeder (known worker.old)) }
    {
        FeedPass {
            pass: self.line.another::<Next>(&mut worker.pass),
        }
    }

    /// Takes in the pass of a feeder that has ended.
    pub(crate) fn take_in(&self, worker: &mut FeedPass, feeder: FeedPass)
        requires worker { IsPassOf self.now worker.old × IsWorker (known worker.old) }
        requires feeder { IsPassOf self.now feeder × IsFeeding (known feeder) }
        ensures { IsPassOf self.now worker.new × (known worker.new ≡ taken_in (known worker.old) (known feeder)) }
    {
        let FeedPass { pass } = feeder;
        self.line.absorb::<Next>(&mut worker.pass, pass);
    }

    /// Tries once to push a feeder's next sample. The push fails if the queue is full or another thread interferes.
    pub(crate) fn try_push(&self, feeder: &mut FeedPass, sample: Sample) -> bool
        requires feeder { IsPassOf self.now feeder.old }
        requires next { MayPush (known feeder.old) sample }
        ensures feeder { IsPassOf self.now feeder.new }
        ensures pushed { MatchBool result (Pushed (known feeder.old) sample (known feeder.new)) (known feeder.new ≡ known feeder.old) }
    {
        self.line
            .try_push_as::<Push>(&mut feeder.pass, sample)
            .is_ok()
    }

    /// Tries once to take the sample at the front for the worker. The attempt fails if the queue is empty or another
    /// thread interferes.
    pub(crate) fn try_pop(&self, worker: &mut FeedPass) -> Option<Sample>
        requires worker { IsPassOf self.now worker.old × IsWorker (known worker.old) }
        ensures worker { IsPassOf self.now worker.new }
        ensures popped { MatchOption result (known worker.new ≡ known worker.old)
            (λ x. Popped (known worker.old) x (known worker.new)) }
    {
        self.line.try_pop_as::<Pop>(&mut worker.pass)
    }

    /// Gives the worker the rule's facts about the queue at one moment.
    pub(crate) fn learn(&self, worker: &mut FeedPass)
        requires worker { IsPassOf self.now worker.old × IsWorker (known worker.old) }
        ensures worker { IsPassOf self.now worker.new × (known worker.new ≡ known worker.old) }
        ensures learned { (items : List Sample) × Learns (known worker.old) items }
    {
        self.line.learn_as::<PushReport>(&mut worker.pass);
    }
}
