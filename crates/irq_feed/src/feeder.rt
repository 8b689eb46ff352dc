//! A feeder: it pushes its samples into the queue, in order.
ghost use Rattle.std.specs.Prelude.{◌≡◌, IfErr, IfOk};
ghost use Rattle.irq_feed.specs.Rule.{MayPush, Pushed};
ghost use Rattle.irq_feed.specs.Passes.{known, IsFeeder, IsPassOf};

use crate::intake::FeedIntake;
use crate::queue::{FeedPass, FeedQueue};
use crate::samples::{Feeds, Sample};
use crossbeam_utils::Backoff;
use io_edges::Gate;
use std::sync::Wait;
use std::sync::atomic::{AtomicU32, Ordering};
use std::thread::{Promise, PromisedHandle, Scope, SpawnError};

/// The result of a feeder: its pass, and the number of samples that it pushed.
#[derive(Drop)]
pub(crate) struct FeederResult {
    pub(crate) pass: FeedPass,
    pub(crate) pushed: u32,
}

/// The data that the worker and all feeders of a call share.
#[derive(Drop)]
pub(crate) struct Call<'a, G: Gate> {
    pub(crate) intake: &'a FeedIntake<'a, G>,
    pub(crate) feeders: Feeders,
    /// The feeder whose closure the worker calls itself, if any.
    pub(crate) handed_back: AtomicU32,
}

/// The value of `handed_back` if the worker calls no feeder's closure.
pub(crate) const NOBODY: u32 = u32::MAX;

fn push<R: Wait>(rt: &R, queue: &FeedQueue, feeder: &mut FeedPass, sample: Sample)
    requires feeder { IsPassOf queue.now feeder.old }
    requires next { MayPush (known feeder.old) sample }
    ensures feeder { IsPassOf queue.now feeder.new }
    ensures pushed { Pushed (known feeder.old) sample (known feeder.new) }
{
    let backoff = Backoff::new();
    for _ in rt.forever() {
        if queue.try_push(feeder, sample) {
            return;
        }
        backoff.snooze();
    }
    unreachable!()
}

/// Pushes all samples of a feeder, and waits while the queue is full. If the worker itself calls this function, no
/// sample is pushed, since the worker could not take samples out meanwhile.
pub(crate) fn push_all<R: Wait, G: Gate>(
    rt: &R,
    feeder: &Feeder,
    gate: &G,
    handed_back: &AtomicU32,
    mut pass: FeedPass,
) -> FeederResult
    requires { IsFeeder feeder.now.queue.now feeder.now.feeds.now feeder.now.number 0 pass }
    ensures { IsFeeder feeder.now.queue.now feeder.now.feeds.now feeder.now.number result.pushed result.pass }
{
    if handed_back.load(Ordering::SeqCst) == feeder.number {
        return FeederResult { pass, pushed: 0 };
    }
    let each = feeder.feeds.each();
    for index in 0..each {
        gate.before(rt, feeder.number, index);
        let sample = feeder.feeds.sample(feeder.number, index);
        push(rt, feeder.queue, &mut pass, sample);
    }
    FeederResult { pass, pushed: each }
}

/// The place where feeders run.
#[derive(Clone, Copy, Drop)]
pub enum Feeders {
    /// Each feeder runs in its own thread, if a thread can be made.
    InThreads,
    /// No feeder runs in a thread, as if none could be made.
    Nowhere,
}

impl Feeders {
    /// Starts a feeder's thread. Returns the closure if no thread can be made.
    pub(crate) fn start<
        's,
        E,
        P: Promise<T> + Drop,
        F: FnOnce() -> T + Send + 's,
        T: Send + Drop + 's,
    >(self, scope: &Scope<'s, E>, promise: P, run: F) -> Result<PromisedHandle<T, P>, SpawnError<F>>
        requires runs { F.pre run }
        requires keeps { (r : T) → F.post run r → P.kept_by promise r }
        ensures ok { IfOk result (λ h. h.promise ≡ promise) }
        ensures err { IfErr result (λ e. e.value ≡ run) }
    {
        match self {
            Feeders::InThreads => scope.spawn_with(promise, run),
            Feeders::Nowhere => Err(SpawnError { value: run }),
        }
    }
}

/// A feeder, with the contract of its thread: the thread returns the feeder's pass, and the feeder pushed as many
/// samples as the thread reports.
#[derive(Drop)]
pub(crate) struct Feeder<'a> {
    pub(crate) queue: &'a FeedQueue,
    pub(crate) feeds: &'a Feeds,
    pub(crate) number: u32,
}

impl<'a> Feeder<'a> {
    pub(crate) fn of(queue: &'a FeedQueue, feeds: &'a Feeds, number: u32) -> Feeder<'a>
        ensures queue { result.queue.now ≡ queue.now }
        ensures feeds { result.feeds.now ≡ feeds.now }
        ensures number { result.number ≡ number }
    {
        Feeder {
            queue,
            feeds,
            number,
        }
    }
}

impl<'a> Promise<FeederResult> for Feeder<'a> {
    ghost use Rattle.irq_feed.specs.Passes.{IsFeeder};

    ghost kept_by = { λ p r. IsFeeder p.queue.now p.feeds.now p.number r.pushed r.pass };
}
