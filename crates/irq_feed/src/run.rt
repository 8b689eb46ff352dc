//! The feeders and the worker of one call.
ghost use Rattle.std.specs.Prelude.{◌≡◌, ◌<◌, ◌+◌, ◌^◌, List, [], true, IfOk, OnErr};
ghost use Rattle.irq_feed.specs.declared.samples.Sample.{Sample};
ghost use Rattle.lane_table.specs.declared.view.View.{View};
ghost use Rattle.std.specs.Thread.{IsSync};
ghost use Rattle.lane_table.specs.Calls.{view};
ghost use Rattle.lane_table.specs.Hands.{HoldsLanes};
ghost use Rattle.irq_feed.specs.Passes.{AreNew, IsFeeder, IsPassOf, next_number};
ghost use Rattle.irq_feed.specs.Mixing.{Mixes, Put};
ghost use Rattle.irq_feed.specs.Fed.{AllMixed, CanMix, CanStart, CanTakeBack, Front, HasDrained, HasRoom, is_direct, mixed_in};

use crate::feeder::{Call, Feeder, FeederResult, Feeders, NOBODY, push_all};
use crate::intake::FeedIntake;
use crate::mixed::Mixed;
use crate::queue::FeedPass;
use crate::worker::{WorkerState, drain, mix_directly};
use io_edges::{Gate, NoMemory};
use lane_table::Pass;
use std::alloc::Global;
use std::sync::Wait;
use std::sync::atomic::{AtomicU32, Ordering};
use std::thread;
use std::thread::{Scope, Threads};

/// Hands the samples of all feeders to the caller, which makes an interrupt of each sample
/// (`add_interrupt_randomness`).
///
/// Each feeder has its own thread. The feeder calls the gate before each sample, pushes the sample, and waits while the
/// queue is full. The caller takes the samples out and makes one call of `irq` for each, at the setting's moment and on
/// its CPU. The events are numbered from 0. If a feeder got no thread, the caller mixes that feeder's samples itself,
/// after all others, and calls the gate before each sample. A test checks that the caller does so only for a feeder
/// without a thread. Samples of one feeder keep their order. Samples of different feeders may come in any order.
///
/// After the first feeder has started, only thread creation allocates. The call waits for the lanes and for its
/// feeders. It always returns the worker's pass. After success, that pass records all samples that the worker took from
/// the queue.
///
/// # Errors
///
/// `NoMemory` if memory for the list of mixed samples ran out. Then no sample was mixed, and the worker's pass comes
/// back unchanged, so the call can be made again.
pub fn feed<'a, R: Threads + Wait + Sync, G: Gate>(
    rt: &R,
    alloc: Global,
    intake: &FeedIntake<'a, G>,
    pass: &mut Pass,
    worker: FeedPass,
) -> (Result<Mixed, NoMemory>, FeedPass)
    requires has { HoldsLanes intake.now.lanes.now intake.now.set.caller [] pass.old }
    requires cpu { intake.now.set.cpu < intake.now.lanes.now.cpus }
    requires moment { intake.now.set.now < 2 ^ 40 }
    requires new { AreNew intake.now.queue.now intake.now.feeds.now worker }
    ensures has { HoldsLanes intake.now.lanes.now intake.now.set.caller [] pass.new }
    ensures all { IfOk result.0 (λ m. AllMixed intake.now.feeds.now result.1 m) }
    ensures calls { IfOk result.0 (λ m. Mixes intake.now.set 0 (mixed_in m) (view pass.old) (view pass.new)) }
    ensures entries { IfOk result.0 (λ m. Put intake.now.set (mixed_in m) (view pass.old) (view pass.new)) }
    ensures worker { IfOk result.0 (λ m. IsPassOf intake.now.queue.now result.1
        × (next_number result.1 ≡ intake.now.feeds.now.feeders)) }
    ensures err { OnErr result.0 ((pass.new ≡ pass.old) × (result.1 ≡ worker)) }
{
    feed_by(rt, alloc, intake, pass, worker, Feeders::InThreads)
}

/// As [`feed`], with a choice of where the feeders run.
///
/// # Errors
///
/// The same errors as [`feed`].
pub fn feed_by<'a, R: Threads + Wait + Sync, G: Gate>(
    rt: &R,
    alloc: Global,
    intake: &FeedIntake<'a, G>,
    pass: &mut Pass,
    worker: FeedPass,
    feeders: Feeders,
) -> (Result<Mixed, NoMemory>, FeedPass)
    requires has { HoldsLanes intake.now.lanes.now intake.now.set.caller [] pass.old }
    requires cpu { intake.now.set.cpu < intake.now.lanes.now.cpus }
    requires moment { intake.now.set.now < 2 ^ 40 }
    requires new { AreNew intake.now.queue.now intake.now.feeds.now worker }
    ensures has { HoldsLanes intake.now.lanes.now intake.now.set.caller [] pass.new }
    ensures all { IfOk result.0 (λ m. AllMixed intake.now.feeds.now result.1 m) }
    ensures calls { IfOk result.0 (λ m. Mixes intake.now.set 0 (mixed_in m) (view pass.old) (view pass.new)) }
    ensures entries { IfOk result.0 (λ m. Put intake.now.set (mixed_in m) (view pass.old) (view pass.new)) }
    ensures worker { IfOk result.0 (λ m. IsPassOf intake.now.queue.now result.1
        × (next_number result.1 ≡ intake.now.feeds.now.feeders)) }
    ensures err { OnErr result.0 ((pass.new ≡ pass.old) × (result.1 ≡ worker)) }
{
    let mixed = match Mixed::with_room(alloc, intake.feeds) {
        Ok(mixed) => mixed,
        Err(error) => return (Err(error), worker),
    };
    let call = Call {
        intake,
        feeders,
        handed_back: AtomicU32::new(NOBODY),
    };
    let hand = WorkerState {
        worker,
        mixed,
        owed: 0,
    };
    let WorkerState {
        worker,
        mut mixed,
        ..
    } = drain_feeders(rt, &call, pass, hand);
    mix_rest(rt, intake, pass, &mut mixed);
    (Ok(mixed), worker)
}

// Runs the feeders and the worker until all samples from the queue are mixed and each thread is joined.
fn drain_feeders<R: Threads + Wait + Sync, G: Gate>(
    rt: &R,
    call: &Call<G>,
    pass: &mut Pass,
    hand: WorkerState,
) -> WorkerState
    requires mix { CanMix call.now.intake.now.lanes.now call.now.intake.now.set pass.old }
    requires start { CanStart call.now.intake.now.queue.now call.now.intake.now.feeds.now 0 hand.owed hand.worker
        hand.mixed }
    ensures mix { CanMix call.now.intake.now.lanes.now call.now.intake.now.set pass.new }
    ensures drained { HasDrained call.now.intake.now.queue.now call.now.intake.now.feeds.now result.worker result.mixed }
    ensures irqs { Mixes call.now.intake.now.set 0 (mixed_in result.mixed) (view pass.old) (view pass.new) }
{
    let (back, hand) = thread::scope(
        thread::scope_env(),
        rt,
        move |scope| -> (&mut Pass, WorkerState)
            requires { IsSync R.row × CanMix call.now.intake.now.lanes.now call.now.intake.now.set pass.now
                × CanStart call.now.intake.now.queue.now call.now.intake.now.feeds.now 0 hand.owed hand.worker
                hand.mixed }
            ensures pass { result.0.ghost_name ≡ pass.entry.ghost_name }
            ensures mix { CanMix call.entry.now.intake.now.lanes.now call.entry.now.intake.now.set result.0.now }
            ensures drained { HasDrained call.entry.now.intake.now.queue.now call.entry.now.intake.now.feeds.now
                result.1.worker result.1.mixed }
            ensures irqs { Mixes call.entry.now.intake.now.set 0 (mixed_in result.1.mixed) (view pass.entry.now)
                (view result.0.now) }
        {
            let mut hand = hand;
            start_rest(rt, scope, call, pass, &mut hand, 0);
            (pass, hand)
        },
    );
    let _ = back;
    hand
}

// Starts the feeders from number `number` on, and mixes all samples that come through the queue.
fn start_rest<'s, E, R: Threads + Wait + Sync, G: Gate>(
    rt: &'s R,
    scope: &Scope<'s, E>,
    call: &'s Call<'s, G>,
    pass: &mut Pass,
    hand: &mut WorkerState,
    number: u32,
)
    requires mix { CanMix call.now.intake.now.lanes.now call.now.intake.now.set pass.old }
    requires start { CanStart call.now.intake.now.queue.now call.now.intake.now.feeds.now number hand.old.owed hand.old.worker
        hand.old.mixed }
    ensures mix { CanMix call.now.intake.now.lanes.now call.now.intake.now.set pass.new }
    ensures drained { HasDrained call.now.intake.now.queue.now call.now.intake.now.feeds.now hand.new.worker
        hand.new.mixed }
    ensures irqs { Mixes call.now.intake.now.set 0 (mixed_in hand.new.mixed) (view pass.old) (view pass.new) }
{
    let intake = call.intake;
    let (queue, feeds, gate) = (intake.queue, intake.feeds, intake.gate);
    if number == feeds.feeders() {
        drain(rt, intake, pass, hand);
        queue.learn(&mut hand.worker);
        return;
    }
    let handed_back = &call.handed_back;
    let theirs = queue.next(&mut hand.worker);
    let promise = Feeder::of(queue, feeds, number);
    match call.feeders.start(
        scope,
        promise,
        move || -> FeederResult
            requires { IsSync R.row × IsFeeder queue.now feeds.now number 0 theirs }
            ensures { IsFeeder queue.entry.now feeds.entry.now number result.pushed result.pass }
        {
            let feeder = Feeder::of(queue, feeds, number);
            push_all(rt, &feeder, gate, handed_back, theirs)
        },
    ) {
        Ok(handle) => {
            hand.mixed.direct[number as usize] = false;
            hand.owed += feeds.each();
            start_rest(rt, scope, call, pass, hand, number + 1);
            let fed = handle.join(rt);
            queue.take_in(&mut hand.worker, fed.pass);
        }
        Err(refused) => {
            handed_back.store(number, Ordering::SeqCst);
            let fed = (refused.value)();
            handed_back.store(NOBODY, Ordering::SeqCst);
            take_back(intake, hand, number, fed);
            start_rest(rt, scope, call, pass, hand, number + 1);
        }
    }
}

// Takes in the pass of a feeder that got no thread. If that feeder pushed nothing, the worker has to mix the feeder's
// samples itself.
fn take_back<G: Gate>(
    intake: &FeedIntake<G>,
    hand: &mut WorkerState,
    number: u32,
    fed: FeederResult,
)
    requires start { CanTakeBack intake.now.queue.now intake.now.feeds.now number hand.old.owed hand.old.worker
        hand.old.mixed }
    requires fed { IsFeeder intake.now.queue.now intake.now.feeds.now number fed.pushed fed.pass }
    ensures start { CanStart intake.now.queue.now intake.now.feeds.now (number + 1) hand.new.owed hand.new.worker
        hand.new.mixed }
    ensures none { mixed_in hand.new.mixed ≡ mixed_in hand.old.mixed }
{
    intake.queue.take_in(&mut hand.worker, fed.pass);
    let direct = fed.pushed == 0;
    hand.mixed.direct[number as usize] = direct;
    if !direct {
        hand.owed += intake.feeds.each();
    }
}

// Mixes the samples of all direct feeders, feeder by feeder. The worker mixes a direct feeder's samples itself.
fn mix_rest<R: Wait, G: Gate>(rt: &R, intake: &FeedIntake<G>, pass: &mut Pass, mixed: &mut Mixed)
    requires mix { CanMix intake.now.lanes.now intake.now.set pass.old }
    requires front { Front intake.now.feeds.now 0 (mixed_in mixed.old) mixed.old }
    ensures mix { CanMix intake.now.lanes.now intake.now.set pass.new }
    ensures all { Front intake.now.feeds.now intake.now.feeds.now.feeders (mixed_in mixed.old) mixed.new }
    ensures irqs { (v : View) → Mixes intake.now.set 0 (mixed_in mixed.old) v (view pass.old)
        → Mixes intake.now.set 0 (mixed_in mixed.new) v (view pass.new) }
{
    for number in 0..intake.feeds.feeders() {
        mix_if_direct(rt, intake, pass, mixed, number);
    }
}

// Mixes the samples of a feeder if the worker has to mix them itself.
fn mix_if_direct<R: Wait, G: Gate>(
    rt: &R,
    intake: &FeedIntake<G>,
    pass: &mut Pass,
    mixed: &mut Mixed,
    number: u32,
)
    requires mix { CanMix intake.now.lanes.now intake.now.set pass.old }
    requires near { (number < intake.now.feeds.now.feeders) × (number < 16) }
    requires room { is_direct mixed.old number ≡ true → HasRoom intake.now.feeds.now mixed.old }
    ensures mix { CanMix intake.now.lanes.now intake.now.set pass.new }
    ensures front { (through : List Sample) → Front intake.now.feeds.now number through mixed.old
        → Front intake.now.feeds.now (number + 1) through mixed.new }
    ensures irqs { (v : View) → Mixes intake.now.set 0 (mixed_in mixed.old) v (view pass.old)
        → Mixes intake.now.set 0 (mixed_in mixed.new) v (view pass.new) }
{
    if mixed.direct(number) {
        mix_directly(rt, intake, pass, mixed, number);
    }
}
