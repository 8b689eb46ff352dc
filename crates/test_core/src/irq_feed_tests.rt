//! Feeders in threads. All their samples are mixed, however the threads interleave.
ghost use Rattle.std.specs.Prelude.{IfOk, ◌≡◌, ◌*◌, length};
ghost use Rattle.irq_feed.specs.Fed.{mixed_in};

use io_edges::{Gate, NoMemory, OpenGate};
use irq_feed::{
    FeedIntake, FeedQueue, FeedSums, Feeders, Feeds, Mixed, feed, feed_by, feed_on_new_table,
};
use lane_table::Lanes;
use rng_core::Setting;
use std::alloc::Global;
use std::process::Abort;
use std::sync::Wait;
use std::sync::atomic::{AtomicU64, Ordering};
use std::test::Fail;
use std::thread;
use std::thread::Threads;

// A loop of this many turns takes long enough to notice the action of any running thread.
const TURNS: u32 = 100_000_000;

// A gate that counts its calls.
#[derive(Drop)]
struct CountingGate {
    calls: AtomicU64,
}

impl CountingGate {
    fn new() -> CountingGate {
        CountingGate {
            calls: AtomicU64::new(0),
        }
    }

    fn calls(&self) -> u64 {
        self.calls.load(Ordering::SeqCst)
    }
}

impl Gate for CountingGate {
    fn before<R: Wait>(&self, _rt: &R, _caller: u32, _event: u32) {
        self.calls.fetch_add(1, Ordering::SeqCst);
    }
}

// The progress of a feeder at the gate.
#[derive(Drop)]
struct SeenSamples {
    came: AtomicU64,
    saw_the_other: AtomicU64,
}

impl SeenSamples {
    fn new() -> SeenSamples {
        SeenSamples {
            came: AtomicU64::new(0),
            saw_the_other: AtomicU64::new(0),
        }
    }

    // Reports that this feeder came to the gate, and waits for the other feeder for at most `TURNS` turns.
    fn meet(&self, other: &SeenSamples) {
        self.came.store(1, Ordering::SeqCst);
        for _ in 0..TURNS {
            if other.came.load(Ordering::SeqCst) == 1 {
                self.saw_the_other.store(1, Ordering::SeqCst);
                return;
            }
            thread::yield_now();
        }
    }

    fn passed(&self) -> bool {
        self.saw_the_other.load(Ordering::SeqCst) == 1
    }
}

// Feeder 0 waits at the gate of its sample 0 until feeder 1 is at the gate of its sample 10. Feeder 1 waits at that
// gate for feeder 0.
#[derive(Drop)]
struct CrossedGate {
    first: SeenSamples,
    second: SeenSamples,
}

impl Gate for CrossedGate {
    fn before<R: Wait>(&self, _rt: &R, caller: u32, event: u32) {
        match (caller, event) {
            (0, 0) => self.first.meet(&self.second),
            (1, 10) => self.second.meet(&self.first),
            _ => {}
        }
    }
}

// Mixes the samples of these feeders on a new table, and returns them.
fn mixed_of<R: Threads + Wait + Sync, G: Gate>(
    rt: &R,
    alloc: Global,
    feeds: &Feeds,
    gate: &G,
) -> Result<Mixed, NoMemory>
    ensures { IfOk result (λ m. length (mixed_in m) ≡ feeds.now.feeders * feeds.now.each) }
{
    let (lanes, mut pass) = Lanes::start(alloc, 1, 0)?;
    let (queue, worker) = FeedQueue::of(alloc, feeds)?;
    let intake = FeedIntake {
        lanes: &lanes,
        set: Setting::first(0),
        feeds,
        queue: &queue,
        gate,
    };
    let (mixed, _worker) = feed(rt, alloc, &intake, &mut pass, worker);
    mixed
}

// Checks that all samples of a feeder were mixed, each once and in order.
fn assert_whole<R: Abort>(rt: &R, mixed: &Mixed, feeder: u32, each: u32) {
    let mut next: u32 = 0;
    for i in 0..mixed.len() {
        let (of, index) = mixed.get(i);
        if of == feeder {
            assert_eq!(rt; index, next, "feeder {feeder}");
            next = next.wrapping_add(1);
        }
    }
    assert_eq!(rt; next, each, "feeder {feeder}");
}

// If one feeder ran to its end before the other one began, or bypassed the queue, one of the two would wait in vain.
#[test]
fn two_feeders_run_side_by_side(rt: HostRuntime) -> Result<(), Fail> {
    let alloc = rt.alloc();
    let feeds = Feeds::of(alloc, 7, 2, 20)?;
    let gate = CrossedGate {
        first: SeenSamples::new(),
        second: SeenSamples::new(),
    };
    let mixed = mixed_of(&rt, alloc, &feeds, &gate)?;
    assert!(rt; gate.first.passed() && gate.second.passed());
    assert!(rt; !mixed.direct(0) && !mixed.direct(1));
    assert_eq!(rt; mixed.len(), 40);
    assert_whole(&rt, &mixed, 0, 20);
    assert_whole(&rt, &mixed, 1, 20);
    Ok(())
}

#[test]
fn the_queue_is_filled_many_times(rt: HostRuntime) -> Result<(), Fail> {
    let alloc = rt.alloc();
    let feeds = Feeds::of(alloc, u32::MAX, 16, 1000)?;
    let gate = CountingGate::new();
    let mixed = mixed_of(&rt, alloc, &feeds, &gate)?;
    assert_eq!(rt; mixed.len(), 16_000);
    for feeder in 0..16 {
        assert_whole(&rt, &mixed, feeder, 1000);
    }
    assert_eq!(rt; gate.calls(), 16_000);
    Ok(())
}

#[test]
fn sums_of_feeders_on_a_new_table(rt: HostRuntime) -> Result<(), Fail> {
    let alloc = rt.alloc();
    let gate = CountingGate::new();
    let few = feed_on_new_table(&rt, alloc, 1, 4, 1000, &gate)?;
    assert_eq!(rt;
        few,
        FeedSums {
            samples: 4000,
            dumps: 3,
            bits: 48
        }
    );
    assert_eq!(rt; gate.calls(), 4000);
    let many = feed_on_new_table(&rt, alloc, 0, 16, 2000, &OpenGate)?;
    assert_eq!(rt;
        many,
        FeedSums {
            samples: 32_000,
            dumps: 31,
            bits: 256
        }
    );
    Ok(())
}

// No feeder gets a thread. A caller of `feed` cannot cause this.
#[test]
fn feeders_without_threads_are_mixed_in_order(rt: HostRuntime) -> Result<(), Fail> {
    let alloc = rt.alloc();
    let feeds = Feeds::of(alloc, 0, 3, 5)?;
    let gate = CountingGate::new();
    let (lanes, mut pass) = Lanes::start(alloc, 1, 0)?;
    let (queue, worker) = FeedQueue::of(alloc, &feeds)?;
    let intake = FeedIntake {
        lanes: &lanes,
        set: Setting::first(0),
        feeds: &feeds,
        queue: &queue,
        gate: &gate,
    };
    let (mixed, _worker) = feed_by(&rt, alloc, &intake, &mut pass, worker, Feeders::Nowhere);
    let mixed = mixed?;
    assert_eq!(rt; mixed.len(), 15);
    for i in 0..mixed.len() {
        assert_eq!(rt; mixed.get(i), (i / 5, i % 5));
    }
    for feeder in 0..3 {
        assert!(rt; mixed.direct(feeder));
    }
    assert_eq!(rt; gate.calls(), 15);
    Ok(())
}
