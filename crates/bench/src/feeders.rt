//! The same samples, made by feeders in threads or by one caller.
ghost use Rattle.std.specs.Prelude.{◌≤◌, ◌<◌, ◌^◌, [], ◌≡◌};
ghost use Rattle.lane_table.specs.Hands.{HoldsLanes};

use anyhow::{Result, bail};
use io_edges::OpenGate;
use irq_feed::{Feeds, feed_on_new_table};
use key_names::Trace;
use lane_table::{Lanes, Pass};
use rng_core::{Setting, Site, bits, irq};
use std::alloc::Global;
use std::sync::Wait;
use std::thread::Threads;

/// The number of feeders.
const FEEDERS: u32 = 16;

const SET: Setting = Setting {
    caller: 0,
    event: 0,
    cpu: 0,
    now: 0,
    hw: [0; 32],
};

/// The pool's bits after `each` samples of each feeder. `each` is 1 to 10,000.
pub fn feeds<R: Threads + Wait + Sync>(rt: &R, alloc: Global, each: u32) -> Result<u64> {
    if each == 0 || each > 10_000 {
        bail!("{each} samples of each feeder");
    }
    Ok(u64::from(feed_on_new_table(rt, alloc, 0, FEEDERS, each, &OpenGate)?.bits))
}

// The interrupts of one feeder's samples.
fn irqs_of<R: Wait>(rt: &R, lanes: &Lanes, pass: &mut Pass, feeds: &Feeds, feeder: u32)
    requires has { HoldsLanes lanes.now 0 [] pass.old }
    requires cpu { 0 < lanes.now.cpus }
    ensures { HoldsLanes lanes.now 0 [] pass.new }
{
    for index in 0..feeds.each() {
        let sample = feeds.sample(feeder, index);
        let mut trace = Trace::empty();
        let mut site = Site {
            lanes,
            pass: &mut *pass,
            trace: &mut trace,
            set: SET,
        };
        irq(rt, &mut site, sample.v1, sample.v2);
    }
}

/// The pool's bits after one caller made the same samples by interrupts, feeder by feeder.
pub fn irqs<R: Wait>(rt: &R, alloc: Global, each: u32) -> Result<u64> {
    if each == 0 || each > 10_000 {
        bail!("{each} samples of each feeder");
    }
    let feeds = Feeds::of(alloc, 0, FEEDERS, each)?;
    let (lanes, mut pass) = Lanes::start(alloc, 1, 0)?;
    for feeder in 0..FEEDERS {
        irqs_of(rt, &lanes, &mut pass, &feeds, feeder);
    }
    let mut trace = Trace::empty();
    let mut site = Site {
        lanes: &lanes,
        pass: &mut pass,
        trace: &mut trace,
        set: SET,
    };
    Ok(u64::from(bits(rt, &mut site)))
}
