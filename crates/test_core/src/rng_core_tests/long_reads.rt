//! One caller reads while another one is in a long read on the same CPU.
ghost use Rattle.std.specs.Prelude.{◌<◌, ◌≤◌, ◌^◌, [], length, vec_len};
ghost use Rattle.lane_table.specs.Hands.{HoldsLanes};

use super::added;
use crate::passes::{split_off, started};
use key_names::{Step, Trace};
use lane_table::{Lanes, Pass};
use rng_core::{Setting, Site, kernel_read};
use std::alloc::{AllocError, Global};
use std::sync::Wait;
use std::sync::atomic::{AtomicBool, Ordering};
use std::test::Fail;
use std::thread;
use std::thread::Threads;

// The length of the long read. The long read takes about a millisecond, and a short read takes less than a microsecond.
const LONG: usize = 1 << 20;

// If a long read had no work left after its visit, its call would return soon after the visit. Fewer than this many
// short reads would fit between the visit and the return.
const MANY: u64 = 64;

const ROUNDS: u32 = 500;

const MOST_READS: u32 = 1_000_000;

// The place of the last visit of a call.
fn last_place(trace: &Trace) -> u64 {
    let mut place = 0;
    for i in 0..trace.len() {
        if let Step::Visit(mark) = trace.get(i) {
            place = mark.place;
        }
    }
    place
}

// A read for the kernel on CPU 0. Returns the place of its visit of CPU 0.
fn read<R: Wait>(rt: &R, lanes: &Lanes, pass: &mut Pass, caller: u32, buf: &mut [u8]) -> u64
    requires has { HoldsLanes lanes.now caller [] pass.old }
    requires cpu { 0 < lanes.now.cpus }
    requires short { length buf.old ≤ 2 ^ 20 }
    ensures has { HoldsLanes lanes.now caller [] pass.new }
{
    let mut trace = Trace::empty();
    let mut site = Site {
        lanes,
        pass,
        trace: &mut trace,
        set: Setting::first(caller),
    };
    kernel_read(rt, &mut site, buf);
    last_place(&trace)
}

// The long read of caller 0.
fn long_read<R: Wait>(
    rt: &R,
    lanes: &Lanes,
    mut pass: Pass,
    mut buf: Vec<u8>,
    is_over: &AtomicBool,
) -> u64
    requires has { HoldsLanes lanes.now 0 [] pass }
    requires cpu { 0 < lanes.now.cpus }
    requires short { vec_len buf ≤ 2 ^ 20 }
{
    let place = read(rt, lanes, &mut pass, 0, &mut buf);
    is_over.store(true, Ordering::SeqCst);
    place
}

// Makes short reads of caller 1 until the long read is over. Returns the place of the last short read that ended before
// the long read.
fn short_reads<R: Wait>(rt: &R, lanes: &Lanes, mut pass: Pass, is_over: &AtomicBool) -> u64
    requires has { HoldsLanes lanes.now 1 [] pass }
    requires cpu { 0 < lanes.now.cpus }
{
    let mut last = 0;
    for _ in 0..MOST_READS {
        let mut bytes = [0; 8];
        let place = read(rt, lanes, &mut pass, 1, &mut bytes);
        if is_over.load(Ordering::SeqCst) {
            return last;
        }
        last = place;
    }
    last
}

// How many short reads of another caller come between the visit of a long read and the end of the long read.
fn reads_beside<R: Threads + Wait + Sync>(rt: &R, alloc: Global) -> Result<u64, AllocError> {
    let buf = vec![in alloc; 0; LONG]?;
    let (lanes, mut pass) = started(alloc, 1, 0)?;
    added(rt, &lanes, &mut pass, &Setting::first(0), &[], 256, &[]);
    let other = split_off(&lanes, &mut pass, 1);
    let (table, is_over) = (&lanes, &AtomicBool::new(false));
    let (place, last) = thread::join(
        rt,
        move || -> u64
            requires { HoldsLanes table.now 0 [] pass × (0 < table.now.cpus) × (vec_len buf ≤ 2 ^ 20) }
        { long_read(rt, table, pass, buf, is_over) },
        move || -> u64
            requires { HoldsLanes table.now 1 [] other × (0 < table.now.cpus) }
        { short_reads(rt, table, other, is_over) },
    );
    Ok(last.saturating_sub(place))
}

#[test]
fn a_cpu_is_free_while_a_long_read_goes_on(rt: HostRuntime) -> Result<(), Fail> {
    let mut most = 0;
    for _ in 0..ROUNDS {
        most = most.max(reads_beside(&rt, rt.alloc())?);
        if most >= MANY {
            return Ok(());
        }
    }
    panic!(&rt; "at most {most} reads of another caller while a long one went on");
}
