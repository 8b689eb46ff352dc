//! Short runs of one caller on a new table. The expected steps and bytes are from another implementation.
ghost use Rattle.std.specs.Prelude.{◌≡◌, ◌≤◌, ◌<◌, ◌^◌, [], length};
ghost use Rattle.std.specs.List.{AllByRecursion};
ghost use Rattle.lane_table.specs.Hands.{HoldsLanes};
ghost use Rattle.rng_core.specs.Integers.{IsWidth};
ghost use Rattle.rng_core.specs.Acts.{asks_of, all_wanted};
ghost use Rattle.rng_core.specs.InsideMakes.{IsWaitingAct};

mod long_reads;
mod waits;

use crate::passes::started;
use key_names::{Errno, InsideAct, LaneId, Mark, Point, Step, Trace};
use lane_table::{Lanes, Pass};
use rng_core::{
    Bound, LaneHost, Setting, Site, add, bits, getrandom, input, int, random_file, reseed,
    vread_inside,
};
use std::sync::Wait;
use std::test::Fail;
use vdso_state::VState;

// Bytes with the values 0 to 31, in order.
const COUNTING: [u8; 32] = [
    0, 1, 2, 3, 4, 5, 6, 7, 8, 9, 10, 11, 12, 13, 14, 15, 16, 17, 18, 19, 20, 21, 22, 23, 24, 25,
    26, 27, 28, 29, 30, 31,
];

// The setting of caller 0, on a CPU at a moment.
fn setting(event: u32, cpu: u32, now: u64) -> Setting
    ensures caller { result.caller ≡ 0 }
    ensures cpu { result.cpu ≡ cpu }
    ensures now { result.now ≡ now }
{
    Setting {
        caller: 0,
        event,
        cpu,
        now,
        hw: [0; 32],
    }
}

fn look(generation: u64) -> Step {
    Step::Look(generation)
}

fn visit(lane: LaneId, place: u64, stamp: u64) -> Step {
    Step::Visit(Mark { lane, place, stamp })
}

fn pool(place: u64, stamp: u64) -> Step {
    visit(LaneId::Pool, place, stamp)
}

fn base(place: u64, stamp: u64) -> Step {
    visit(LaneId::Base, place, stamp)
}

fn cpu(cpu: u32, place: u64, stamp: u64) -> Step {
    visit(LaneId::Cpu(cpu), place, stamp)
}

// Whether the trace has these steps and no others.
fn has_steps(trace: &Trace, want: &[Step]) -> bool {
    if trace.len() as usize != want.len() {
        return false;
    }
    for i in 0..trace.len() {
        if trace.get(i) != want[i as usize] {
            return false;
        }
    }
    true
}

// Adds a sample with a credit. Each function below that makes one call returns the call's result, or whether the call's
// steps are the expected ones.
fn added<R: Wait>(
    rt: &R,
    lanes: &Lanes,
    pass: &mut Pass,
    set: &Setting,
    text: &[u8],
    bits: u32,
    want: &[Step],
) -> bool
    requires has { HoldsLanes lanes.now set.now.caller [] pass.old }
    requires moment { set.now.now < 2 ^ 40 }
    ensures has { HoldsLanes lanes.now set.entry.now.caller [] pass.new }
{
    let mut trace = Trace::empty();
    let mut site = Site {
        lanes,
        pass,
        trace: &mut trace,
        set: *set,
    };
    add(rt, &mut site, text, bits);
    has_steps(&trace, want)
}

fn reseeded<R: Wait>(rt: &R, lanes: &Lanes, pass: &mut Pass, set: &Setting, want: &[Step]) -> bool
    requires has { HoldsLanes lanes.now set.now.caller [] pass.old }
    requires moment { set.now.now < 2 ^ 40 }
    ensures has { HoldsLanes lanes.now set.entry.now.caller [] pass.new }
{
    let mut trace = Trace::empty();
    let mut site = Site {
        lanes,
        pass,
        trace: &mut trace,
        set: *set,
    };
    let answer = reseed(rt, &mut site);
    answer == Ok(()) && has_steps(&trace, want)
}

fn key_pressed<R: Wait>(
    rt: &R,
    lanes: &Lanes,
    pass: &mut Pass,
    set: &Setting,
    value: u8,
    want: &[Step],
) -> bool
    requires has { HoldsLanes lanes.now set.now.caller [] pass.old }
    requires moment { set.now.now < 2 ^ 40 }
    ensures has { HoldsLanes lanes.now set.entry.now.caller [] pass.new }
{
    let mut trace = Trace::empty();
    let mut site = Site {
        lanes,
        pass,
        trace: &mut trace,
        set: *set,
    };
    input(rt, &mut site, 0, 1, 30, value);
    has_steps(&trace, want)
}

fn bits_of<R: Wait>(
    rt: &R,
    lanes: &Lanes,
    pass: &mut Pass,
    set: &Setting,
    want: &[Step],
) -> Option<u32>
    requires has { HoldsLanes lanes.now set.now.caller [] pass.old }
    ensures has { HoldsLanes lanes.now set.entry.now.caller [] pass.new }
{
    let mut trace = Trace::empty();
    let mut site = Site {
        lanes,
        pass,
        trace: &mut trace,
        set: *set,
    };
    let bits = bits(rt, &mut site);
    has_steps(&trace, want).then_some(bits)
}

fn read_of<R: Wait, const N: usize>(
    rt: &R,
    lanes: &Lanes,
    pass: &mut Pass,
    set: &Setting,
    flags: u32,
    want: &[Step],
) -> Option<Result<[u8; N], Errno>>
    requires has { HoldsLanes lanes.now set.now.caller [] pass.old }
    requires cpu { set.now.cpu < lanes.now.cpus }
    requires short { N ≤ 2 ^ 20 }
    ensures has { HoldsLanes lanes.now set.entry.now.caller [] pass.new }
{
    let mut trace = Trace::empty();
    let mut bytes = [0; N];
    let mut site = Site {
        lanes,
        pass,
        trace: &mut trace,
        set: *set,
    };
    let answer = getrandom(rt, &mut site, &mut bytes, flags);
    if !has_steps(&trace, want) {
        return None;
    }
    match answer {
        Ok(()) => Some(Ok(bytes)),
        Err(errno) => Some(Err(errno)),
    }
}

fn file_read_of<R: Wait, const N: usize>(
    rt: &R,
    lanes: &Lanes,
    pass: &mut Pass,
    set: &Setting,
    nonblock: bool,
    want: &[Step],
) -> Option<Result<[u8; N], Errno>>
    requires has { HoldsLanes lanes.now set.now.caller [] pass.old }
    requires cpu { set.now.cpu < lanes.now.cpus }
    requires short { N ≤ 2 ^ 20 }
    ensures has { HoldsLanes lanes.now set.entry.now.caller [] pass.new }
{
    let mut trace = Trace::empty();
    let mut bytes = [0; N];
    let mut site = Site {
        lanes,
        pass,
        trace: &mut trace,
        set: *set,
    };
    let answer = random_file(rt, &mut site, &mut bytes, nonblock);
    if !has_steps(&trace, want) {
        return None;
    }
    match answer {
        Ok(()) => Some(Ok(bytes)),
        Err(errno) => Some(Err(errno)),
    }
}

fn int_of<R: Wait, const W: usize>(
    rt: &R,
    lanes: &Lanes,
    pass: &mut Pass,
    set: &Setting,
    want: &[Step],
) -> Option<[u8; W]>
    requires has { HoldsLanes lanes.now set.now.caller [] pass.old }
    requires cpu { set.now.cpu < lanes.now.cpus }
    requires width { IsWidth W }
    ensures has { HoldsLanes lanes.now set.entry.now.caller [] pass.new }
{
    let mut trace = Trace::empty();
    let mut bytes = [0; W];
    let mut site = Site {
        lanes,
        pass,
        trace: &mut trace,
        set: *set,
    };
    int(rt, &mut site, &mut bytes);
    has_steps(&trace, want).then_some(bytes)
}

#[test]
fn first_use_after_credit(rt: HostRuntime) -> Result<(), Fail> {
    let (lanes, mut pass) = started(rt.alloc(), 1, 0)?;
    let set = setting(0, 0, 0);
    let steps = [pool(0, 1), pool(1, 2), base(0, 3)];
    assert!(rt; added(&rt, &lanes, &mut pass, &set, &COUNTING, 256, &steps));
    let steps = [look(1), look(1), base(1, 4), cpu(0, 0, 5)];
    let first = read_of(&rt, &lanes, &mut pass, &set, 0, &steps);
    let want = *b"\x30\xc3\xd4\x35\xce\xee\xa9\x38\xaa\x71\x6d\xf2\x67\xe3\x69\x36";
    assert_eq!(rt; first, Some(Ok(want)));
    let second = read_of(&rt, &lanes, &mut pass, &set, 1, &[look(1)]);
    assert_eq!(rt; second, Some(Ok([])));
    Ok(())
}

#[test]
fn two_cpus(rt: HostRuntime) -> Result<(), Fail> {
    let (lanes, mut pass) = started(rt.alloc(), 2, 0)?;
    let (here, there) = (setting(0, 0, 0), setting(0, 1, 0));
    let steps = [pool(0, 1), pool(1, 2), base(0, 3)];
    assert!(rt; added(&rt, &lanes, &mut pass, &here, &[], 256, &steps));
    let steps = [look(1), look(1), base(1, 4), cpu(0, 0, 5)];
    let read = read_of(&rt, &lanes, &mut pass, &here, 0, &steps);
    assert_eq!(rt; read, Some(Ok(*b"\x93\x27\x14\x63\x05\x4b\xc0\xf8")));
    let steps = [look(1), look(1), base(2, 6), cpu(1, 0, 7)];
    let read = read_of(&rt, &lanes, &mut pass, &there, 0, &steps);
    assert_eq!(rt; read, Some(Ok(*b"\x5d\xfc\xe7\x21\x43\x8a\x44\x31")));
    let steps = [look(1), look(1), cpu(1, 1, 8)];
    let read = read_of(&rt, &lanes, &mut pass, &there, 0, &steps);
    assert_eq!(rt; read, Some(Ok(*b"\x2e\x31\x06\x99\xe6\x1e\xaa\x5a")));
    let steps = [look(1), pool(2, 9), base(3, 10)];
    assert!(rt; reseeded(&rt, &lanes, &mut pass, &there, &steps));
    let steps = [look(2), look(2), base(4, 11), cpu(1, 2, 12)];
    let read = read_of(&rt, &lanes, &mut pass, &there, 0, &steps);
    assert_eq!(rt; read, Some(Ok(*b"\xf1\x98\x16\x0e\x11\x00\x35\x9a")));
    Ok(())
}

#[test]
fn integers_across_readiness_and_a_reseed(rt: HostRuntime) -> Result<(), Fail> {
    let (lanes, mut pass) = started(rt.alloc(), 1, 0)?;
    let set = setting(0, 0, 0);
    let steps = [look(0), pool(0, 1), base(0, 2)];
    assert_eq!(rt;
        int_of(&rt, &lanes, &mut pass, &set, &steps),
        Some(*b"\x11\xb9")
    );
    let steps = [pool(1, 3), pool(2, 4), base(1, 5)];
    assert!(rt; added(&rt, &lanes, &mut pass, &set, &[], 256, &steps));
    let steps = [look(1), look(1), base(2, 6), cpu(0, 0, 7)];
    assert_eq!(rt;
        int_of(&rt, &lanes, &mut pass, &set, &steps),
        Some(*b"\xf1\x98")
    );
    let steps = [look(1), pool(3, 8), base(3, 9)];
    assert!(rt; reseeded(&rt, &lanes, &mut pass, &set, &steps));
    let steps = [look(2), look(2), base(4, 10), cpu(0, 1, 11)];
    assert_eq!(rt;
        int_of(&rt, &lanes, &mut pass, &set, &steps),
        Some(*b"\x80\xde")
    );
    Ok(())
}

#[test]
fn integers_of_a_byte(rt: HostRuntime) -> Result<(), Fail> {
    let (lanes, mut pass) = started(rt.alloc(), 1, 0)?;
    let set = setting(0, 0, 0);
    let steps = [pool(0, 1), pool(1, 2), base(0, 3)];
    assert!(rt; added(&rt, &lanes, &mut pass, &set, &[], 256, &steps));
    let steps = [look(1), look(1), base(1, 4), cpu(0, 0, 5)];
    assert_eq!(rt; int_of(&rt, &lanes, &mut pass, &set, &steps), Some([0x93]));
    let steps = [look(1), look(1), cpu(0, 1, 6)];
    assert_eq!(rt; int_of(&rt, &lanes, &mut pass, &set, &steps), Some([0x27]));
    let steps = [look(1), look(1), cpu(0, 2, 7)];
    assert_eq!(rt; int_of(&rt, &lanes, &mut pass, &set, &steps), Some([0x14]));
    Ok(())
}

#[test]
fn input_is_mixed(rt: HostRuntime) -> Result<(), Fail> {
    let (lanes, mut pass) = started(rt.alloc(), 1, 0)?;
    let set = setting(0, 0, 1000);
    assert!(rt; key_pressed(&rt, &lanes, &mut pass, &set, 1, &[pool(0, 1)]));
    let steps = [look(0), pool(1, 2), base(0, 3)];
    let read = read_of(&rt, &lanes, &mut pass, &set, 4, &steps);
    assert_eq!(rt; read, Some(Ok(*b"\xaa\x0a\xfa\x48\x3f\x4c\x6e\x77")));
    Ok(())
}

#[test]
fn input_is_credited_by_the_timer(rt: HostRuntime) -> Result<(), Fail> {
    let (lanes, mut pass) = started(rt.alloc(), 1, 0)?;
    let set = setting(0, 0, 1000);
    assert!(rt; key_pressed(&rt, &lanes, &mut pass, &set, 1, &[pool(0, 1)]));
    assert_eq!(rt;
        bits_of(&rt, &lanes, &mut pass, &set, &[pool(1, 2)]),
        Some(9)
    );
    let set = setting(0, 0, 3000);
    assert!(rt; key_pressed(&rt, &lanes, &mut pass, &set, 2, &[pool(2, 3)]));
    assert_eq!(rt;
        bits_of(&rt, &lanes, &mut pass, &set, &[pool(3, 4)]),
        Some(9)
    );
    let set = setting(0, 0, 8000);
    assert!(rt; key_pressed(&rt, &lanes, &mut pass, &set, 3, &[pool(4, 5)]));
    assert_eq!(rt;
        bits_of(&rt, &lanes, &mut pass, &set, &[pool(5, 6)]),
        Some(19)
    );
    assert!(rt; key_pressed(&rt, &lanes, &mut pass, &set, 3, &[pool(6, 7)]));
    assert_eq!(rt;
        bits_of(&rt, &lanes, &mut pass, &set, &[pool(7, 8)]),
        Some(19)
    );
    Ok(())
}

#[test]
fn device_file_before_readiness(rt: HostRuntime) -> Result<(), Fail> {
    let (lanes, mut pass) = started(rt.alloc(), 1, 0)?;
    let set = setting(0, 0, 0);
    let read = file_read_of::<_, 5>(&rt, &lanes, &mut pass, &set, true, &[look(0)]);
    assert_eq!(rt; read, Some(Err(Errno::Again)));
    let steps = [look(0), base(0, 1), base(1, 2)];
    let read = file_read_of::<_, 5>(&rt, &lanes, &mut pass, &set, false, &steps);
    assert_eq!(rt; read, Some(Err(Errno::Interrupted)));
    Ok(())
}

// A read of 64 bytes with acts inside. Returns the result and the bytes, if the steps are the expected ones.
fn inside_of<'x, R: Wait>(
    rt: &'x R,
    lanes: &'x Lanes,
    pass: &mut Pass,
    set: &Setting,
    acts: &mut [Bound],
    out: &mut [u8],
    want: &[Step],
) -> Option<Result<[u8; 64], Errno>>
    requires has { HoldsLanes lanes.now set.now.caller [] pass.old }
    requires cpu { set.now.cpu < lanes.now.cpus }
    requires moment { set.now.now < 2 ^ 40 }
    requires some { 0 < length acts.old }
    requires fresh { AllByRecursion IsWaitingAct acts.old }
    requires fits { length out.old ≡ all_wanted (asks_of acts.old) }
    ensures has { HoldsLanes lanes.now set.entry.now.caller [] pass.new }
{
    let mut trace = Trace::empty();
    let mut bytes = [0; 64];
    let mut st = VState::wiped();
    let site = Site {
        lanes,
        pass: &mut *pass,
        trace: &mut trace,
        set: *set,
    };
    let mut host = LaneHost::over(rt, site, &mut *acts, &mut *out);
    let answer = vread_inside(&mut host, &mut st, &mut bytes, 0);
    if !has_steps(&trace, want) {
        return None;
    }
    match answer {
        Ok(()) => Some(Ok(bytes)),
        Err(errno) => Some(Err(errno)),
    }
}

#[test]
fn a_wipe_and_a_read_inside(rt: HostRuntime) -> Result<(), Fail> {
    let (lanes, mut pass) = started(rt.alloc(), 1, 0)?;
    let set = setting(3, 0, 0);
    let steps = [pool(0, 1), pool(1, 2), base(0, 3)];
    assert!(rt; added(&rt, &lanes, &mut pass, &set, &[], 256, &steps));
    let mut acts = [
        Bound::of(Point::Serve, InsideAct::Wipe, 1),
        Bound::of(Point::Serve, InsideAct::Vread(8), 2),
    ];
    let mut out = [0; 8];
    let steps = [
        look(1),
        look(1),
        look(1),
        look(1),
        base(1, 4),
        cpu(0, 0, 5),
        look(1),
        look(1),
        look(1),
        look(1),
        cpu(0, 2, 7),
        look(1),
    ];
    let read = inside_of(&rt, &lanes, &mut pass, &set, &mut acts, &mut out, &steps);
    assert_eq!(rt;
        read,
        Some(Ok(
            *b"\x6b\x3f\x20\x17\x6e\x87\xf1\x4e\x28\x80\xb5\xc6\x7c\x73\xfa\x82\
        \x86\x84\xd2\x60\x6b\xce\xeb\x4c\xf3\x67\x07\xc4\x08\x33\x4d\xa3\
        \x9f\x8d\xb9\x20\x6e\x97\x2b\x3e\xed\xd3\xdc\xee\xfb\x46\x9c\xd7\
        \x1a\xef\x71\xcf\x25\x21\x73\x72\x55\x28\x6e\x55\x8c\x1a\xd8\xae"
        ))
    );
    assert!(rt; has_steps(&acts[0].trace, &[]));
    assert!(rt; acts[0].done && acts[1].done);
    assert!(rt; has_steps(&acts[1].trace, &[look(1), look(1), cpu(0, 1, 6)]));
    assert_eq!(rt; out, *b"\x8c\x67\x32\xd0\x75\x7d\x01\x37");
    Ok(())
}
