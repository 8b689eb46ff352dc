//! Forks of a process inside a vgetrandom call, at each of the four points of the first attempt and of the second. The
//! host publishes a list of generations, and fills its answer to each system call with a new byte value. The expected
//! bytes are computed from the keystream of the keys that the host gave.

ghost use Rattle.std.specs.Prelude.{◌≡◌, ◌-◌, ◌≤◌, ◌^◌};

use chacha_blocks::fill;
use key_names::Errno;
use std::alloc::{AllocError, Global};
use std::process::Abort;
use std::test::Fail;
use vcall_fork::{Point, Progress, Stage, Turn, VCall, VEnd};
use vdso_state::{VHost, VState};

#[derive(Drop)]
struct ForkListHost {
    published: [u64; 5],
    looks: usize,
    calls: usize,
    // All bytes of the next system call's answer have this value.
    byte: u8,
    floor: u64,
}

impl ForkListHost {
    fn publishing(published: [u64; 5], byte: u8, floor: u64) -> ForkListHost
        ensures looks { result.looks ≡ 0 }
        ensures calls { result.calls ≡ 0 }
        ensures floor { result.floor ≡ floor }
    {
        ForkListHost {
            published,
            looks: 0,
            calls: 0,
            byte,
            floor,
        }
    }
}

impl VHost for ForkListHost {
    ghost publishes = { λ before g next. Unit {0} };

    ghost answers = { λ before n flags answer next. Unit {0} };

    ghost passes = { λ before point wiped next. Unit {0} };

    ghost looks_left = { λ host. 5 - host.looks };

    ghost calls_left = { λ host. 3 - host.calls };

    ghost floor = { λ host. host.floor };

    fn published(&mut self) -> u64 {
        let next = self.published[self.looks];
        self.looks += 1;
        if next > self.floor {
            self.floor = next;
        }
        self.floor
    }

    fn getrandom(&mut self, buf: &mut [u8], _flags: u32) -> Result<(), Errno> {
        self.calls += 1;
        buf.fill(self.byte);
        self.byte = self.byte.wrapping_add(1);
        Ok(())
    }

    fn at(&mut self, _point: Point, _st: &mut VState) {}
}

// The expected bytes of a call: a key's stream from a block on, or a system call's answer.
#[derive(Clone, Copy)]
enum Given {
    Stream { key: u8, block: u64 },
    Call(u8),
}

// The parent gets keys whose bytes are all 1, all 2 and so on. The child gets keys whose bytes are all 101, all 102 and
// so on. With a new key, a copy of `n` bytes takes `n / 64` blocks of the key's stream and two more. With wiped memory,
// the copy first takes 96 bytes of zeros.
fn parent_gives(attempt: Turn, n: u64) -> Given
    requires { n ≤ 2 ^ 20 }
{
    match attempt {
        Turn::First => Given::Stream { key: 1, block: 0 },
        Turn::Second => Given::Stream {
            key: 2,
            block: n / 64 + 2,
        },
    }
}

fn child_gives(attempt: Turn, point: Point, n: u64) -> Given
    requires { n ≤ 2 ^ 20 }
{
    let keyed = n / 64 + 2;
    let zeros = if n <= 96 { 0 } else { (n - 96) / 64 + 2 };
    let (key, block) = match (attempt, point) {
        (Turn::First, Point::Start) => (101, 0),
        (Turn::First, Point::Written) => (102, keyed),
        (Turn::First, Point::Serve) => (101, zeros),
        (Turn::First, Point::End) | (Turn::Second, Point::Start) => (101, keyed),
        (Turn::Second, Point::Written) => return Given::Call(102),
        (Turn::Second, Point::Serve) | (Turn::Second, Point::End) => return Given::Call(101),
    };
    Given::Stream { key, block }
}

fn bytes_of(alloc: Global, given: Given, n: usize) -> Result<Vec<u8>, AllocError> {
    let mut bytes = vec![in alloc; 0; n]?;
    match given {
        Given::Stream { key, block } => {
            let from = block.saturating_mul(64);
            if from <= 1 << 30 && n <= 1 << 20 {
                fill(&[key; 32], from, &mut bytes);
            }
        }
        Given::Call(byte) => bytes.fill(byte),
    }
    Ok(bytes)
}

// The length of the longest run of positions where both texts have the same byte.
fn longest_run(a: &[u8], b: &[u8]) -> u64 {
    let mut longest = 0;
    let mut run = 0u64;
    for (x, y) in a.iter().zip(b.iter()) {
        run = if x == y { run.saturating_add(1) } else { 0 };
        if run > longest {
            longest = run;
        }
    }
    longest
}

// A call for `n` bytes on a wiped state, forked at `point`. Returns the parent's bytes and the child's.
fn forked(
    rt: &impl Abort,
    alloc: Global,
    attempt: Turn,
    point: Point,
    n: u32,
) -> Result<(Vec<u8>, Vec<u8>), AllocError>
    requires { n ≤ 2 ^ 20 }
{
    let published = match attempt {
        Turn::First => [2; 5],
        Turn::Second => [2, 2, 3, 3, 3],
    };
    let mut host = ForkListHost::publishing(published, 1, 0);
    let mut st = VState::wiped();
    let mut buf = vec![in alloc; 0; n as usize]?;
    let mut child_buf = vec![in alloc; 0; n as usize]?;
    let mut call = VCall::begin(n, 0);
    let progress = call.run_to(&mut host, &mut st, &mut buf, attempt, point);
    assert_eq!(rt; progress, Progress::At);
    let Stage::At(place) = call.stage else {
        return Ok((buf, child_buf));
    };
    assert_eq!(rt; (place.turn, place.point), (attempt, point));
    let floor = published[4];
    assert!(rt; place.published <= floor);
    let (child, mut child_st) = call.fork_call(&buf, &mut child_buf);
    let mut rest = ForkListHost::publishing([floor; 5], host.byte, floor);
    let ended = call.finish(&mut rest, &mut st, &mut buf);
    assert_eq!(rt; ended, Ok(VEnd::Batch));
    let mut child_host = ForkListHost::publishing([floor; 5], 101, floor);
    let child_ended = child.finish(&mut child_host, &mut child_st, &mut child_buf);
    assert!(rt; child_ended.is_ok());
    assert!(rt; !st.is_in_use() && !child_st.is_in_use());
    Ok((buf, child_buf))
}

// Lengths near the sizes of keys, blocks and batches.
const LENGTHS: [u32; 23] = [
    1, 2, 15, 16, 31, 32, 33, 40, 63, 64, 65, 95, 96, 97, 100, 127, 128, 129, 159, 160, 161, 192,
    4096,
];

const POINTS: [Point; 4] = [Point::Start, Point::Written, Point::Serve, Point::End];

#[test]
fn parent_and_child_give_bytes_of_their_own(rt: HostRuntime) -> Result<(), Fail> {
    for n in LENGTHS {
        for attempt in [Turn::First, Turn::Second] {
            for point in POINTS {
                assert!(rt; n <= 1 << 20);
                let (parent, child) = forked(&rt, rt.alloc(), attempt, point, n)?;
                let long = u64::from(n);
                let given = bytes_of(rt.alloc(), parent_gives(attempt, long), n as usize)?;
                assert!(rt;
                    parent.as_slice() == given.as_slice(),
                    "parent of {n} at {point:?}"
                );
                let own = bytes_of(rt.alloc(), child_gives(attempt, point, long), n as usize)?;
                assert!(rt;
                    child.as_slice() == own.as_slice(),
                    "child of {n} at {point:?}"
                );
                assert!(rt;
                    longest_run(&parent, &child) < 16,
                    "run of {n} at {point:?}"
                );
            }
        }
    }
    Ok(())
}

// If a call does not reach the given point, it runs to its end without a fork. The first call below needs no new key,
// since its state has a current one.
#[test]
fn a_point_that_does_not_come_is_run_past(rt: HostRuntime) {
    let mut host = ForkListHost::publishing([2; 5], 1, 0);
    let mut st = VState::keyed([7; 32], 2);
    let mut buf = [0; 8];
    let mut call = VCall::begin(8, 0);
    let progress = call.run_to(&mut host, &mut st, &mut buf, Turn::First, Point::Written);
    assert_eq!(rt; progress, Progress::Ended(Ok(VEnd::Batch)));
    assert_eq!(rt; call.stage, Stage::Over);
    assert_eq!(rt; (host.looks, host.calls), (3, 0));
    let mut bad = VCall::begin(8, 6);
    let mut other = ForkListHost::publishing([2; 5], 1, 0);
    let ended = bad.run_to(&mut other, &mut st, &mut buf, Turn::First, Point::Start);
    assert_eq!(rt; ended, Progress::Ended(Ok(VEnd::System)));
    assert_eq!(rt; buf, [1; 8]);
}
