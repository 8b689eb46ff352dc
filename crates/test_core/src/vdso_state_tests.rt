//! A host that publishes a list of generations, answers a list of system calls and wipes the state at given points.

ghost use Rattle.std.specs.Prelude.{◌≡◌, ◌-◌};

use crate::streams::zero_stream;
use key_names::Errno;
use vdso_state::{Local, Point, VEnd, VHost, VState, local, vgetrandom};

// The keystream of the key 01 01 .. 01, from another implementation.
const ONES_KEY_AT_0: [u8; 32] = *b"\x02\x3f\x37\x20\x3a\x24\x76\xc4\x25\x66\xa6\x1c\xc5\x5c\x3c\xa8\
    \x75\xdb\xb4\xcc\x41\xc0\xde\xb7\x89\xf8\xe7\xbf\x88\x18\x36\x38";

const ONES_KEY_AT_128: [u8; 32] =
    *b"\xb4\x78\xb8\x70\x2c\x1d\x25\x69\xfe\x52\xe5\xd7\xdb\xad\xec\x62\
    \x23\xcd\x10\xfd\x4b\x50\x4d\xab\xac\x7f\xff\x23\xa3\x73\x63\xd1";

const ONES: [u8; 32] = [1; 32];

/// A point of an attempt. Attempts are counted from 1.
#[derive(Clone, Copy, Debug, PartialEq, Eq)]
struct AttemptPoint {
    point: Point,
    attempt: u8,
}

#[derive(Drop)]
struct ListHost {
    published: [u64; 5],
    looks: usize,
    answers: [Result<u8, Errno>; 3],
    calls: usize,
    wipes: [Option<AttemptPoint>; 2],
    attempt: u8,
    floor: u64,
}

impl ListHost {
    /// A host that always publishes 2, and answers each system call with bytes that are all 1.
    fn steady(wipes: [Option<AttemptPoint>; 2]) -> ListHost
        ensures looks { result.looks ≡ 0 }
        ensures calls { result.calls ≡ 0 }
    {
        ListHost {
            published: [2; 5],
            looks: 0,
            answers: [Ok(1); 3],
            calls: 0,
            wipes,
            attempt: 0,
            floor: 0,
        }
    }
}

impl VHost for ListHost {
    ghost publishes = { λ before g next. Unit {0} };

    ghost answers = { λ before n flags answer next. Unit {0} };

    ghost passes = { λ before point wiped next. Unit {0} };

    ghost looks_left = { λ host. 5 - host.looks };

    ghost calls_left = { λ host. 3 - host.calls };

    ghost floor = { λ host. host.floor };

    fn published(&mut self) -> u64 {
        let next = self.published[self.looks];
        self.looks += 1;
        if next > self.floor {
            self.floor = next;
        }
        self.floor
    }

    fn getrandom(&mut self, buf: &mut [u8], _flags: u32) -> Result<(), Errno> {
        let answer = self.answers[self.calls];
        self.calls += 1;
        match answer {
            Ok(byte) => {
                buf.fill(byte);
                Ok(())
            }
            Err(errno) => Err(errno),
        }
    }

    fn at(&mut self, point: Point, st: &mut VState) {
        if point == Point::Start {
            self.attempt = self.attempt.saturating_add(1);
        }
        let here = AttemptPoint {
            point,
            attempt: self.attempt,
        };
        if self.wipes[0] == Some(here) || self.wipes[1] == Some(here) {
            st.wipe();
        }
    }
}

// The key of a state, found by a copy of no bytes.
fn key_of(st: &mut VState) -> [u8; 32] {
    st.pass(0, 0).key
}

// The generation, the number of bytes left in the batch, and whether a call is in progress.
fn shown(st: &VState) -> (u64, usize, bool) {
    (st.generation(), st.left(), st.is_in_use())
}

// The first half of block 0 of the zero key's stream is served. The rest of the first two blocks is the batch and the
// next key.
#[test]
fn a_current_key_serves(rt: HostRuntime) {
    let mut host = ListHost::steady([None, None]);
    let mut st = VState::keyed([0; 32], 2);
    let mut buf = [0; 32];
    let end = vgetrandom(&mut host, &mut st, &mut buf, 0);
    assert_eq!(rt; end, Ok(VEnd::Batch));
    assert_eq!(rt; Some(buf.as_slice()), zero_stream(0, 32));
    assert_eq!(rt; shown(&st), (2, 64, false));
    assert_eq!(rt; Some(key_of(&mut st).as_slice()), zero_stream(96, 128));
    let mut rest = [0; 64];
    assert!(rt; st.left() >= 64);
    st.copy_from_batch(&mut rest);
    assert_eq!(rt; Some(rest.as_slice()), zero_stream(32, 96));
    assert_eq!(rt; (host.looks, host.calls), (3, 0));
}

#[test]
fn a_state_in_use_is_left_alone(rt: HostRuntime) {
    let mut host = ListHost::steady([None, None]);
    let mut st = VState::keyed([7; 32], 2);
    st.enter();
    let mut buf = [0; 32];
    let end = vgetrandom(&mut host, &mut st, &mut buf, 0);
    assert_eq!(rt; end, Ok(VEnd::System));
    assert_eq!(rt; buf, ONES);
    assert_eq!(rt; key_of(&mut st), [7; 32]);
    assert_eq!(rt; shown(&st), (2, 0, true));
}

#[derive(Clone, Copy)]
struct Wiped {
    wipes: [Option<AttemptPoint>; 2],
    end: VEnd,
    bytes: Option<&'static [u8]>,
}

fn wipe_at(point: Point, attempt: u8) -> Option<AttemptPoint> {
    Some(AttemptPoint { point, attempt })
}

// A wipe at each point of the first attempt, and at each point of the second attempt. A second attempt needs another
// wipe, at the end of the first attempt. Bytes of a wiped batch are never served, and the second attempt continues with
// block 2.
#[test]
fn a_wipe_at_each_point(rt: HostRuntime) {
    let last = wipe_at(Point::End, 1);
    let anew = Some(ONES_KEY_AT_0.as_slice());
    let on = Some(ONES_KEY_AT_128.as_slice());
    let called = Some(ONES.as_slice());
    let cases = [
        Wiped {
            wipes: [wipe_at(Point::Start, 1), None],
            end: VEnd::Batch,
            bytes: anew,
        },
        Wiped {
            wipes: [wipe_at(Point::Written, 1), None],
            end: VEnd::Batch,
            bytes: zero_stream(0, 32),
        },
        Wiped {
            wipes: [wipe_at(Point::Serve, 1), None],
            end: VEnd::Batch,
            bytes: anew,
        },
        Wiped {
            wipes: [last, None],
            end: VEnd::Batch,
            bytes: on,
        },
        Wiped {
            wipes: [last, wipe_at(Point::Start, 2)],
            end: VEnd::Batch,
            bytes: on,
        },
        Wiped {
            wipes: [last, wipe_at(Point::Written, 2)],
            end: VEnd::System,
            bytes: called,
        },
        Wiped {
            wipes: [last, wipe_at(Point::Serve, 2)],
            end: VEnd::System,
            bytes: called,
        },
        Wiped {
            wipes: [last, wipe_at(Point::End, 2)],
            end: VEnd::System,
            bytes: called,
        },
    ];
    for (i, case) in cases.iter().enumerate() {
        let mut host = ListHost::steady(case.wipes);
        let mut st = VState::keyed([0; 32], 2);
        let mut buf = [0; 32];
        let end = vgetrandom(&mut host, &mut st, &mut buf, 0);
        assert_eq!(rt; end, Ok(case.end), "at {i}");
        assert_eq!(rt; Some(buf.as_slice()), case.bytes, "at {i}");
        assert!(rt; !st.is_in_use(), "at {i}");
    }
}

#[test]
fn a_wipe_at_both_ends_leaves_zeros(rt: HostRuntime) {
    let mut host = ListHost::steady([wipe_at(Point::End, 1), wipe_at(Point::End, 2)]);
    let mut st = VState::keyed([0; 32], 2);
    let mut buf = [0; 32];
    let end = vgetrandom(&mut host, &mut st, &mut buf, 0);
    assert_eq!(rt; end, Ok(VEnd::System));
    assert_eq!(rt; shown(&st), (0, 96, false));
    assert_eq!(rt; key_of(&mut st), [0; 32]);
    let mut batch = [1; 96];
    assert!(rt; st.left() >= 96);
    st.copy_from_batch(&mut batch);
    assert_eq!(rt; batch, [0; 96]);
}

// The system call for a key fails, and the system call for the bytes succeeds or fails.
#[test]
fn a_failed_rekey_goes_to_the_system_call(rt: HostRuntime) {
    let mut host = ListHost::steady([None, None]);
    host.answers = [Err(Errno::Interrupted), Ok(1), Ok(1)];
    let mut st = VState::wiped();
    let mut buf = [0; 32];
    let end = vgetrandom(&mut host, &mut st, &mut buf, 0);
    assert_eq!(rt; end, Ok(VEnd::System));
    assert_eq!(rt; buf, ONES);
    assert_eq!(rt; shown(&st), (0, 96, false));
    host = ListHost::steady([None, None]);
    host.answers = [Err(Errno::Interrupted), Err(Errno::Again), Ok(1)];
    let failed = vgetrandom(&mut host, &mut st, &mut buf, 1);
    assert_eq!(rt; failed, Err(Errno::Again));
}

#[test]
fn flags_readiness_and_length_come_first(rt: HostRuntime) {
    let mut st = VState::keyed([0; 32], 2);
    let mut buf = [0; 32];
    let mut host = ListHost::steady([None, None]);
    host.answers = [Err(Errno::Invalid), Ok(1), Ok(1)];
    assert_eq!(rt;
        vgetrandom(&mut host, &mut st, &mut buf, 6),
        Err(Errno::Invalid)
    );
    assert_eq!(rt; host.looks, 0);
    host = ListHost::steady([None, None]);
    host.published = [0; 5];
    assert_eq!(rt;
        vgetrandom(&mut host, &mut st, &mut buf, 0),
        Ok(VEnd::System)
    );
    assert_eq!(rt; (host.looks, host.calls), (1, 1));
    host = ListHost::steady([None, None]);
    assert_eq!(rt; vgetrandom(&mut host, &mut st, &mut [], 0), Ok(VEnd::Zero));
    assert_eq!(rt; (host.looks, host.calls), (1, 0));
    assert_eq!(rt; shown(&st), (2, 0, false));
}

// The second look finds another generation than the first look, and the last look finds the same as the second look.
#[test]
fn a_reseed_before_the_attempt_rekeys_once(rt: HostRuntime) {
    let mut host = ListHost::steady([None, None]);
    host.published = [2, 3, 3, 3, 3];
    let mut st = VState::keyed([0; 32], 2);
    let mut buf = [0; 32];
    assert_eq!(rt;
        vgetrandom(&mut host, &mut st, &mut buf, 0),
        Ok(VEnd::Batch)
    );
    assert_eq!(rt; buf, ONES_KEY_AT_0);
    assert_eq!(rt; (st.generation(), host.looks, host.calls), (3, 3, 1));
}

#[test]
fn a_copy_out_of_the_batch(rt: HostRuntime) {
    let mut host = ListHost::steady([None, None]);
    let mut st = VState::keyed([0; 32], 2);
    let mut front = [0; 32];
    assert_eq!(rt; local(2, &mut st, &mut front), Local::NeedsSystem);
    assert_eq!(rt;
        vgetrandom(&mut host, &mut st, &mut front, 0),
        Ok(VEnd::Batch)
    );
    let mut rest = [0; 64];
    assert_eq!(rt; local(3, &mut st, &mut rest), Local::NeedsSystem);
    assert_eq!(rt; rest, [0; 64]);
    assert_eq!(rt; local(2, &mut st, &mut rest), Local::Served);
    assert_eq!(rt; Some(rest.as_slice()), zero_stream(32, 96));
    assert_eq!(rt; st.left(), 0);
    assert_eq!(rt; local(2, &mut st, &mut []), Local::Served);
    assert_eq!(rt; local(2, &mut st, &mut [0]), Local::NeedsSystem);
}
