//! Follows a `vread` over the steps of its line.
ghost use Rattle.std.specs.Prelude.{◌≡◌, ◌^◌, ◌≤◌, []};
ghost use Rattle.judge_vread.specs.Path.{published, leaving, at_end, by_system, from_ready, from_look, by_vgetrandom};
ghost use Rattle.key_names.specs.Kernel.BatchCopy.{serves_locally};
ghost use Rattle.judge_vread.specs.Inside.{inside_of};
ghost use Rattle.judge_vread.specs.Path.{attempted, tried_once, tried_again, copy_or_call, followed};

use crate::attempt::{attempt, published};
use crate::inside::{Inside, Reached};
use crate::seen::{SeenStep, rises};
use crate::served::Served;
use crate::system_call::system_call;
use key_names::{Answer, flags};
use vdso_state::VState;

/// The result of a `vread`: its answer, the bytes that it served, and the points that its first attempt reached.
#[derive(Drop)]
pub struct VreadPath {
    pub answer: Answer,
    pub served: Served,
    pub reached: Reached,
}

fn at_end(served: Served, reached: Reached, seen: &[SeenStep]) -> Option<VreadPath>
    ensures { result ≡ at_end served reached seen.now }
{
    match seen {
        [] => Some(VreadPath {
            answer: Answer::Ok,
            served,
            reached,
        }),
        _ => None,
    }
}

fn by_system(len: u32, flags: u32, reached: Reached, seen: &[SeenStep]) -> Option<VreadPath>
    ensures { result ≡ by_system len flags reached seen.now }
{
    let called = system_call(len, flags, seen)?;
    Some(VreadPath {
        answer: called.answer,
        served: called.served,
        reached,
    })
}

fn try_again(
    st: &mut VState,
    len: u32,
    flags: u32,
    next_block: u64,
    reached: Reached,
    seen: &[SeenStep],
) -> Option<VreadPath>
    requires near { next_block ≤ 2 ^ 20 }
    requires short { len ≤ 2 ^ 20 }
    ensures { leaving st.new result
        ≡ tried_again len flags reached (attempted (inside_of []) len next_block st.old seen.now) }
{
    let (tried, rest) = attempt(st, Inside::none(), len, next_block, seen)?;
    st.leave();
    if tried.holds {
        at_end(tried.served, reached, rest)
    } else {
        by_system(len, flags, reached, rest)
    }
}

fn try_twice(
    st: &mut VState,
    len: u32,
    flags: u32,
    inside: Inside,
    seen: &[SeenStep],
) -> Option<VreadPath>
    requires short { len ≤ 2 ^ 20 }
    ensures { leaving st.new result ≡ tried_once len flags (attempted inside len 0 st.old seen.now) }
{
    let (tried, rest) = attempt(st, inside, len, 0, seen)?;
    let reached = if tried.keyed {
        Reached::All
    } else {
        Reached::AllButWritten
    };
    if tried.holds {
        st.leave();
        at_end(tried.served, reached, rest)
    } else {
        try_again(st, len, flags, tried.next_block, reached, rest)
    }
}

fn from_ready(
    st: &mut VState,
    len: u32,
    flags: u32,
    inside: Inside,
    seen: &[SeenStep],
) -> Option<VreadPath>
    requires short { len ≤ 2 ^ 20 }
    ensures { leaving st.new result ≡ from_ready len flags inside st.old seen.now }
{
    if len == 0 {
        at_end(Served::none(), Reached::Nothing, seen)
    } else if st.is_in_use() {
        by_system(len, flags, Reached::Nothing, seen)
    } else {
        st.enter();
        try_twice(st, len, flags, inside, seen)
    }
}

fn by_vgetrandom(
    st: &mut VState,
    len: u32,
    flags: u32,
    inside: Inside,
    seen: &[SeenStep],
) -> Option<VreadPath>
    requires short { len ≤ 2 ^ 20 }
    ensures { leaving st.new result ≡ by_vgetrandom len flags inside st.old seen.now }
{
    if flags::are_bad(flags) {
        return by_system(len, flags, Reached::Nothing, seen);
    }
    match seen {
        [SeenStep::Unready, rest @ ..] => by_system(len, flags, Reached::Nothing, rest),
        [SeenStep::Ready(_), rest @ ..] => from_ready(st, len, flags, inside, rest),
        _ => None,
    }
}

// Whether the state allows a copy of `len` bytes without a vgetrandom call, if a look found the generation `found`.
fn serves_locally(st: &VState, found: u64, len: u32) -> bool
    ensures { result ≡ serves_locally (published found) st.now len }
{
    published(found) == st.generation() && !st.is_in_use() && len as usize <= st.left()
}

fn copy_or_call(
    st: &mut VState,
    len: u32,
    flags: u32,
    inside: Inside,
    seen: &[SeenStep],
) -> Option<VreadPath>
    requires short { len ≤ 2 ^ 20 }
    ensures { leaving st.new result ≡ copy_or_call len flags inside st.old seen.now }
{
    match seen {
        [SeenStep::Ready(found), rest @ ..] if serves_locally(st, *found, len) => {
            let (served, _) = Served::of_copy(st, 0, len);
            at_end(served, Reached::Nothing, rest)
        }
        _ => by_vgetrandom(st, len, flags, inside, seen),
    }
}

/// Follows a `vread` of `len` bytes, at most 2^20, with these flags, over the seen steps of its line. Returns the
/// result, and changes the caller's current state as the `vread` does. If the steps are not those of such a `vread` on
/// this state, returns `None` and leaves the state unspecified.
pub fn follow(
    st: &mut VState,
    len: u32,
    flags: u32,
    inside: Inside,
    seen: &[SeenStep],
) -> Option<VreadPath>
    requires short { len ≤ 2 ^ 20 }
    ensures { leaving st.new result ≡ followed len flags inside st.old seen.now }
{
    if !rises(seen) {
        None
    } else if inside.any || len == 0 || flags::are_bad(flags) {
        by_vgetrandom(st, len, flags, inside, seen)
    } else {
        copy_or_call(st, len, flags, inside, seen)
    }
}
