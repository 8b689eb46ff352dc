//! Follows one attempt of a vgetrandom call (a try to copy its bytes) over the seen steps.
ghost use Rattle.std.specs.Prelude.{◌≡◌, ◌+◌, ◌^◌, ◌≤◌, IfSome, MatchOption, Some, None};
ghost use Rattle.key_names.specs.Kernel.VgetrandomState.{state_left};
ghost use Rattle.judge_vread.specs.Path.{published, copied, from_serve, key_in_front, from_start, attempted};

use crate::inside::Inside;
use crate::seen::SeenStep;
use crate::served::Served;
use chacha_blocks::derive_key;
use vdso_state::VState;

/// The result of an attempt: the bytes that it copied, whether it read a key, whether at its end the state has the
/// published generation, and the key's next block.
#[derive(Drop)]
pub struct AttemptResult {
    pub served: Served,
    pub keyed: bool,
    pub holds: bool,
    pub next_block: u64,
}

/// The generation that is published at a look; `found` is the base's generation that the look found.
pub(crate) fn published(found: u64) -> u64
    ensures { result ≡ published found }
{
    found.saturating_add(1)
}

fn pass_point(st: &mut VState, wiped: bool)
    ensures { st.new ≡ state_left wiped st.old }
{
    if wiped {
        st.wipe();
    }
}

fn copied<'a>(
    st: &mut VState,
    inside: Inside,
    len: u32,
    next_block: u64,
    keyed: bool,
    seen: &'a [SeenStep],
) -> Option<(AttemptResult, &'a [SeenStep])>
    requires near { next_block ≤ 2 ^ 20 }
    requires short { len ≤ 2 ^ 20 }
    ensures tries { MatchOption result (copied inside len next_block keyed st.old seen.now ≡ None)
        (λ r. copied inside len next_block keyed st.old seen.now
        ≡ Some (record { tried = r.0; state = st.new; rest = r.1.now })) }
    ensures near { IfSome result (λ r. r.0.next_block ≤ next_block + 2 ^ 14 + 2) }
{
    match seen {
        [SeenStep::Ready(found), rest @ ..] => {
            let (served, next_block) = Served::of_copy(st, next_block, len);
            pass_point(st, inside.end);
            let tried = AttemptResult {
                served,
                keyed,
                holds: st.generation() == published(*found),
                next_block,
            };
            Some((tried, rest))
        }
        _ => None,
    }
}

fn from_serve<'a>(
    st: &mut VState,
    inside: Inside,
    len: u32,
    next_block: u64,
    keyed: bool,
    seen: &'a [SeenStep],
) -> Option<(AttemptResult, &'a [SeenStep])>
    requires near { next_block ≤ 2 ^ 20 }
    requires short { len ≤ 2 ^ 20 }
    ensures tries { MatchOption result (from_serve inside len next_block keyed st.old seen.now ≡ None)
        (λ r. from_serve inside len next_block keyed st.old seen.now
        ≡ Some (record { tried = r.0; state = st.new; rest = r.1.now })) }
    ensures near { IfSome result (λ r. r.0.next_block ≤ next_block + 2 ^ 14 + 2) }
{
    pass_point(st, inside.serve);
    copied(st, inside, len, next_block, keyed, seen)
}

/// The key that the system call of 32 bytes at the front of these steps reads, and the seen steps after the call.
fn key_in_front(seen: &[SeenStep]) -> Option<([u8; 32], &[SeenStep])>
    ensures { MatchOption result (key_in_front seen.now ≡ None)
        (λ r. key_in_front seen.now ≡ Some (record { key = r.0; rest = r.1.now })) }
{
    match seen {
        [
            SeenStep::Ready(_),
            SeenStep::Ready(_),
            SeenStep::Cpu(key),
            rest @ ..,
        ]
        | [
            SeenStep::Ready(_),
            SeenStep::Ready(_),
            SeenStep::Base(_),
            SeenStep::Cpu(key),
            rest @ ..,
        ] => {
            let mut erased = *key;
            Some((derive_key(&mut erased), rest))
        }
        _ => None,
    }
}

fn from_start<'a>(
    st: &mut VState,
    inside: Inside,
    len: u32,
    next_block: u64,
    generation: u64,
    seen: &'a [SeenStep],
) -> Option<(AttemptResult, &'a [SeenStep])>
    requires near { next_block ≤ 2 ^ 20 }
    requires short { len ≤ 2 ^ 20 }
    ensures tries { MatchOption result (from_start inside len next_block st.old generation seen.now ≡ None)
        (λ r. from_start inside len next_block st.old generation seen.now
        ≡ Some (record { tried = r.0; state = st.new; rest = r.1.now })) }
    ensures near { IfSome result (λ r. r.0.next_block ≤ next_block + 2 ^ 14 + 2) }
{
    if st.generation() == generation {
        from_serve(st, inside, len, next_block, false, seen)
    } else {
        st.begin_generation(generation);
        pass_point(st, inside.written);
        let (key, rest) = key_in_front(seen)?;
        st.take_key(key);
        from_serve(st, inside, len, next_block, true, rest)
    }
}

/// Follows an attempt to copy `len` bytes. `next_block` is the next block of the state's key. Both `len` and
/// `next_block` are at most 2^20. Returns the attempt's result and the seen steps after the attempt. If the steps are
/// not those of an attempt, returns `None` and leaves the state unspecified.
pub(crate) fn attempt<'a>(
    st: &mut VState,
    inside: Inside,
    len: u32,
    next_block: u64,
    seen: &'a [SeenStep],
) -> Option<(AttemptResult, &'a [SeenStep])>
    requires near { next_block ≤ 2 ^ 20 }
    requires short { len ≤ 2 ^ 20 }
    ensures tries { MatchOption result (attempted inside len next_block st.old seen.now ≡ None)
        (λ r. attempted inside len next_block st.old seen.now
        ≡ Some (record { tried = r.0; state = st.new; rest = r.1.now })) }
    ensures near { IfSome result (λ r. r.0.next_block ≤ next_block + 2 ^ 14 + 2) }
{
    match seen {
        [SeenStep::Ready(found), rest @ ..] => {
            pass_point(st, inside.start);
            from_start(st, inside, len, next_block, published(*found), rest)
        }
        _ => None,
    }
}
