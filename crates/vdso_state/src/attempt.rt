//! The steps of a vgetrandom call from one of its points to the next.

ghost use Rattle.std.specs.Prelude.{◌≡◌, ◌≢◌, ◌+◌, ◌^◌, ◌<◌, ◌≤◌, length};
ghost use Rattle.key_names.specs.declared.point.Point.TheVariants.{Written, Serve, End};
ghost use Rattle.key_names.specs.Kernel.BatchCopy.{copy_bytes, state_after_copy, block_after_copy};
ghost use Rattle.key_names.specs.Kernel.Vgetrandom.{SystemAnswer, BySystem, FromWritten, FromEnd, state_after_call};
ghost use Rattle.vdso_state.specs.Host.{KeyIsRead, doings};
ghost use Rattle.vdso_state.specs.Turns.{points_for, turn_number};
ghost use Rattle.vdso_state.specs.Places.{RestOf, AfterPlace, Ends, CameTo, MayGoOn, MayFinish, points_ahead};

use crate::host::VHost;
use crate::outcome::VEnd;
use crate::place::{Came, Place, Turn};
use crate::state::VState;
use key_names::{Errno, Point};

/// Lets the system call getrandom(2) fill the whole buffer.
///
/// # Errors
///
/// The error of the system call. The buffer is then unspecified.
pub(crate) fn ask_system<H: VHost>(
    host: &mut H,
    st: &VState,
    buf: &mut [u8],
    flags: u32,
) -> Result<VEnd, Errno>
    requires calls { 1 ≤ H.calls_left host.old }
    requires short { length buf.old ≤ 2 ^ 20 }
    ensures { Ends (doings H.publishes H.answers H.passes) H.floor (BySystem (length buf.old) flags st.now)
        host.old host.new (record { state = st.now; result = result; buf = buf.new }) }
{
    match host.getrandom(buf, flags) {
        Ok(()) => Ok(VEnd::System),
        Err(errno) => Err(errno),
    }
}

/// Ends the use of the state, and lets the system call fill the whole buffer.
///
/// # Errors
///
/// The error of the system call. The buffer is then unspecified.
fn give_up<H: VHost>(
    host: &mut H,
    st: &mut VState,
    buf: &mut [u8],
    flags: u32,
) -> Result<VEnd, Errno>
    requires calls { 1 ≤ H.calls_left host.old }
    requires short { length buf.old ≤ 2 ^ 20 }
    ensures { Ends (doings H.publishes H.answers H.passes) H.floor
        (BySystem (length buf.old) flags (state_after_call st.old))
        host.old host.new (record { state = st.new; result = result; buf = buf.new }) }
{
    st.leave();
    ask_system(host, st, buf, flags)
}

/// After `Start`: goes on to `Serve` if the state's generation is the published one. If not, records the published one
/// in the state, and goes on to `Written`, after which a key for it is read.
fn after_start(st: &mut VState, place: Place) -> Place
    ensures current { st.old.generation ≡ place.published →
        (st.new ≡ st.old) × (result ≡ record place { point = Serve }) }
    ensures other { st.old.generation ≢ place.published →
        (st.new ≡ record st.old { generation = place.published }) × (result ≡ record place { point = Written }) }
{
    if st.generation() == place.published {
        place.at(Point::Serve)
    } else {
        st.begin_generation(place.published);
        place.at(Point::Written)
    }
}

/// Reads a new key by the system call. If the read fails, the state's generation is 0.
fn read_key<H: VHost>(host: &mut H, st: &mut VState) -> Result<(), Errno>
    requires calls { 1 ≤ H.calls_left host.old }
    ensures reads { (answer : SystemAnswer) × KeyIsRead answer result st.old st.new
        × H.answers host.old 32 0 answer host.new }
    ensures floor { H.floor host.old ≤ H.floor host.new }
    ensures looks { H.looks_left host.new ≡ H.looks_left host.old }
    ensures calls { H.calls_left host.old ≡ H.calls_left host.new + 1 }
{
    match host.getrandom(&mut st.key, 0) {
        Ok(()) => {
            st.pos = 96;
            Ok(())
        }
        Err(errno) => {
            st.generation = 0;
            Err(errno)
        }
    }
}

/// After `Written`: reads a new key, for the generation that the state already has.
fn after_written<H: VHost>(
    host: &mut H,
    st: &mut VState,
    place: Place,
    buf: &mut [u8],
    flags: u32,
) -> Came
    requires point { place.point ≡ Written }
    requires may { MayGoOn place (H.looks_left host.old) (H.calls_left host.old) (H.floor host.old) }
    requires short { length buf.old ≤ 2 ^ 20 }
    ensures came { CameTo (doings H.publishes H.answers H.passes) H.floor
        (RestOf place.turn (length buf.old) flags (FromWritten (length buf.old) place.next_block st.old))
        (length buf.old) flags place.published result host.old host.new st.new buf.new }
    ensures may { MayFinish result (turn_number place.turn)
        (H.looks_left host.new) (H.calls_left host.new) (H.floor host.new) }
    ensures ahead { points_ahead result < points_for place.turn place.point }
{
    match read_key(host, st) {
        Ok(()) => Came::At(place.at(Point::Serve)),
        Err(_) => Came::Ended(give_up(host, st, buf, flags)),
    }
}

/// After `Serve`: copies bytes over all of `buf`.
fn after_serve(st: &mut VState, place: Place, buf: &mut [u8]) -> Place
    requires near { place.next_block ≤ 2 ^ 20 }
    requires short { length buf.old ≤ 2 ^ 20 }
    ensures bytes { buf.new ≡ copy_bytes st.old place.next_block (length buf.old) }
    ensures state { st.new ≡ state_after_copy st.old place.next_block (length buf.old) }
    ensures place { result ≡ record place {
      point = End;
      next_block = block_after_copy st.old place.next_block (length buf.old);
    } }
    ensures near { result.next_block ≤ place.next_block + 2 ^ 14 + 2 }
{
    let next_block = st.copy(place.next_block, buf);
    Place {
        point: Point::End,
        next_block,
        ..place
    }
}

/// After `End`: the bytes may be given out if the state still has the generation that is published now. If the state
/// was wiped or the core was reseeded, the second attempt follows the first, and the system call follows the second.
fn after_end<H: VHost>(
    host: &mut H,
    st: &mut VState,
    place: Place,
    buf: &mut [u8],
    flags: u32,
) -> Came
    requires point { place.point ≡ End }
    requires may { MayGoOn place (H.looks_left host.old) (H.calls_left host.old) (H.floor host.old) }
    requires short { length buf.old ≤ 2 ^ 20 }
    ensures came { CameTo (doings H.publishes H.answers H.passes) H.floor
        (RestOf place.turn (length buf.old) flags (FromEnd buf.old place.next_block st.old))
        (length buf.old) flags place.published result host.old host.new st.new buf.new }
    ensures may { MayFinish result (turn_number place.turn)
        (H.looks_left host.new) (H.calls_left host.new) (H.floor host.new) }
    ensures ahead { points_ahead result < points_for place.turn place.point }
{
    let published = host.published();
    if published == st.generation() {
        st.leave();
        return Came::Ended(Ok(VEnd::Batch));
    }
    match place.turn {
        Turn::First => Came::At(Place {
            turn: Turn::Second,
            point: Point::Start,
            published: host.published(),
            next_block: place.next_block,
        }),
        Turn::Second => Came::Ended(give_up(host, st, buf, flags)),
    }
}

/// Continues a call from the point that it has reached, to its next point or to its end.
///
/// `place` must come from `begin` or from this function, and the buffer must have at most 2^20 bytes. The host must
/// publish no generation below `place.published`. It must still have 3 looks in the first attempt, or 1 in the second,
/// and also the system calls that may follow, at most 3.
///
/// # Errors
///
/// The error of the last system call, if it ended the call. The buffer is then unspecified.
pub fn resume<H: VHost>(
    host: &mut H,
    st: &mut VState,
    place: Place,
    buf: &mut [u8],
    flags: u32,
) -> Came
    requires may { MayGoOn place (H.looks_left host.old) (H.calls_left host.old) (H.floor host.old) }
    requires short { length buf.old ≤ 2 ^ 20 }
    ensures came { CameTo (doings H.publishes H.answers H.passes) H.floor
        (AfterPlace (length buf.old) flags place buf.old st.old)
        (length buf.old) flags place.published result host.old host.new st.new buf.new }
    ensures may { MayFinish result (turn_number place.turn)
        (H.looks_left host.new) (H.calls_left host.new) (H.floor host.new) }
    ensures ahead { points_ahead result < points_for place.turn place.point }
{
    match place.point {
        Point::Start => Came::At(after_start(st, place)),
        Point::Written => after_written(host, st, place, buf, flags),
        Point::Serve => Came::At(after_serve(st, place, buf)),
        Point::End => after_end(host, st, place, buf, flags),
    }
}
