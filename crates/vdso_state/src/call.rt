//! The vgetrandom call, for any host.

ghost use Rattle.std.specs.Prelude.{◌≡◌, ◌^◌, ◌≤◌, length};
ghost use Rattle.key_names.specs.Kernel.Vgetrandom.{IsCall};
ghost use Rattle.vdso_state.specs.Host.{doings};
ghost use Rattle.vdso_state.specs.Places.{AfterPlace, Ends, CameTo, MayGoOn, MayFinish};

use crate::attempt::{ask_system, resume};
use crate::host::VHost;
use crate::outcome::VEnd;
use crate::place::{Came, Place, Turn};
use crate::state::VState;
use key_names::{Errno, Point, flags};

/// Begins a call: the call reaches its first point, or ends if it makes no attempt.
///
/// The host must have 5 looks and 3 system calls, and the buffer must have at most 2^20 bytes.
pub fn begin<H: VHost>(host: &mut H, st: &mut VState, buf: &mut [u8], flags: u32) -> Came
    requires looks { 5 ≤ H.looks_left host.old }
    requires calls { 3 ≤ H.calls_left host.old }
    requires short { length buf.old ≤ 2 ^ 20 }
    ensures came { CameTo (doings H.publishes H.answers H.passes) H.floor (IsCall (length buf.old) flags st.old)
        (length buf.old) flags 0 result host.old host.new st.new buf.new }
    ensures may { MayFinish result 0 (H.looks_left host.new) (H.calls_left host.new) (H.floor host.new) }
{
    if flags::are_bad(flags) {
        return Came::Ended(ask_system(host, st, buf, flags));
    }
    if host.published() == 0 {
        return Came::Ended(ask_system(host, st, buf, flags));
    }
    if buf.is_empty() {
        return Came::Ended(Ok(VEnd::Zero));
    }
    if st.is_in_use() {
        return Came::Ended(ask_system(host, st, buf, flags));
    }
    st.enter();
    Came::At(Place {
        turn: Turn::First,
        point: Point::Start,
        published: host.published(),
        next_block: 0,
    })
}

/// Continues a call from the point that it has reached to its end.
///
/// The conditions are those of [`resume`].
///
/// # Errors
///
/// The error of the last system call. The buffer is then unspecified.
pub fn finish<H: VHost>(
    host: &mut H,
    st: &mut VState,
    place: Place,
    buf: &mut [u8],
    flags: u32,
) -> Result<VEnd, Errno>
    requires may { MayGoOn place (H.looks_left host.old) (H.calls_left host.old) (H.floor host.old) }
    requires short { length buf.old ≤ 2 ^ 20 }
    ensures { Ends (doings H.publishes H.answers H.passes) H.floor
        (AfterPlace (length buf.old) flags place buf.old st.old)
        host.old host.new (record { state = st.new; result = result; buf = buf.new }) }
{
    let mut at = place;
    loop {
        match resume(host, st, at, buf, flags) {
            Came::Ended(result) => return result,
            Came::At(next) => {
                host.at(next.point, st);
                at = next;
            }
        }
    }
}

/// Writes random bytes from the state over all of `buf` (the kernel's `__cvdso_getrandom_data`). If the state's key is
/// not of the published generation, the state takes a new key first. The state may be wiped at the host's points: no
/// byte of a wiped state is given out.
///
/// The system call serves the bytes in each of these cases: the flags are bad, nothing is published yet, the state is
/// in use, no key can be read, or both attempts were outdated. The state is in use, for example, if this call is made
/// inside another call on the state, unless a wipe cleared the mark. If the flags are good and something is published,
/// a call for no bytes returns `Zero`.
///
/// The host must have 5 looks and 3 system calls, and the buffer must have at most 2^20 bytes.
///
/// # Errors
///
/// The error of the last system call. The buffer is then unspecified.
pub fn vgetrandom<H: VHost>(
    host: &mut H,
    st: &mut VState,
    buf: &mut [u8],
    flags: u32,
) -> Result<VEnd, Errno>
    requires looks { 5 ≤ H.looks_left host.old }
    requires calls { 3 ≤ H.calls_left host.old }
    requires short { length buf.old ≤ 2 ^ 20 }
    ensures { Ends (doings H.publishes H.answers H.passes) H.floor (IsCall (length buf.old) flags st.old)
        host.old host.new (record { state = st.new; result = result; buf = buf.new }) }
{
    match begin(host, st, buf, flags) {
        Came::Ended(result) => result,
        Came::At(place) => {
            host.at(place.point, st);
            finish(host, st, place, buf, flags)
        }
    }
}
