//! Reads out of a caller's vgetrandom state.
ghost use Rattle.std.specs.Prelude.{◌≡◌, ◌<◌, ◌≤◌, length};
ghost use Rattle.key_names.specs.Transcripts.SeenLine.{bytes_or_none};
ghost use Rattle.vdso_state.specs.declared.outcome.Local.TheVariants.{NeedsSystem};
ghost use Rattle.rng_core.specs.Hosting.{IsNewHost, HostCalled, ReadsState, ReadsInside};
ghost use Rattle.rng_core.specs.Makes.{result_answer, given};
ghost use Rattle.rng_core.specs.Sites.{IsIdle, most_bytes};
ghost use Rattle.rng_core.specs.VreadMakes.{IsCurrent, ReadsLocally, done_of};

use crate::site::Site;
use crate::vdso::hosting::publish;
use crate::vdso::lane_host::LaneHost;
use key_names::flags::are_bad;
use key_names::{Errno, Step};
use std::sync::Wait;
use vdso_state::{Local, VEnd, VState, local, vgetrandom};

/// Copies bytes of the batch over all of `buf` if three conditions hold: the state's key is of the published
/// generation, no call is using the state, and the batch has enough bytes left. Otherwise the state and `buf` stay as
/// they were. If there are no bytes to read or the flags are bad, the call does not even look at the generation. It
/// never waits. A look that leads to no copy is not recorded in the trace.
pub fn vread_local(site: &mut Site, st: &mut VState, buf: &mut [u8], flags: u32) -> Local
    requires { IsIdle 1 site.old }
    ensures reads { ReadsLocally result (length buf.old) flags st.old st.new buf.new site.old site.new }
    ensures kept { result ≡ NeedsSystem → buf.new ≡ buf.old }
{
    if buf.is_empty() || are_bad(flags) {
        return Local::NeedsSystem;
    }
    let found = site.lanes.generation(site.pass);
    match local(publish(found), st, buf) {
        Local::Served => {
            site.trace.push(Step::Look(found));
            Local::Served
        }
        Local::NeedsSystem => Local::NeedsSystem,
    }
}

// The result of a vgetrandom call: success or an error, without how the call ended.
fn done(ended: Result<VEnd, Errno>) -> Result<(), Errno>
    ensures { result ≡ done_of ended }
{
    match ended {
        Ok(_) => Ok(()),
        Err(errno) => Err(errno),
    }
}

/// Makes a call of vgetrandom on the host.
pub(crate) fn call_host<R: Wait>(
    host: &mut LaneHost<'_, R>,
    st: &mut VState,
    buf: &mut [u8],
    flags: u32,
) -> Result<(), Errno>
    requires new { IsNewHost host.old }
    requires current { IsCurrent st.old host.old.site }
    requires short { length buf.old ≤ most_bytes }
    ensures { HostCalled (length buf.old) flags st.old st.new (result_answer result)
        (bytes_or_none (given result buf.new))
        host.old host.new }
{
    let ended = vgetrandom(host, st, buf, flags);
    done(ended)
}

/// Reads random bytes for a user (`vgetrandom`), at most 2^20: out of the caller's vgetrandom state if the state can
/// serve them, and else by the system call. The host must be new and without acts. The state's generation must not be
/// above the last published generation that the caller has seen.
///
/// # Errors
///
/// The error of the last system call. After an error the buffer is unspecified.
pub fn vread<R: Wait>(
    host: &mut LaneHost<'_, R>,
    st: &mut VState,
    buf: &mut [u8],
    flags: u32,
) -> Result<(), Errno>
    requires new { IsNewHost host.old }
    requires alone { length host.old.acts.now ≡ 0 }
    requires current { IsCurrent st.old host.old.site }
    requires short { length buf.old ≤ most_bytes }
    ensures { ReadsState (length buf.old) flags st.old st.new (result_answer result)
        (bytes_or_none (given result buf.new))
        host.old host.new }
{
    match vread_local(&mut host.site, st, buf, flags) {
        Local::Served => Ok(()),
        Local::NeedsSystem => call_host(host, st, buf, flags),
    }
}

/// Reads random bytes for a user as [`vread`](vread) does, but runs at least one of the host's acts inside. So the
/// read is a call of `vgetrandom` from the start, and tries no copy before it.
///
/// The host must be new. The state's generation must not be above the last published generation that the caller has
/// seen.
///
/// # Errors
///
/// The error of the last system call. After an error the buffer is unspecified.
pub fn vread_inside<R: Wait>(
    host: &mut LaneHost<'_, R>,
    st: &mut VState,
    buf: &mut [u8],
    flags: u32,
) -> Result<(), Errno>
    requires new { IsNewHost host.old }
    requires some { 0 < length host.old.acts.now }
    requires current { IsCurrent st.old host.old.site }
    requires short { length buf.old ≤ most_bytes }
    ensures { ReadsInside (length buf.old) flags st.old st.new (result_answer result)
        (bytes_or_none (given result buf.new))
        host.old host.new }
{
    call_host(host, st, buf, flags)
}
