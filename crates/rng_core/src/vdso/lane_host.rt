//! A caller as the host of its own vgetrandom calls, with acts at their points.
ghost use Rattle.std.specs.Prelude.{◌≡◌, ◌<◌, ◌≤◌, ◌+◌, ◌*◌, ◌^◌, true, length};
ghost use Rattle.lane_table.specs.Calls.{view};
ghost use Rattle.rng_core.specs.Acts.{asks_of, all_wanted, all_ready};
ghost use Rattle.rng_core.specs.Hosted.{IsFree, free_props};
ghost use Rattle.rng_core.specs.Waits.{waiting};

use crate::site::Site;
use crate::vdso::acts::Bound;
use crate::vdso::attempt::Attempt;

/// A caller as the host of a vgetrandom call. The caller's looks and system calls go into the trace of its site.
/// Acts run at their points, each with its own trace.
///
/// An act runs if the call's first attempt reaches the act's point; acts of one point run in the order of the list. A
/// read that is an act is `getrandom` without flags. In `out`, the read's bytes follow the bytes of the reads before it
/// in the list. A wipe makes the state all zero.
#[derive(Drop)]
pub struct LaneHost<'a, R> {
    pub(crate) rt: &'a R,
    pub(crate) site: Site<'a>,
    pub(crate) acts: &'a mut [Bound],
    pub(crate) out: &'a mut [u8],
    pub(crate) attempt: Attempt,
    pub(crate) looks: u32,
    pub(crate) calls: u32,
    ghost free: { IsFree site.lanes.now site.set.caller site.pass.now } by { Prim.hlevel free_props },
    ghost cpu: { site.set.cpu < site.lanes.now.cpus },
    ghost moment: { 0 < length acts.now → site.set.now < 2 ^ 40 },
    ghost room: { length site.trace.now + looks + 4 * calls + waiting (view site.pass.now) ≤ 20 },
    ghost fits: { length out.now ≡ all_wanted (asks_of acts.now) },
    ghost ready: { all_ready acts.now ≡ true },
}
