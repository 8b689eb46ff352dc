//! The host over a site, and what it does at each step of a call.
ghost use Rattle.std.specs.Prelude.{◌≡◌, ◌<◌, ◌^◌};
ghost use Rattle.key_names.specs.Kernel.VgetrandomState.{state_left};
ghost use Rattle.key_names.specs.Callers.VreadSteps.{published_by};
ghost use Rattle.rng_core.specs.Hosting.{hosting, CanHost, IsNewHost};
ghost use Rattle.rng_core.specs.Sites.{seen_by};

use crate::interface::system_call::getrandom;
use crate::site::Site;
use crate::vdso::acts::{Bound, run_acts};
use crate::vdso::attempt::Attempt;
use crate::vdso::lane_host::LaneHost;
use key_names::{Errno, Point};
use std::sync::Wait;
use vdso_state::{VHost, VState};

impl<'a, R> LaneHost<'a, R> {
    /// The host of one call, or of the rest of a call. It can make 5 looks and 3 system calls.
    ///
    /// The site's trace and each act's trace must be empty, and no act may be done. `out` must have exactly the length
    /// of all the acts' reads together. Each act reads at most 2^20 bytes.
    pub fn over(
        rt: &'a R,
        site: Site<'a>,
        acts: &'a mut [Bound],
        out: &'a mut [u8],
    ) -> LaneHost<'a, R>
        requires { CanHost acts.old out.old site }
        ensures site { result.site ≡ site.entry }
        ensures acts { (result.acts.ghost_name ≡ acts.entry.ghost_name) × (result.acts.now ≡ acts.old) }
        ensures out { (result.out.ghost_name ≡ out.entry.ghost_name) × (result.out.now ≡ out.old) }
        ensures new { IsNewHost result }
    {
        LaneHost {
            rt,
            site,
            acts,
            out,
            attempt: Attempt::Before,
            looks: 5,
            calls: 3,
        }
    }
}

/// The generation to publish after a look that found `found`: 0 if the core is not ready, and else `found` plus one.
pub(crate) fn publish(found: u64) -> u64
    requires { found < 2 ^ 63 }
    ensures { result ≡ published_by found }
{
    if found == 0 { 0 } else { found + 1 }
}

fn wipe_if(wiped: bool, st: &mut VState)
    ensures { st.new ≡ state_left wiped st.old }
{
    if wiped {
        st.wipe();
    }
}

impl<'a, R: Wait> VHost for LaneHost<'a, R> {
    ghost publishes = { hosting.publishes_as };

    ghost answers = { hosting.answers_as };

    ghost passes = { hosting.passes_as };

    ghost looks_left = { λ h. h.looks };

    ghost calls_left = { λ h. h.calls };

    ghost floor = { λ h. published_by (seen_by h.site) };

    fn published(&mut self) -> u64 {
        self.looks -= 1;
        let found = self.site.look();
        publish(found)
    }

    fn getrandom(&mut self, buf: &mut [u8], flags: u32) -> Result<(), Errno> {
        self.calls -= 1;
        getrandom(self.rt, &mut self.site, buf, flags)
    }

    fn at(&mut self, point: Point, st: &mut VState) {
        self.attempt = self.attempt.reach(point);
        if self.attempt.is_first() {
            let wiped = run_acts(self.rt, &mut self.site, point, self.acts, self.out);
            wipe_if(wiped, st);
        }
    }
}
