//! The system call getrandom(2), and the wait for readiness.
ghost use Rattle.std.specs.Prelude.{◌≡◌, ◌≤◌, ◌+◌, ◌==◌, ◌&&◌, ◌⊎◌, not, true, false, if◌then◌else◌, IsOk, length, []};
ghost use Rattle.key_names.specs.declared.entries.BaseEntry.TheVariants.{Wait as WaitEntry, Resume, Interrupt};
ghost use Rattle.key_names.specs.declared.events.Event.TheVariants.{Read, Dread};
ghost use Rattle.key_names.specs.Kernel.Flags.{is_bad, is_insecure};
ghost use Rattle.key_names.specs.Callers.Forms.{BaseOnly};
ghost use Rattle.key_names.specs.Transcripts.SeenLine.{bytes_or_none};
ghost use Rattle.rng_core.specs.Causes.{ReadCause};
ghost use Rattle.rng_core.specs.Makes.{Serving, result_answer, given};
ghost use Rattle.rng_core.specs.Sites.{IsIdle, IsOnCpu, HasRoom, Holds, Does, Completes, IsOneStep, lane_of, base_lane, seen_by, most_bytes};
ghost use Rattle.rng_core.specs.SiteWaits.{Waited, BeginsAndWaits, waiting_at};

use crate::crng::reads::{read_after, read_cpu};
use crate::lane_values;
use crate::site::Site;
use crossbeam_utils::Backoff;
use key_names::flags::{GRND_NONBLOCK, are_bad, is_insecure, is_nonblock};
use key_names::{BaseEntry, Errno, LaneId, Taken};
use lane_table::Held;
use std::sync::Wait;

// Counts the caller as not running, since it waits.
fn wait<R: Wait>(rt: &R, site: &mut Site)
    requires idle { IsIdle 1 site.old }
    ensures { Does 1 (BaseOnly WaitEntry) site.old site.new }
{
    let mut base = site.enter(rt, LaneId::Base);
    lane_values::down(base.state_mut());
    site.visit_base(base, BaseEntry::Wait);
}

// Counts the caller as running again, since the core is ready.
fn resume(site: &mut Site, mut base: Held)
    requires holds { Holds base_lane base site.old }
    requires ready { 1 ≤ (lane_of site.old base_lane).base.generation }
    requires room { HasRoom 1 site.old }
    ensures does { Does 1 (Serving (BaseOnly Resume) []) site.old site.new }
    ensures ready { 1 ≤ seen_by site.new }
{
    lane_values::up(base.state_mut());
    site.visit_base(base, BaseEntry::Resume);
}

// Counts the caller as running again, since no caller runs that could make the core ready.
fn interrupt(site: &mut Site, mut base: Held)
    requires holds { Holds base_lane base site.old }
    requires unready { (lane_of site.old base_lane).base.generation ≡ 0 }
    requires idle { (lane_of site.old base_lane).base.running ≡ 0 }
    requires room { HasRoom 1 site.old }
    ensures { Does 1 (Serving (BaseOnly Interrupt) []) site.old site.new }
{
    lane_values::up(base.state_mut());
    site.visit_base(base, BaseEntry::Interrupt);
}

// Takes the base again and again, until the core is ready or no caller runs (`wait_for_random_bytes`).
fn wait_ready<R: Wait>(rt: &R, site: &mut Site) -> Result<(), Errno>
    requires idle { IsIdle 1 site.old }
    ensures { Waited result site.old site.new }
{
    let backoff = Backoff::new();
    for _ in rt.forever() {
        let base = site.enter(rt, LaneId::Base);
        if lane_values::base_generation(base.state()) >= 1 {
            resume(site, base);
            return Ok(());
        }
        if lane_values::is_idle(base.state()) {
            interrupt(site, base);
            return Err(Errno::Interrupted);
        }
        site.give_back(base);
        backoff.snooze();
    }
    unreachable!()
}

// Whether a read that needs a ready core has to wait or fail.
fn must_wait(found: u64, flags: u32) -> bool
    ensures { result ≡ (found == 0 && not (is_insecure flags)) }
{
    found == 0 && !is_insecure(flags)
}

/// Reads random bytes for a user, at most 2^20 (`getrandom(2)`, `SYSCALL_DEFINE3(getrandom)`).
///
/// # Errors
///
/// `Invalid` if the flags are bad. If the core is not ready and `GRND_INSECURE` is not set, a read with `GRND_NONBLOCK`
/// fails with `Again`. Without `GRND_NONBLOCK` it fails with `Interrupted` if no caller runs that could make the core
/// ready. After an error the buffer is unspecified.
pub fn getrandom<R: Wait>(rt: &R, site: &mut Site, buf: &mut [u8], flags: u32) -> Result<(), Errno>
    requires idle { IsIdle (4 + waiting_at site.old) site.old }
    requires cpu { IsOnCpu site.old }
    requires short { length buf.old ≤ most_bytes }
    ensures does { Completes (4 + waiting_at site.old) (Read (length buf.old) flags) (result_answer result)
        (bytes_or_none (given result buf.new)) site.old site.new }
    ensures begins { BeginsAndWaits flags site.old site.new }
    ensures cause { ReadCause result flags site.old site.new }
    ensures served { is_bad flags ≡ false → (is_insecure flags ≡ true) ⊎ (1 ≤ seen_by site.old) → IsOk result }
{
    if are_bad(flags) {
        return Err(Errno::Invalid);
    }
    let found = site.look();
    if must_wait(found, flags) {
        if is_nonblock(flags) {
            return Err(Errno::Again);
        }
        wait(rt, site);
        wait_ready(rt, site)?;
        if buf.is_empty() {
            return Ok(());
        }
        let taken = Taken::User(buf.len() as u32);
        read_cpu(rt, site, buf, taken);
        return Ok(());
    }
    if buf.is_empty() {
        return Ok(());
    }
    let taken = Taken::User(buf.len() as u32);
    read_after(rt, site, found, buf, taken);
    Ok(())
}

fn file_flags(nonblock: bool) -> u32
    ensures { result ≡ (if nonblock then 1 else 0) }
{
    if nonblock { GRND_NONBLOCK } else { 0 }
}

/// Reads /dev/random (`random_read_iter`), at most 2^20 bytes. It waits for the core to be ready unless `nonblock`
/// is set.
///
/// # Errors
///
/// If the core is not ready: `Again` with `nonblock`; without it `Interrupted`, if no caller runs that could make the
/// core ready. After an error the buffer is unspecified.
pub fn random_file<R: Wait>(
    rt: &R,
    site: &mut Site,
    buf: &mut [u8],
    nonblock: bool,
) -> Result<(), Errno>
    requires idle { IsIdle (4 + waiting_at site.old) site.old }
    requires cpu { IsOnCpu site.old }
    requires short { length buf.old ≤ most_bytes }
    ensures does { Completes (4 + waiting_at site.old) (Dread (length buf.old) (if nonblock then 1 else 0))
        (result_answer result) (bytes_or_none (given result buf.new)) site.old site.new }
    ensures begins { BeginsAndWaits (if nonblock then 1 else 0) site.old site.new }
    ensures cause { ReadCause result (if nonblock then 1 else 0) site.old site.new }
    ensures served { 1 ≤ seen_by site.old → IsOk result }
{
    let flags = file_flags(nonblock);
    getrandom(rt, site, buf, flags)
}
