//! Reads of random bytes, from the base before the core is ready and from a CPU after that. A read holds no lane
//! while it makes the bytes after the first 32.
ghost use Rattle.std.specs.Prelude.{◌≡◌, ◌≢◌, ◌≤◌, None, Some, length};
ghost use Rattle.key_names.specs.declared.entries.CpuEntry.TheVariants.{Read};
ghost use Rattle.key_names.specs.Lanes.BaseList.{empty, early, ready};
ghost use Rattle.key_names.specs.declared.events.Event.TheVariants.{Kread, Uread};
ghost use Rattle.key_names.specs.declared.events.Answer.TheVariants.{Ok as Done};
ghost use Rattle.key_names.specs.Transcripts.SeenLine.{bytes_or_none};
ghost use Rattle.key_names.specs.Callers.Forms.{DrawForm, CpuReadForm, ReadForm};
ghost use Rattle.lane_table.specs.declared.view.LaneEntry.TheVariants.{Cpu as OfCpu};
ghost use Rattle.rng_core.specs.Makes.{Serving, setting_of};
ghost use Rattle.rng_core.specs.Rests.{Asks, finished, IsBegun};
ghost use Rattle.rng_core.specs.Sites.{IsIdle, IsOnCpu, HasRoom, Holds, HoldsWith, IsFresh, IsRefill, VisitedServing, Does, Completes, lane_of, base_lane, own_lane, seen_by, most_bytes};

use crate::crng::keys::KeyHandoff;
use crate::crng::rest::{self, Rest};
use crate::site::Site;
use crate::{cpu_values, lane_values};
use base_gen::Phase;
use key_names::{BaseEntry, CpuEntry, LaneId, Taken};
use lane_table::Held;
use std::sync::Wait;

// Reads from a base that was never seeded, with a root that serves this read alone (`crng_make_state` while
// `crng_init` is `CRNG_EMPTY`).
fn draw_rooted<R: Wait>(
    rt: &R,
    site: &mut Site,
    mut base: Held,
    buf: &mut [u8],
    taken: Taken,
) -> Rest
    requires holds { Holds base_lane base site.old }
    requires unseeded { (lane_of site.old base_lane).base.phase ≡ empty }
    requires asks { Asks taken buf.old }
    requires room { HasRoom 2 site.old }
    ensures begun { IsBegun result buf.new }
    ensures does { Does 2 (Serving (DrawForm (setting_of site.old.set) taken) (finished result buf.new)) site.old
        site.new }
{
    let root = site.extract(rt, &base);
    let rest = rest::draw_rooted(base.state_mut(), root.key, buf, taken);
    let entry = BaseEntry::Draw {
        root: Some(root.place),
        taken,
    };
    site.visit_base(base, entry);
    rest
}

// Reads from a base that was seeded early (`crng_make_state` while `crng_init` is `CRNG_EARLY`).
fn draw_early(site: &mut Site, mut base: Held, buf: &mut [u8], taken: Taken) -> Rest
    requires holds { Holds base_lane base site.old }
    requires seeded { (lane_of site.old base_lane).base.phase ≡ early }
    requires asks { Asks taken buf.old }
    requires room { HasRoom 1 site.old }
    ensures begun { IsBegun result buf.new }
    ensures does { Does 1 (Serving (DrawForm (setting_of site.old.set) taken) (finished result buf.new)) site.old
        site.new }
{
    let rest = rest::draw(base.state_mut(), buf, taken);
    site.visit_base(base, BaseEntry::Draw { root: None, taken });
    rest
}

// Reads from the held base before the core is ready.
fn draw<R: Wait>(rt: &R, site: &mut Site, base: Held, buf: &mut [u8], taken: Taken) -> Rest
    requires holds { Holds base_lane base site.old }
    requires unready { (lane_of site.old base_lane).base.phase ≢ ready }
    requires asks { Asks taken buf.old }
    requires room { HasRoom 2 site.old }
    ensures begun { IsBegun result buf.new }
    ensures does { Does 2 (Serving (DrawForm (setting_of site.old.set) taken) (finished result buf.new)) site.old
        site.new }
{
    match lane_values::phase(base.state()) {
        Phase::Empty => draw_rooted(rt, site, base, buf, taken),
        Phase::Early => draw_early(site, base, buf, taken),
        Phase::Ready => unreachable!(),
    }
}

// Reads from a CPU whose key is of the generation that the look found.
fn read_fresh(site: &mut Site, mut cpu: Held, look: u64, buf: &mut [u8], taken: Taken) -> Rest
    requires holds { Holds (own_lane site.old) cpu site.old }
    requires fresh { IsFresh look site.old }
    requires asks { Asks taken buf.old }
    requires room { HasRoom 1 site.old }
    ensures begun { IsBegun result buf.new }
    ensures left { VisitedServing (own_lane site.old) cpu (OfCpu (Read look None taken)) (finished result buf.new)
        site.old site.new }
{
    let rest = rest::read(cpu.state_mut(), buf, taken);
    let entry = CpuEntry::Read {
        look,
        refill: None,
        taken,
    };
    site.visit_cpu(cpu, entry);
    rest
}

// Reads from a CPU that was refilled from the base.
fn read_refilled(
    site: &mut Site,
    mut cpu: Held,
    look: u64,
    base: &KeyHandoff,
    buf: &mut [u8],
    taken: Taken,
) -> Rest
    requires holds { HoldsWith (Some base.now.place) 0 (own_lane site.old) cpu site.old }
    requires refill { IsRefill look base.now site.old }
    requires asks { Asks taken buf.old }
    requires room { HasRoom 1 site.old }
    ensures begun { IsBegun result buf.new }
    ensures left { VisitedServing (own_lane site.old) cpu (OfCpu (Read look (Some base.now.place) taken))
        (finished result buf.new) site.old site.new }
{
    let rest = rest::read_refilled(cpu.state_mut(), base.key, base.generation, buf, taken);
    let entry = CpuEntry::Read {
        look,
        refill: Some(base.place),
        taken,
    };
    site.visit_cpu(cpu, entry);
    rest
}

// Begins a read from a CPU (`crng_make_state` after the core is ready), and makes at most 32 bytes.
fn begin_cpu<R: Wait>(rt: &R, site: &mut Site, buf: &mut [u8], taken: Taken) -> Rest
    requires idle { IsIdle 3 site.old }
    requires cpu { IsOnCpu site.old }
    requires ready { 1 ≤ seen_by site.old }
    requires asks { Asks taken buf.old }
    ensures begun { IsBegun result buf.new }
    ensures does { Does 3 (Serving (CpuReadForm (setting_of site.old.set) taken) (finished result buf.new)) site.old
        site.new }
{
    let (cpu, look) = site.enter_cpu(rt);
    if look == cpu_values::cpu_generation(cpu.state()) {
        return read_fresh(site, cpu, look, buf, taken);
    }
    let base = site.refill(rt, &cpu);
    read_refilled(site, cpu, look, &base, buf, taken)
}

// Continues a read after its first look, which found `look`, and makes at most 32 bytes.
fn begin_after<R: Wait>(rt: &R, site: &mut Site, look: u64, buf: &mut [u8], taken: Taken) -> Rest
    requires idle { IsIdle 3 site.old }
    requires cpu { IsOnCpu site.old }
    requires looked { look ≤ seen_by site.old }
    requires asks { Asks taken buf.old }
    ensures begun { IsBegun result buf.new }
    ensures does { Does 3 (Serving (ReadForm (setting_of site.old.set) taken look) (finished result buf.new)) site.old
        site.new }
{
    if look != 0 {
        return begin_cpu(rt, site, buf, taken);
    }
    let base = site.enter(rt, LaneId::Base);
    if lane_values::phase(base.state()) != Phase::Ready {
        return draw(rt, site, base, buf, taken);
    }
    site.give_back(base);
    begin_cpu(rt, site, buf, taken)
}

/// Reads from a CPU (`_get_random_bytes`, `get_random_bytes_user`), and holds no lane while it makes the bytes after
/// the first 32.
pub(crate) fn read_cpu<R: Wait>(rt: &R, site: &mut Site, buf: &mut [u8], taken: Taken)
    requires idle { IsIdle 3 site.old }
    requires cpu { IsOnCpu site.old }
    requires ready { 1 ≤ seen_by site.old }
    requires asks { Asks taken buf.old }
    ensures { Does 3 (Serving (CpuReadForm (setting_of site.old.set) taken) buf.new) site.old site.new }
{
    let rest = begin_cpu(rt, site, buf, taken);
    rest.fill(buf);
}

/// Continues a read after its first look, which found `look`. It holds no lane while it makes the bytes after the
/// first 32.
pub(crate) fn read_after<R: Wait>(rt: &R, site: &mut Site, look: u64, buf: &mut [u8], taken: Taken)
    requires idle { IsIdle 3 site.old }
    requires cpu { IsOnCpu site.old }
    requires looked { look ≤ seen_by site.old }
    requires asks { Asks taken buf.old }
    ensures { Does 3 (Serving (ReadForm (setting_of site.old.set) taken look) buf.new) site.old site.new }
{
    let rest = begin_after(rt, site, look, buf, taken);
    rest.fill(buf);
}

/// Reads random bytes for the kernel (`get_random_bytes`), at most 2^20. A read of no bytes does nothing.
pub fn kernel_read<R: Wait>(rt: &R, site: &mut Site, buf: &mut [u8])
    requires idle { IsIdle 4 site.old }
    requires cpu { IsOnCpu site.old }
    requires short { length buf.old ≤ most_bytes }
    ensures { Completes 4 (Kread (length buf.old)) Done (bytes_or_none buf.new) site.old site.new }
{
    if buf.is_empty() {
        return;
    }
    let taken = Taken::Kernel(buf.len() as u32);
    let found = site.look();
    read_after(rt, site, found, buf, taken);
}

/// Reads /dev/urandom (`urandom_read_iter`), at most 2^20 bytes. It never waits for readiness. A read of no bytes
/// does nothing.
pub fn urandom_file<R: Wait>(rt: &R, site: &mut Site, buf: &mut [u8])
    requires idle { IsIdle 4 site.old }
    requires cpu { IsOnCpu site.old }
    requires short { length buf.old ≤ most_bytes }
    ensures { Completes 4 (Uread (length buf.old)) Done (bytes_or_none buf.new) site.old site.new }
{
    if buf.is_empty() {
        return;
    }
    let taken = Taken::User(buf.len() as u32);
    let found = site.look();
    read_after(rt, site, found, buf, taken);
}
