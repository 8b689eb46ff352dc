//! Samples for the pool, and their credit.
ghost use Rattle.std.specs.Prelude.{◌≡◌, ◌+◌, length};
ghost use Rattle.key_names.specs.declared.events.Event.TheVariants.{Write as WriteEvent, Device as DeviceEvent, Add as AddEvent, Bits as BitsEvent, Input as InputEvent, Vmfork as VmforkEvent};
ghost use Rattle.key_names.specs.declared.events.Answer.TheVariants.{Ok as Done};
ghost use Rattle.key_names.specs.Transcripts.SeenLine.{count, no_data};
ghost use Rattle.rng_core.specs.Sites.{IsIdle, IsTimely, Completes};

use crate::crng::reseeds::{cross, reseed};
use crate::lane_values;
use crate::site::Site;
use key_names::{LaneId, PoolNote};
use std::sync::Wait;

/// Mixes bytes into the pool without credit (`write_pool_user`).
pub fn mix<R: Wait>(rt: &R, site: &mut Site, text: &[u8])
    requires idle { IsIdle 1 site.old }
    ensures { Completes 1 (WriteEvent text.now) Done no_data site.old site.new }
{
    let mut pool = site.enter(rt, LaneId::Pool);
    lane_values::mix(pool.state_mut(), text);
    site.visit_pool(pool, PoolNote::Mix { text, bits: 0 });
}

/// Mixes a device's word and bytes into the pool, without credit (`add_device_randomness`).
pub fn device<R: Wait>(rt: &R, site: &mut Site, word: u64, text: &[u8])
    requires idle { IsIdle 1 site.old }
    ensures room { length site.new.trace.now ≡ length site.old.trace.now + 1 }
    ensures does { Completes 1 (DeviceEvent word text.now) Done no_data site.old site.new }
{
    let mut pool = site.enter(rt, LaneId::Pool);
    lane_values::mix_device(pool.state_mut(), word, text);
    site.visit_pool(pool, PoolNote::Device { word, text });
}

/// Mixes bytes into the pool, and credits bits for them (`random_ioctl` of `RNDADDENTROPY`, or of `RNDADDTOENTCNT` if
/// there are no bytes).
pub fn add<R: Wait>(rt: &R, site: &mut Site, text: &[u8], bits: u32)
    requires idle { IsIdle 3 site.old }
    requires moment { IsTimely site.old }
    ensures { Completes 3 (AddEvent text.now bits) Done no_data site.old site.new }
{
    let mut pool = site.enter(rt, LaneId::Pool);
    let crossing = lane_values::mix_and_credit(pool.state_mut(), text, bits);
    site.visit_pool(pool, PoolNote::Mix { text, bits });
    cross(rt, site, crossing);
}

/// Handles an event of an input device (`add_input_randomness`). An event with the same value as the last one changes
/// nothing. Any other event is mixed into the pool. If the pool is not full, it gets credit for the event's timing.
pub fn input<R: Wait>(rt: &R, site: &mut Site, word: u64, kind: u16, code: u16, value: u8)
    requires idle { IsIdle 3 site.old }
    requires moment { IsTimely site.old }
    ensures { Completes 3 (InputEvent word kind code value) Done no_data site.old site.new }
{
    let now = site.set.now;
    let mut pool = site.enter(rt, LaneId::Pool);
    let crossing = lane_values::mix_input(pool.state_mut(), word, kind, code, value, now);
    let note = PoolNote::Input {
        word,
        kind,
        code,
        value,
        now,
    };
    site.visit_pool(pool, note);
    cross(rt, site, crossing);
}

/// Returns the number of bits credited to the pool (`RNDGETENTCNT`).
pub fn bits<R: Wait>(rt: &R, site: &mut Site) -> u32
    requires idle { IsIdle 1 site.old }
    ensures { Completes 1 BitsEvent Done (count result) site.old site.new }
{
    let pool = site.enter(rt, LaneId::Pool);
    let bits = lane_values::bits(pool.state());
    site.visit_pool(pool, PoolNote::Bits);
    bits
}

/// Handles a fork of the virtual machine: mixes in the machine's id, and reseeds the core if it is ready
/// (`add_vmfork_randomness`).
pub fn vmfork<R: Wait>(rt: &R, site: &mut Site, word: u64, text: &[u8])
    requires idle { IsIdle 4 site.old }
    requires moment { IsTimely site.old }
    ensures { Completes 4 (VmforkEvent word text.now) Done no_data site.old site.new }
{
    device(rt, site, word, text);
    let _ = reseed(rt, site);
}
