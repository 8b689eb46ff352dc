//! A caller's setting, and the number of its event.
ghost use Rattle.std.specs.Prelude.{◌≡◌, ◌<◌, ◌^◌, ◌+◌, ◌-◌};
ghost use Rattle.key_names.specs.Callers.Calls.{setting_after};
ghost use Rattle.key_names.specs.Callers.Meaning.{caller_after};
ghost use Rattle.rng_core.specs.Makes.{setting_of};
ghost use Rattle.caller_run.specs.Calling.{conform};

use crate::making::caller::Caller;
use key_names::Event;
use rng_core::Setting;

// The setting after an event.
#[inline(always)]
fn set_by(set: &mut Setting, event: &Event)
    ensures setting { setting_of set.new ≡ setting_after (setting_of set.old) event.now }
    ensures caller { set.new.caller ≡ set.old.caller }
    ensures event { set.new.event ≡ set.old.event }
{
    match event {
        Event::At { moment } => set.now = *moment,
        Event::On { cpu } => set.cpu = *cpu,
        Event::Hw { bytes } => set.hw = bytes.bytes(),
        _ => {}
    }
}

impl Caller {
    /// Changes the caller's setting, states and event number to those after `event`.
    pub(crate) fn go_on(&mut self, event: &Event)
        requires number { self.old.set.event < 2 ^ 32 - 1 }
        requires current { self.old.states.value.current < 16 }
        ensures conform { conform self.new ≡ caller_after (conform self.old) event.now }
        ensures caller { self.new.set.caller ≡ self.old.set.caller }
        ensures event { self.new.set.event ≡ self.old.set.event + 1 }
        ensures pass { self.new.pass ≡ self.old.pass }
    {
        set_by(&mut self.set, event);
        self.set.event += 1;
        self.states.go_on(event);
    }
}
