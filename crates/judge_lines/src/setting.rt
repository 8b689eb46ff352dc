//! The setting of a caller: its CPU, its moment and its hardware words.
use key_names::Event;
use std::marker::Model;

/// A caller's CPU, its moment (the time that its calls see) in milliseconds, and its 32 bytes of hardware words.
///
/// In contracts, a `LineSetting` is a `Setting` of `key_names` (`specs/Callers/Calls`).
#[derive(Drop)]
pub struct LineSetting {
    cpu: u32,
    moment: u64,
    hw: [u8; 32],
}

impl Model for LineSetting {
    ghost use Rattle.key_names.specs.Callers.Calls.{Setting as CallSetting};

    ghost Value = { CallSetting };

    ghost view = { λ s. record { cpu = s.cpu; now = s.moment; hw = s.hw } };
}

impl LineSetting {
    ghost use Rattle.std.specs.Prelude.{◌≡◌};
    ghost use Rattle.key_names.specs.Callers.Calls.{first_setting, setting_after};

    /// The setting of caller 0 at its start: CPU 0, moment 0 and zeros as hardware words.
    pub fn first() -> LineSetting
        ensures { result ≡ first_setting }
    {
        LineSetting {
            cpu: 0,
            moment: 0,
            hw: [0; 32],
        }
    }

    /// A copy of the setting.
    pub fn again(&self) -> LineSetting
        ensures { result ≡ self.now }
    {
        LineSetting {
            cpu: self.cpu,
            moment: self.moment,
            hw: self.hw,
        }
    }

    /// Changes the setting as `event` does.
    pub fn follow(&mut self, event: &Event)
        ensures { self.new ≡ setting_after self.old event.now }
    {
        match event {
            Event::At { moment } => self.moment = *moment,
            Event::On { cpu } => self.cpu = *cpu,
            Event::Hw { bytes } => self.hw = bytes.bytes(),
            _ => {}
        }
    }

    /// The caller's CPU.
    pub fn cpu(&self) -> u32
        ensures { result ≡ self.now.cpu }
    {
        self.cpu
    }

    /// The caller's moment, in milliseconds.
    pub fn moment(&self) -> u64
        ensures { result ≡ self.now.now }
    {
        self.moment
    }

    /// The caller's hardware words.
    pub fn hw(&self) -> [u8; 32]
        ensures { result ≡ self.now.hw }
    {
        self.hw
    }
}
