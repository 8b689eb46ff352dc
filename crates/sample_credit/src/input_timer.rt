//! How many bits an input event credits, given the moments of this event and of earlier events.

ghost use Rattle.std.specs.Prelude.{◌≡◌, ◌≢◌, ◌↔◌, ◌/◌, ◌%◌, ◌^◌, ◌<◌, ◌++◌, IsTrue, min, nat_abs};
ghost use Rattle.std.specs.Int.{w32, w64, to_le_bytes};
ghost use Rattle.key_names.specs.Kernel.InputTimer.{binary_digits, input_number, input_timer_after, timer_bits, timer_start};

use std::marker::Model;

/// The most bits that an event credits.
const MAX_BITS: u32 = 11;

/// The value of the last input event (`last_value`), and the timer of input events (the kernel's `struct
/// timer_rand_state`). The timer holds the last moment in milliseconds, the last difference of two moments, and the
/// last difference of two such differences.
///
/// In contracts these are the value and the timer of `key_names`.
#[derive(Drop)]
pub struct InputTimer {
    last_value: u8,
    last_time: u64,
    last_delta: i64,
    last_delta2: i64,
}

impl Model for InputTimer {
    ghost use Rattle.sample_credit.specs.LastInput.{LastInput, IsNear};

    ghost Value = { LastInput };

    ghost view = { λ t. record {
      value = t.last_value;
      timer = record { last_time = t.last_time; last_delta = t.last_delta; last_delta2 = t.last_delta2 };
    } };

    ghost invariant = { λ t. IsNear t.last_time t.last_delta t.last_delta2 };
}

impl InputTimer {
    /// The timer at the start of the system: value, moment and differences are 0.
    pub fn start() -> InputTimer
        ensures { result ≡ record { value = 0; timer = timer_start } }
    {
        InputTimer {
            last_value: 0,
            last_time: 0,
            last_delta: 0,
            last_delta2: 0,
        }
    }

    /// Returns whether the value differs from the value of the last event, and stores the value. An event with the same
    /// value is no sample (`add_input_randomness`).
    pub fn fresh(&mut self, value: u8) -> bool
        ensures fresh { IsTrue result ↔ (value ≢ self.old.value) }
        ensures kept { self.new ≡ record self.old { value = value } }
    {
        let fresh = value != self.last_value;
        self.last_value = value;
        fresh
    }

    /// Returns the bits, 0 to 11, that an event at the moment `now` credits, and stores the moment and the differences
    /// (`add_timer_randomness`). The timer takes the least absolute value of the first, second and third difference of
    /// moments, halves it, and cuts it to 32 bits. The bits are the number of binary digits of the result (the kernel's
    /// `fls`), at most 11. `now` is in milliseconds and below 2^40. It may be earlier than the last moment.
    pub fn bits(&mut self, now: u64) -> u32
        requires { now < 2 ^ 40 }
        ensures bits { result ≡ timer_bits self.old.timer now }
        ensures kept { self.new ≡ record self.old { timer = input_timer_after self.old.timer now } }
    {
        let delta = now as i64 - self.last_time as i64;
        let delta2 = delta - self.last_delta;
        let delta3 = delta2 - self.last_delta2;
        self.last_time = now;
        self.last_delta = delta;
        self.last_delta2 = delta2;
        bits_of(delta, delta2, delta3)
    }
}

// The bits that an event credits, given the first, second and third difference of moments.
fn bits_of(delta: i64, delta2: i64, delta3: i64) -> u32
    ensures { let least = min (nat_abs delta) (min (nat_abs delta2) (nat_abs delta3)) in
        result ≡ min (binary_digits (least / 2 % 2 ^ 32)) MAX_BITS }
{
    let least = delta
        .unsigned_abs()
        .min(delta2.unsigned_abs().min(delta3.unsigned_abs()));
    fls((least / 2 % (1 << 32)) as u32).min(MAX_BITS)
}

// The number of binary digits, 0 for 0 (`fls`).
fn fls(x: u32) -> u32
    ensures { result ≡ binary_digits x }
{
    u32::BITS - x.leading_zeros()
}

/// The number that an input event of this kind, code and value mixes in, below 2^20 (`add_input_randomness`).
pub fn input_number(kind: u16, code: u16, value: u8) -> u32
    ensures { result ≡ input_number kind code value }
{
    let code = u32::from(code);
    (u32::from(kind) << 4) ^ code ^ (code >> 4) ^ u32::from(value)
}

/// The 12 bytes that an input event mixes in: a word, which is the cycle counter in the kernel, and the event's number,
/// each low byte first.
pub fn input_sample(word: u64, kind: u16, code: u16, value: u8) -> [u8; 12]
    ensures { result ≡ to_le_bytes w64 word ++ to_le_bytes w32 (input_number kind code value) }
{
    let mut bytes = [0; 12];
    bytes[..8].copy_from_slice(&word.to_le_bytes());
    bytes[8..].copy_from_slice(&input_number(kind, code, value).to_le_bytes());
    bytes
}
