//! The collection of samples (the "entropy collection routines" of random.c).
//!
//! Input from devices, users and interrupts is mixed into the input pool, and credited by the rules for its kind of
//! event. A credit that crosses a threshold seeds the base at once, in the same call.
//!
//! Callers may add samples by:
//!
//! - `device`: `add_device_randomness`
//! - `vmfork`: `add_vmfork_randomness`
//! - `irq`: `add_interrupt_randomness`; `interrupts::dump` is `mix_interrupt_randomness`
//! - `input`: `add_input_randomness`, with its `add_timer_randomness`
//! - `mix`: `write_pool_user`
//! - `add`: `random_ioctl` of `RNDADDENTROPY`, or of `RNDADDTOENTCNT` if it adds no bytes
//! - `add_first_sample`: an `add` of fixed bytes to a new core; the kernel has no such function
//!
//! `bits` is `random_ioctl` of `RNDGETENTCNT`.

pub(crate) mod first_sample;
pub(crate) mod interrupts;
pub(crate) mod samples;
