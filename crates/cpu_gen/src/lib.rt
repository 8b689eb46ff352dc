//! One CPU's generator: a key that came from the base key, and the base's generation at that moment. It is `struct
//! crng` of drivers/char/random.c, with the CPU's part of `crng_make_state`.
//!
//! A key of an old generation is not refused here: the reader checks the generation first. The crate uses
//! `chacha_blocks` for erasures and bytes.
//!
//! # Example
//!
//! ```rust
//! let mut cpu = zero_cpu();
//! let mut out = [1; 32];
//! let rest = cpu.front(&mut out);
//! assert_eq!(rt; Some(&out[..]), zero_stream(32, 64));
//! assert_eq!(rt; rest.key, [0; 32]);
//! assert_eq!(rt; rest.next_block, 1);
//! assert!(rt; cpu.call_key().starts_with(NEXT_CALL_KEY));
//! ```
//!
//! From `crates/test_core/src/cpu_gen_tests.rt`.
//!
//! # Proved
//!
//! - [`Cpu::refill`]: the CPU has the key and the generation that it was given. [`Cpu::prepare`]: it has generation 0,
//!   and its key stays.
//! - [`Cpu::front`] and [`Cpu::call_key`]: bytes 0 to 32 of the key's own keystream replace the key. The bytes that are
//!   handed out begin at byte 32 of this keystream.
//! - [`Cpu::kernel_read`]: the bytes are those of a kernel read with this key. The key is erased unless the buffer is
//!   empty.
//!
//! # Tested only
//!
//! Nothing beyond what is proved. `cpu_gen_tests` of `test_core` compares bytes with another implementation's.
//!
//! # Differs from the kernel
//!
//! A CPU that has no key, or was prepared, has generation 0. In the kernel it has the greatest generation, `ULONG_MAX`.
#![tactic(auto)]

pub mod cpu;

pub use cpu::Cpu;
