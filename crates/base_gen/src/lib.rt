//! The base key, from which each CPU's key is made. Besides the key, the base has the phase of the core, the generation
//! and the reseed timer, as in the kernel. It also has the number of running callers. The base is `base_crng` of
//! drivers/char/random.c, with `crng_reseed`, `crng_reseed_interval`, and the base's part of `crng_make_state`.
//!
//! Each call changes the base like one entry of the base's list. If `root` is the root that the entry `e` names, the
//! base `b` after `e` is `after_entry e root b` (`specs/BaseValue.antt`). There is one exception: [`Base::fill_empty`]
//! and the [`Base::draw`] after it are together one entry, a draw with a root. The crate uses `chacha_blocks` for
//! erasures and bytes. The lanes check whether an entry may follow those before it.
//!
//! # Example
//!
//! ```rust
//! let mut base = Base::start();
//! let mut out = [1; 32];
//! let rest = base.draw(&mut out);
//! assert_eq!(rt; Some(&out[..]), zero_stream(32, 64));
//! assert_eq!(rt; rest.key, [0; 32]);
//! assert_eq!(rt; rest.next_block, 1);
//! ```
//!
//! From `crates/test_core/src/base_gen_tests.rt`.
//!
//! # Proved
//!
//! - [`Base::install_early`], [`Base::install`] and [`Base::fire`]: each changes the base like the entry that installs
//!   this root. The generation, the phase and the timer become those of the definition.
//! - [`Base::draw`] and [`Base::call_key`]: bytes 0 to 32 of the key's own keystream replace the key. The bytes that
//!   are handed out begin at byte 32 of this keystream.
//! - [`Base::due`]: the result is whether the timer is set, and due at this moment.
//! - [`Base::up`] and [`Base::down`]: the count of running callers goes up or down by one, and stays between 0 and
//!   `u32::MAX`.
//!
//! # Tested only
//!
//! Nothing beyond what is proved. The rows `reseed` and `due` of `test_vectors` have the answers of another
//! implementation.
//!
//! # Differs from the kernel
//!
//! - The kernel does not count running callers. Here the count lets a waiting read give up.
//! - The timer never runs on its own: a caller asks [`Base::due`], and calls [`Base::fire`]. In the kernel it is
//!   delayed work.
#![tactic(auto)]

pub mod base;
pub mod phase;

pub use base::Base;
pub use phase::Phase;
