//! Calls of vgetrandom (lib/vdso/getrandom.c) that stop at a point, and a fork during the stop.
//!
//! A process can fork during one of its calls, in a signal handler. Then the call ends twice, once in the parent and
//! once in the child. The child has its own copy of the buffer, and its state is empty, since the kernel maps states so
//! that a fork wipes them (`VM_WIPEONFORK`). [`VCall`] is such a call: it runs to a point, is forked there, and ends in
//! the parent and in the child, over any host of `vdso_state`. `vdso_state` also defines the parts of a call, each from
//! one point to the next.
//!
//! # Example
//!
//! ```rust
//! let mut call = VCall::begin(n, 0);
//! let progress = call.run_to(&mut host, &mut st, &mut buf, attempt, point);
//! assert_eq!(rt; progress, Progress::At);
//! let Stage::At(place) = call.stage else {
//!     return Ok((buf, child_buf));
//! };
//! assert_eq!(rt; (place.turn, place.point), (attempt, point));
//! let floor = published[4];
//! assert!(rt; place.published <= floor);
//! let (child, mut child_st) = call.fork_call(&buf, &mut child_buf);
//! let mut rest = ForkListHost::publishing([floor; 5], host.byte, floor);
//! let ended = call.finish(&mut rest, &mut st, &mut buf);
//! assert_eq!(rt; ended, Ok(VEnd::Batch));
//! ```
//!
//! From `crates/test_core/src/vcall_fork_tests.rt`.
//!
//! # Proved
//!
//! - [`VCall::run_to`] and [`VCall::finish`]: the call stops at the point, or runs to its end. The steps of these
//!   functions together are the steps of one call, as `key_names` defines a call.
//! - [`VCall::fork_call`] leaves the parent's call unchanged, and gives the child a wiped state and a copy of the
//!   buffer.
//! - [`laws::forks_are_recorded`]: the child's call is a call whose state was wiped at the point of the fork.
//! - [`laws::child_takes_key`]: if the child's bytes come out of its state, the attempt that gave them read a new key
//!   after the fork.
//! - [`laws::forks_share_nothing`]: in a lawful book the vgetrandom states of two callers never use the same byte of a
//!   key's keystream.
//!
//! # Tested only
//!
//! Nothing beyond what is proved. `vcall_fork_tests` of `test_core` forks at each of the four points, in each of the
//! two attempts.
//!
//! # Differs from the kernel
//!
//! The wipe is a part of [`VCall::fork_call`]. In the kernel the mapping of the state's memory (`VM_WIPEONFORK`) causes
//! the wipe.
#![tactic(auto)]

pub mod call;
pub mod laws;
pub mod stage;

pub use call::VCall;
pub use stage::{Progress, Stage};
pub use vdso_state::{Place, Point, Turn, VEnd};
