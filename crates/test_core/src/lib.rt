//! Tests of the parts, the lanes, the core's calls, draws, forks, runs and feeders: a module for each crate, which uses
//! the crate's public calls. They are a separate crate because a crate with tests is proved twice. `rt try --test` in
//! the crate's folder runs them without proofs.
//!
//! Expected values come from outside: standards and other implementations. Tables of vectors are rows of the program
//! `test_vectors`.
//!
//! # Example
//!
//! ```rust
//! fn first_use_after_credit(rt: HostRuntime) -> Result<(), Fail> {
//!     let (lanes, mut pass) = started(rt.alloc(), 1, 0)?;
//!     let set = setting(0, 0, 0);
//!     let steps = [pool(0, 1), pool(1, 2), base(0, 3)];
//!     assert!(rt; added(&rt, &lanes, &mut pass, &set, &COUNTING, 256, &steps));
//!     let steps = [look(1), look(1), base(1, 4), cpu(0, 0, 5)];
//!     let first = read_of(&rt, &lanes, &mut pass, &set, 0, &steps);
//!     let want = *b"\x30\xc3\xd4\x35\xce\xee\xa9\x38\xaa\x71\x6d\xf2\x67\xe3\x69\x36";
//!     assert_eq!(rt; first, Some(Ok(want)));
//!     let second = read_of(&rt, &lanes, &mut pass, &set, 1, &[look(1)]);
//!     assert_eq!(rt; second, Some(Ok([])));
//!     Ok(())
//! ```
//!
//! From `crates/test_core/src/rng_core_tests.rt`.
//!
//! # Proved
//!
//! Nothing: the tests use the contracts as any caller does.
//!
//! # Tested only
//!
//! The parts, vgetrandom states and forked vgetrandom calls give the expected values. The tests also check facts that
//! no contract states: threads run side by side, a held CPU stops no caller of another CPU, and a CPU is free while a
//! long read goes on.
#![tactic(auto)]

#[cfg(test)]
mod base_gen_tests;
#[cfg(test)]
mod chacha_blocks_tests;
#[cfg(test)]
mod cpu_gen_tests;
#[cfg(test)]
mod draw_below_tests;
#[cfg(test)]
mod fork_runs_tests;
#[cfg(test)]
mod hold_tests;
#[cfg(test)]
mod int_batch_tests;
#[cfg(test)]
mod irq_feed_tests;
#[cfg(test)]
mod lane_table_tests;
#[cfg(test)]
mod passes;
#[cfg(test)]
mod reseeds;
#[cfg(test)]
mod rng_core_tests;
#[cfg(test)]
mod run_tests;
#[cfg(test)]
mod sample_credit_tests;
#[cfg(test)]
mod streams;
#[cfg(test)]
mod vcall_fork_tests;
#[cfg(test)]
mod vdso_state_tests;
