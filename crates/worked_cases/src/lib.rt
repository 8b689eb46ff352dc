//! Worked cases of scripts and transcripts, each as the contract of a function without code. The prover evaluates the
//! definitions on each case, and uses lemmas of `transcript_text`. No code of the program runs.
//!
//! Every transcript was made by an implementation that shares nothing with this repository. In all but three of them,
//! the bytes are those that the kernel's own C code makes (drivers/char/random.c, lib/vdso/getrandom.c).
//!
//! # Example
//!
//! ```rust
//! pub fn dumps()
//!     ensures by_time { map (makes_due fast_start) (1000 ∷ 1001 ∷ []) ≡ false ∷ true ∷ [] }
//!     ensures by_count { makes_due (fast_after (replicate 1023 (Irq 1 2 0))) 0 ≡ true }
//!     ensures bits { dump_bits (fast_after (replicate 1024 (Irq 1 2 0))) ≡ 16 }
//!     ensures after_online { dump_bits (fast_after (replicate 1024 (Irq 1 2 0) ++ Online ∷ [])) ≡ 1 }
//! {}
//! ```
//!
//! From `crates/worked_cases/src/rules.rt`.
//!
//! # Proved
//!
//! - [`readiness`], [`generators`], [`sample_events`], [`many_callers`], [`vreads`] and [`vread_acts`]: each contract
//!   states that a transcript is lawful for its script, down to every byte. It also states, for each near miss, which
//!   clause is the first that fails.
//! - [`unfit_steps`]: for each transcript, the clause on forms is the first that fails.
//! - [`refusal::near_misses_are_refused`]: if a clause is the first that fails for a transcript, the transcript is not
//!   lawful for its script.
//! - [`refused_books`]: books and lists that the definitions refuse.
//! - [`rules`]: the kernel's small rules on example numbers.
//! - [`script_faults`]: the first faults of some scripts.
//!
//! # Tested only
//!
//! `.ci/check_checks` gives each case and each near miss to the program, and compares its verdict with the theorem.
#![tactic(auto)]

pub mod generators;
pub mod many_callers;
pub mod readiness;
pub mod refusal;
pub mod refused_books;
pub mod rules;
pub mod sample_events;
pub mod script_faults;
pub mod unfit_steps;
pub mod vread_acts;
pub mod vreads;
