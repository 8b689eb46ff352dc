//! Makes the answers and bytes of a transcript's reads again. The crate makes recipes for the bytes of reads, and
//! recognizes system calls by their seen steps. It follows `vread`s over the steps of their lines, on the caller's own
//! vgetrandom state.
//!
//! Each function that follows a line has the same cases as a function of `specs/`. The crate uses the forms of
//! `judge_lines` and the state of `vdso_state`. Code that uses the crate must check that the lanes have a line's visits
//! at their places, and that the line's entries are the inferred ones.
//!
//! # Example
//!
//! ```rust
//! let mut st = VState::keyed([0; 32], 2);
//! let seen = [SeenStep::Ready(1), SeenStep::Ready(1), SeenStep::Ready(1)];
//! let mut inside = Inside::none();
//! inside.add(Point::Written, InsideAct::Wipe);
//! let path = checked(follow(&mut st, 32, 0, inside, &seen))?;
//! assert_eq!(rt; path.answer, Answer::Ok);
//! assert_eq!(rt; path.reached, Reached::AllButWritten);
//! assert!(rt; path.served.is(&ZERO_KEY_AT_0));
//! assert_eq!(rt; st.left(), 64);
//! ```
//!
//! From `crates/test_texts/src/judge_vread_tests.rt`.
//!
//! # Proved
//!
//! - [`follow::follow`]: the result, and the state after the call, are those that `followed` of `specs/Path` defines.
//! - [`system_call::system_call`]: the answer and the bytes of a system call, or `None` if the steps are not those of
//!   such a call.
//! - [`served::Served::put`] appends the bytes of a recipe.
//! - [`laws`]: if the entries fit and are the inferred ones, a line can be followed exactly if its steps are a `vread`
//!   by the definitions of `key_names` (`specs/Callers/Meaning.antt`).
//!
//! # Tested only
//!
//! Nothing beyond what is proved. `judge_vread_tests` of `test_texts` compares bytes with those of another
//! implementation.
#![tactic(auto)]

pub mod attempt;
pub mod follow;
pub mod inside;
pub mod laws;
pub mod seen;
pub mod served;
pub mod system_call;
