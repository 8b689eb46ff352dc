//! Infers the entries of a transcript's visits from its steps, and replays the lists of the lanes from these entries.
//! From the lists it makes each line's answer and data again. The crate `judge_vread` follows the reads of vgetrandom
//! states.
//!
//! [`gather::gather`] makes a row for each mark: the entry of the visit, inferred from the steps around it and from its
//! caller's setting (`judge_lines`). An inferred entry leaves four things open: which threshold a credit crossed,
//! whether a waiting caller went on, whether an integer filled its batch, and what a dump mixed. [`replay_lists`]
//! completes the entries in this order: the CPUs' fast pools, the pool, the base, the CPUs. It replays each list with
//! the parts that the core also uses, such as the input pool. For each visit it keeps the data from which the answer
//! and bytes of the visit's line are made. [`calls::caller_said`] goes through the calls of one caller, with its
//! sixteen vgetrandom states, and makes the answer of each line and a recipe for the bytes. The argument `how`
//! ([`said::Note`]) determines what is noted of an answer and its recipe.
//!
//! # Example
//!
//! ```rust
//! let inferred = dumped(rt.alloc(), dumps, place)?;
//! let kept = replay_lists(rt.alloc(), &inferred)?;
//! assert_eq!(rt; kept.is_some(), lawful, "{dumps} {place}");
//! if let Some(kept) = kept {
//!     for (pool, before) in kept.pool.iter().zip([0, 1]) {
//!         assert_eq!(rt; pool.before, before);
//!     }
//! }
//! ```
//!
//! From `crates/test_texts/src/judge_log_tests.rt`.
//!
//! # Proved
//!
//! - [`gather::gather`]: lists match its tables exactly if each line's visits have the entries that are inferred from
//!   the line's own steps. The dumps of the tables are lawful exactly if the samples of interrupts are.
//! - [`replay_lists`]: the data kept about the lists that match, or `None` exactly if no lawful lists match the tables.
//!   `specs/Fills` defines the lists that match, `specs/Lawful` the lawful ones, and `specs/Kept` the data.
//! - [`calls::caller_said`]: the notes of each line. `None` exactly if some line's steps match no form of its call.
//!
//! # Tested only
//!
//! Nothing beyond what is proved. `judge_log_tests` of `test_texts` compares keys with those of another implementation.
#![tactic(auto)]

mod base_list;
pub mod calls;
mod cpu_list;
mod events;
pub mod gather;
pub mod inferred;
pub mod kept;
mod last_fills;
mod met;
mod names;
mod notes;
mod pool_list;
pub mod said;
mod samples;
mod states;
mod vreads;
mod walk;

ghost use Rattle.std.specs.Prelude.{◌≡◌, IfOk, IfSome, MatchOption};
ghost use Rattle.key_names.specs.Lanes.Book.{Lists as BookLists};
ghost use Rattle.judge_log.specs.Fills.{Fills};
ghost use Rattle.judge_log.specs.Kept.{Keeps};
ghost use Rattle.judge_log.specs.Lawful.{Lawful};
ghost use Rattle.judge_log.specs.Tables.{InRange, tables_of};

use base_list::replay_base;
use cpu_list::replay_cpus;
pub use inferred::{InferredCpu, InferredEntries, InferredPool};
pub use kept::{BytesSource, KeptBase, KeptCpu, KeptPool, KeptRoot, Lists};
pub use names::{base_refill_of, root_of};
use names::{extractions_answered, refills_answered};
use pool_list::replay_pool;
use samples::all_dumps;
use std::alloc::{AllocError, Global};

/// Replays the lists that match the inferred entries, and returns the data kept about their visits. `None` if no lawful
/// lists match.
///
/// # Errors
///
/// `AllocError` if there is no memory for the data.
pub fn replay_lists(alloc: Global, inferred: &InferredEntries) -> Result<Option<Lists>, AllocError>
    requires { InRange (tables_of inferred.now) }
    ensures some { IfOk result (λ o. IfSome o (λ kept. (lists : BookLists) × Fills (tables_of inferred.now) lists
        × Lawful (tables_of inferred.now) lists × Keeps kept lists)) }
    ensures only { IfOk result (λ o. (lists : BookLists) → Fills (tables_of inferred.now) lists
        → Lawful (tables_of inferred.now) lists → MatchOption o ⊥ (λ kept. Keeps kept lists)) }
{
    let Some(dumps) = all_dumps(alloc, inferred)? else {
        return Ok(None);
    };
    let Some(pool) = replay_pool(alloc, inferred, &dumps)? else {
        return Ok(None);
    };
    let Some(base) = replay_base(alloc, inferred, &pool)? else {
        return Ok(None);
    };
    let Some(cpus) = replay_cpus(alloc, inferred, &base)? else {
        return Ok(None);
    };
    if extractions_answered(&pool, &base) && refills_answered(&base, &cpus) {
        Ok(Some(Lists { pool, base, cpus }))
    } else {
        Ok(None)
    }
}
