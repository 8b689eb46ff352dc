//! The names of keys, the entries of the lanes, events, words and answers, and the definitions that the contracts of
//! all other crates use. The definitions follow drivers/char/random.c and lib/vdso/getrandom.c of Linux 6.11, RFC 7693
//! and RFC 8439; docs/DEFINITIONS.md has a paragraph for each.
//!
//! It uses no other crate of the repository. A keystream is, by definition, the one that the specification of
//! `rand_chacha` gives. BLAKE2s is defined here.
//!
//! # Example
//!
//! The definition that no byte of a key is used twice:
//!
//! ```text
//! -- byte q of the key's keystream is in one of the uses
//! abbrev pub IsUsed : List Use → KeyName → ℕ → Type 0
//! IsUsed [] key q = ⊥
//! IsUsed (u ∷ us) key q = HoldsByte u.span key q ⊎ IsUsed us key q
//!
//! -- no byte of a key is in two uses of the list
//! abbrev pub Disjoint : List Use → Type 0
//! Disjoint [] = ⊤
//! Disjoint (u ∷ us) = ((key : KeyName) (q : ℕ) → HoldsByte u.span key q → IsUsed us key q → ⊥) × Disjoint us
//!
//! abbrev pub IsDisjoint : Lists → Type 0
//! IsDisjoint lists = Disjoint (uses lists)
//! ```
//!
//! From `crates/key_names/specs/Keys/Uses.antt`.
//!
//! # Proved
//!
//! - The functions of this crate read and write its types, each by its definition.
//! - [`laws::lawful_is_disjoint`]: in a lawful book no byte of a key is used twice.
//! - [`laws::lawful_is_erased`]: in a lawful book no replaced key is still held.
//! - [`laws::transcript_is_lawful`]: the book of a lawful transcript is lawful.
//! - [`laws::transcript_book_is_unique`]: the steps of a transcript make at most one book.
//! - [`laws::transcript_prints_named`]: a lawful transcript of a well-formed script prints bytes of named spans, and
//!   none of them twice.
//!
//! # Tested only
//!
//! The definitions describe what Linux does: tested with recorded boots (`.ci/boot_checks`, docs/RECORDING.md) and with
//! the rows of `test_vectors`.
//!
//! # Differs from the kernel
//!
//! The paragraphs *Choices* of docs/DEFINITIONS.md and the last tables of docs/TRUST.md list the differences.
#![tactic(auto)]

pub mod entries;
pub mod errno;
pub mod events;
pub mod faults;
pub mod flags;
pub mod hardware;
pub mod hexes;
pub mod laws;
pub mod lines;
pub mod names;
pub mod notes;
pub mod point;
pub mod text;
pub mod trace;

pub use entries::{BaseEntry, CpuEntry, PoolEntry, Taken, VEntry};
pub use errno::Errno;
pub use events::{Answer, Event, InsideAct, Word};
pub use faults::{FaultKind, ScriptFault};
pub use hardware::HardwareWords;
pub use lines::{Data, Line};
pub use names::{KeyName, LaneId, Mark, Span, Step, Who};
pub use notes::PoolNote;
pub use point::Point;
pub use text::Text;
pub use trace::Trace;
