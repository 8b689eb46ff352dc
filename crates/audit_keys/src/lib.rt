//! The keys of a book: the uses and the holder of each key, and a row for each key. The crate works on the lists of the
//! lanes as `judge_log` keeps them, and on the calls of `judge_lines`.
//!
//! - [`base_uses`], [`cpu_uses`] and [`state_uses`] give the uses of the entries of a lane or of a vgetrandom state.
//!   Each use has the entry that uses the bytes. If the bytes are kept, the use has the key that the bytes become
//!   (`specs/UsedAt.antt`).
//! - [`lists::state_lists`] goes through the calls of every caller and returns the lists of the caller's sixteen
//!   vgetrandom states. It reads no key and no byte: the steps of a `vread` and the [`outline::Outline`] of its state
//!   decide which entries the `vread` leaves. Each entry is listed with the number of the call that left the entry, and
//!   with this call's end ([`entry::CallEnd`]): the call's line, and the stamp when the call was over.
//! - [`listed`] collects the lives and uses of keys. [`lives`] has the births and endings of keys, and the rests of
//!   batches that are given up. [`held`] has the keys and the rests that are held after the last entries. [`cut`] has
//!   the lists up to a stamp. [`rows`] makes a row for each key: the key's holder, the entries that made and erased the
//!   key, and the fates of its bytes. [`moments`] has the stamp and the line of each entry; the crate's user passes
//!   them in.
//!
//! # Example
//!
//! ```rust
//! let entries = all_entries(alloc, &book.states)?;
//! let listed = tell_book(alloc, &book.lanes, &entries)?;
//! let mut rows = make_rows(alloc, listed)?;
//! sort_rows(&mut rows, moments)?;
//! Ok(rows)
//! ```
//!
//! From `crates/key_audit/src/keys.rt`.
//!
//! # Proved
//!
//! - [`use_laws`]: the listed uses are the uses of `key_names` (`specs/Keys/Uses.antt`), each once. The keys and rests
//!   that are held at any stamp of a run were not used before this stamp. Each vgetrandom state is taken between two
//!   calls.
//! - [`lists::state_lists`]: whatever meaning the calls have (`key_names`' `specs/Transcripts/IsTranscript.antt`), the
//!   lists are those of this meaning. Each entry has the end of its call. A call's stamp is that of the last visit
//!   before the end of the call. The caller made this visit, or an ancestor made it before the caller's start. A cut at
//!   a stamp or a call keeps exactly the entries that the first calls leave. If steps are not those of a call, the
//!   entries are unspecified. [`state_laws`] states this for one `vread` and for one caller's calls.
//! - [`line_ends::line_ends`]: each line of a caller is listed with its call and the stamp when the call was over.
//! - [`listed::tell_book`] and [`held_book::hold_book`]: the lives, uses and held keys are listed entry by entry, each
//!   once. By [`row_laws`] the keys and rests listed as held are exactly the live keys and the live rests with bytes. A
//!   CPU's batch must be of a width below 256 bytes; every width in use is.
//! - [`rows::make_rows`] makes a row for each key. [`rows::sort_rows`] sorts rows by when their keys were made.
//!
//! # Tested only
//!
//! Nothing beyond what is proved. `.ci/audit_checks` compares the rows of the program `key_audit` with those of
//! tools/audit_rows.py.
#![tactic(auto)]

pub mod base_uses;
mod batches;
mod caller;
pub mod cpu_uses;
pub mod cut;
pub mod entry;
pub mod held;
pub mod held_book;
mod leaving;
pub mod line_ends;
pub mod listed;
pub mod lists;
pub mod lives;
pub mod moments;
pub mod outline;
mod read_uses;
pub mod row_laws;
pub mod rows;
mod stamps;
pub mod state_laws;
pub mod state_uses;
pub mod use_laws;
pub mod used;
