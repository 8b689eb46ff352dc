//! Answers rows of vectors: of the hash (RFC 7693), of the keystream (RFC 8439), and of the kernel's rules for samples,
//! credits and reseeds (drivers/char/random.c). `rt run` in the crate's folder proves, builds and runs the program. The
//! program's test gives it the file `stdin`, and compares the output with the file `stdout`. Both files have published
//! vectors and vectors of other implementations (`tools/vectors.py`).
//!
//! Each line of standard input is a row: a word and its fields, with white space between. The answer is a line. Bytes
//! are hexadecimal, and `-` means no bytes, no threshold or no dump. Moments are milliseconds, below 2^40. A line that
//! is no row ends the program with an error.
//!
//! - `hash KEY TEXT SIZE`: the BLAKE2s-256 hash of the text under the key. The text is hashed in pieces of SIZE bytes,
//!   or at once if SIZE is 0.
//! - `stream KEY FROM LEN`: LEN bytes of the key's ChaCha20 stream.
//! - `kernel KEY LEN` and `user KEY LEN`: the key after a read of LEN bytes, and the bytes that were read.
//! - `mix TEXT`, `credit BITS` and `extract HARDWARE` are calls of the input pool. The answer to a mix is the pool's
//!   bits. The answer to a credit is the threshold that it crosses, and the pool's bits after the credit. The answer to
//!   an extraction is the root.
//! - `irq WORD WORD MOMENT` mixes an interrupt into the fast pool. If a dump becomes due, it is made, and the answer is
//!   the dump with its bits.
//! - `bits MOMENT`: the bits that an input event at the moment is worth.
//! - `reseed MOMENT` reseeds the base, by the timer if the timer is due; the answer is the generation. The answer to
//!   `due MOMENT` is whether the timer is due.
//!
//! # Example
//!
//! ```rust
//! let mut parts = KernelParts::start();
//! for line in rt.lines(alloc) {
//!     let answered = answer(alloc, &mut parts, line?.as_str())?;
//!     println!(rt; "{answered}")?;
//! }
//! Ok(())
//! ```
//!
//! From `crates/test_vectors/src/main.rt`.
//!
//! # Proved
//!
//! Only that the calls of the crates answer each row, and that no row aborts the program.
//!
//! # Tested only
//!
//! The answers of the rows.
#![tactic(auto)]

mod fields;
mod keys;
mod parts;
mod row;

use crate::parts::KernelParts;
use crate::row::answer;
use anyhow::Result;

fn main(rt: HostRuntime) -> Result<()> {
    let alloc = rt.alloc();
    let mut parts = KernelParts::start();
    for line in rt.lines(alloc) {
        let answered = answer(alloc, &mut parts, line?.as_str())?;
        println!(rt; "{answered}")?;
    }
    Ok(())
}
