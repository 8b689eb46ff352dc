//! Loops to measure: the scripts in `bench/`, which are run by hand, measure them. `rt run` in the crate's folder
//! proves the crate, and builds and runs `out/bench`. Without arguments each loop runs a few times.
//! `out/bench WORD NUMBER` runs one loop NUMBER times, and one line shows the last result:
//!
//! - `keystream` and `plain` write NUMBER bytes of a key's stream, and `hash` hashes NUMBER bytes.
//! - `bulk` hashes NUMBER samples of 64 bytes, `updated` hashes them one by one, and `mixed` mixes them into an input
//!   pool.
//! - `interrupts` mixes NUMBER interrupts into a fast pool.
//! - `visits` makes NUMBER visits of a lane, and `locks` locks a `Mutex` NUMBER times.
//! - `reads` makes NUMBER writes of three bytes, each followed by a read of 4,096 bytes, and `shown` also turns the
//!   bytes into hexadecimal.
//! - `bare-LEN`, `fill-LEN`, `kernel-LEN` and `user-LEN` make NUMBER reads of LEN bytes.
//! - `script` and `transcript` read the text on standard input NUMBER times; `script_lines` and `transcript_lines` go
//!   over this text with a plain loop.
//! - `runs` reads the script on standard input once and runs it NUMBER times, without the text of a transcript.
//! - `threads` starts and joins a thread NUMBER times.
//! - `feeds` hands in NUMBER samples of each of 16 feeders through the queue, each feeder in a thread. `irqs` lets one
//!   caller make the same interrupts, without a queue.
//!
//! # Example
//!
//! ```rust
//! let mut bytes = vec![in alloc; 0; len as usize]?;
//! fill(&KEY, 0, &mut bytes);
//! Ok(end_of(&bytes))
//! ```
//!
//! From `crates/bench/src/parts.rt`.
//!
//! # Proved
//!
//! Only that the loops do not abort.
//!
//! # Tested only
//!
//! The result of each loop, which the file `stdout` contains.
#![tactic(auto)]

mod callers;
mod feeders;
mod lanes;
mod parts;
mod reads;
mod texts;

use crate::callers::{SHORT_RUN, runs, threads};
use crate::feeders::{feeds, irqs};
use crate::lanes::{locks, visits};
use crate::parts::{bulk, hashed, interrupts, keystream, mixed, plain, reads, shown, updated};
use crate::reads::{made_of, many};
use crate::texts::{Lines, SCRIPT, TRANSCRIPT, plain_lines, script, transcript};
use anyhow::{Result, bail};
use std::alloc::Global;
use std::env;
use std::io::Read;
use std::sync::Wait;
use std::thread::Threads;

const SMALL: u32 = 4096;

const FEW: u32 = 3;

const HUNDREDS: u32 = 300;

const HUNDRED: u32 = 100;

// The result of a loop over one part or lane.
fn result_of<R: Wait>(rt: &R, alloc: Global, word: &str, size: u32) -> Result<u64> {
    Ok(match word {
        "keystream" => keystream(alloc, size)?,
        "plain" => plain(alloc, size)?,
        "hash" => hashed(alloc, size)?,
        "bulk" => bulk(size),
        "updated" => updated(size),
        "mixed" => mixed(size),
        "interrupts" => interrupts(size),
        "reads" => reads(size),
        "shown" => shown(size),
        "visits" => visits(rt, alloc, size)?,
        "locks" => locks(rt, size),
        _ => match made_of(word) {
            Some((maker, len)) => many(alloc, maker, len, size)?,
            None => bail!("no loop is named {word:?}"),
        },
    })
}

// The result of a loop with threads, or `None` if the word names no such loop.
fn thread_result_of<R: Threads + Wait + Sync>(
    rt: &R,
    alloc: Global,
    word: &str,
    text: &[u8],
    number: u32,
) -> Result<Option<u64>> {
    Ok(Some(match word {
        "runs" => runs(rt, alloc, text, number)?,
        "threads" => threads(rt, number),
        "feeds" => feeds(rt, alloc, number)?,
        "irqs" => irqs(rt, alloc, number)?,
        _ => return Ok(None),
    }))
}

// The result of a loop over a text, or `None` if the word names no such loop.
fn text_result_of(alloc: Global, word: &str, text: &[u8], times: u32) -> Result<Option<u64>> {
    Ok(Some(match word {
        "script" => script(alloc, text, times)?,
        "script_lines" => plain_lines(alloc, Lines::Script, text, times)?,
        "transcript" => transcript(alloc, text, times)?,
        "transcript_lines" => plain_lines(alloc, Lines::Transcript, text, times)?,
        _ => return Ok(None),
    }))
}

// Runs each loop a few times.
fn each_loop<R: Threads + Wait + Sync + Print>(rt: &R, alloc: Global) -> Result<()> {
    for (word, size) in [
        ("keystream", SMALL),
        ("plain", SMALL),
        ("hash", SMALL),
        ("bulk", HUNDREDS),
        ("updated", HUNDREDS),
        ("mixed", HUNDREDS),
        ("interrupts", SMALL),
        ("reads", FEW),
        ("shown", FEW),
        ("bare-100", FEW),
        ("fill-100", FEW),
        ("kernel-100", FEW),
        ("user-100", FEW),
        ("visits", SMALL),
        ("locks", SMALL),
    ] {
        let result = result_of(rt, alloc, word, size)?;
        println!(rt; "{word} {size} {result:016x}")?;
    }
    for (word, text) in [
        ("script", SCRIPT),
        ("script_lines", SCRIPT),
        ("transcript", TRANSCRIPT),
        ("transcript_lines", TRANSCRIPT),
    ] {
        if let Some(result) = text_result_of(alloc, word, text, FEW)? {
            println!(rt; "{word} {FEW} {result:016x}")?;
        }
    }
    for (word, number) in [
        ("runs", FEW),
        ("threads", FEW),
        ("feeds", HUNDRED),
        ("irqs", HUNDRED),
    ] {
        if let Some(result) = thread_result_of(rt, alloc, word, SHORT_RUN, number)? {
            println!(rt; "{word} {number} {result:016x}")?;
        }
    }
    Ok(())
}

fn main(rt: HostRuntime) -> Result<()> {
    let alloc = rt.alloc();
    let mut words = env::args(&rt)?.skip(1);
    let (Some(word), Some(size)) = (words.next(), words.next()) else {
        return each_loop(&rt, alloc);
    };
    let word = word.as_str();
    let size = size.as_str().parse::<u32>()?;
    let mut text = Vec::new(alloc);
    if word == "runs" || word.starts_with("script") || word.starts_with("transcript") {
        rt.stdin().read_to_end(&mut text)?;
    }
    let result = match text_result_of(alloc, word, &text, size)? {
        Some(result) => result,
        None => match thread_result_of(&rt, alloc, word, &text, size)? {
            Some(result) => result,
            None => result_of(&rt, alloc, word, size)?,
        },
    };
    println!(rt; "{word} {size} {result:016x}")?;
    Ok(())
}
