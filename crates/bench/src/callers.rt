//! Callers in threads: whole runs of a script, and threads that do almost no work.
use anyhow::{Result, bail};
use caller_run::run_on_new_table;
use event_script::Script;
use io_edges::OpenGate;
use std::alloc::Global;
use std::sync::{Mutex, Wait};
use std::thread;
use std::thread::Threads;
use transcript_text::Transcript;

/// A script of two callers, for runs of the program without arguments.
pub const SHORT_RUN: &[u8] =
    b"rngscript 1\ncpus 2\ncaller 0\ncredit 256\nfork 1\nkread 32\ncaller 1\non 1\nkread 32\nend\n";

fn read_script(alloc: Global, text: &[u8]) -> Result<Script> {
    match event_script::read(alloc, text) {
        Ok(script) => Ok(script),
        Err(_) => bail!("no script"),
    }
}

fn line_count(transcript: &Transcript) -> u64 {
    let mut count: u64 = 0;
    for caller in 0..transcript.callers() {
        count = count.wrapping_add(transcript.caller(caller).lines().len() as u64);
    }
    count
}

/// Runs the script in `text` `times` times, each time on a new table. Returns the number of lines of the last run.
pub fn runs<R: Threads + Wait + Sync>(
    rt: &R,
    alloc: Global,
    text: &[u8],
    times: u32,
) -> Result<u64> {
    let script = read_script(alloc, text)?;
    let mut count = 0;
    for _ in 0..times {
        count = line_count(&run_on_new_table(rt, alloc, &script, &OpenGate)?);
    }
    Ok(count)
}

fn add_one<R: Wait>(rt: &R, number: &Mutex<u64>) {
    let mut guard = number.lock(rt);
    *guard = guard.wrapping_add(1);
}

/// Starts `count` threads, each of which adds one to a number, and returns the number. Each thread has its own scope,
/// and is joined before the next one starts.
pub fn threads<R: Threads + Wait + Sync>(rt: &R, count: u32) -> u64 {
    let number = Mutex::new(0u64);
    let shared = &number;
    for _ in 0..count {
        thread::scope(thread::scope_env(), rt, |scope| {
            match scope.spawn(move || add_one(rt, shared)) {
                Ok(handle) => handle.join(rt),
                Err(_) => add_one(rt, shared),
            }
        });
    }
    number.into_inner()
}
