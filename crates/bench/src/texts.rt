//! Loops that go over a text several times. Each loop returns the count that its last round found.
ghost use Rattle.std.specs.Prelude.{◌<◌, IfSome, length};

use anyhow::{Result, bail};
use event_script::Script;
use memchr::memchr;
use std::alloc::Global;
use transcript_text::Transcript;

/// A script, for runs of the program without arguments.
pub const SCRIPT: &[u8] = b"rngscript 1\ncpus 1\ncaller 0\nwrite 616263\nirq 1 2\nend\n";

/// A transcript, for runs of the program without arguments.
pub const TRANSCRIPT: &[u8] =
    b"rngtranscript 1\n0.0 read ok ~0,p:0@1,b:0@2 616263\n0.1 end ok b:1@3 -\nend\n";

/// The digits of a read of 4,096 bytes.
const READ_DIGITS: usize = 8192;

fn read_script(alloc: Global, text: &[u8]) -> Result<Script> {
    match event_script::read(alloc, text) {
        Ok(script) => Ok(script),
        Err(_) => bail!("no script"),
    }
}

fn read_transcript(alloc: Global, text: &[u8]) -> Result<Transcript> {
    if text.len() > 1 << 31 {
        bail!("no transcript");
    }
    match transcript_text::read(alloc, text) {
        Ok(transcript) => Ok(transcript),
        Err(_) => bail!("no transcript"),
    }
}

/// Reads a script `times` times. Returns its number of callers.
pub fn script(alloc: Global, text: &[u8], times: u32) -> Result<u64> {
    let mut count = 0;
    for _ in 0..times {
        count = u64::from(read_script(alloc, text)?.callers());
    }
    Ok(count)
}

/// Reads a transcript `times` times. Returns its number of callers.
pub fn transcript(alloc: Global, text: &[u8], times: u32) -> Result<u64> {
    let mut count = 0;
    for _ in 0..times {
        count = u64::from(read_transcript(alloc, text)?.callers());
    }
    Ok(count)
}

/// The kind of the lines from which a plain loop decodes bytes.
#[derive(Clone, Copy)]
pub enum Lines {
    /// The lines of writes.
    Script,
    /// The lines of reads of 4,096 bytes.
    Transcript,
}

fn digits_of(lines: Lines, line: &[u8]) -> Option<&[u8]> {
    match lines {
        Lines::Script => line.strip_prefix(b"write "),
        Lines::Transcript if line.len() < READ_DIGITS => None,
        Lines::Transcript => Some(&line[line.len() - READ_DIGITS..]),
    }
}

// The first line of a text, and the text after that line.
fn cut_line(text: &[u8]) -> Option<(&[u8], &[u8])>
    ensures { IfSome result (λ both. length both.1.now < length text.now) }
{
    let end = memchr(b'\n', text)?;
    Some((&text[..end], &text[end + 1..]))
}

fn decoded(alloc: Global, lines: Lines, text: &[u8]) -> Result<u64> {
    let mut count: u64 = 0;
    let mut left = text;
    while let Some((line, rest)) = cut_line(left) {
        if let Some(digits) = digits_of(lines, line) {
            count = count.wrapping_add(hex::decode(alloc, digits)?.len() as u64);
        }
        left = rest;
    }
    Ok(count)
}

/// The number of bytes that the lines of the given kind contain in hexadecimal. The loop looks only for line feeds and
/// for these bytes.
pub fn plain_lines(alloc: Global, lines: Lines, text: &[u8], times: u32) -> Result<u64> {
    let mut count = 0;
    for _ in 0..times {
        count = decoded(alloc, lines, text)?;
    }
    Ok(count)
}
