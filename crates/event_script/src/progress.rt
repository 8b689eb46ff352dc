//! How far the text of a script was read, for a caller that uses events before the text ends.

ghost use Rattle.std.specs.Prelude.{◌<◌, ◌≤◌};

use key_names::{Event, ScriptFault};

/// The part of a script that was read.
#[derive(Clone, Copy)]
pub struct DraftView<'a> {
    pub version: u32,
    pub cpus: u32,
    /// The number of finished blocks.
    pub blocks: u32,
    /// The events of the last block, which may still grow.
    pub events: &'a [Event],
    /// The number of the next line.
    pub number: u32,
    /// Whether a forked caller has no block yet, so that the script cannot end.
    pub has_orphan: bool,
    ghost some: { 0 < cpus },
    ghost few: { cpus ≤ 256 },
}

/// How far the text of a script was read.
#[derive(Clone, Copy)]
pub enum ScriptProgress<'a> {
    /// The text ends within a line, or before any event may follow, or is so long that the line `end` no longer fits.
    Waits,
    /// Events and blocks may follow, or the line `end`.
    Open(DraftView<'a>),
    /// The line `end` was read, and nothing may follow.
    Ended(DraftView<'a>),
    /// The text has this first fault, whatever follows.
    Faulty(ScriptFault),
}
