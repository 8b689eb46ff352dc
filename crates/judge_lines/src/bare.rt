//! A line of a transcript without its answer and data: the part that a replay reads.
ghost use Rattle.std.specs.Prelude.{◌≤◌, length};

use key_names::{Step, Word};

/// A line without its answer and data.
#[derive(Clone, Copy)]
pub struct BareLine<'a> {
    pub caller: u32,
    pub event: u32,
    pub word: Word,
    pub steps: &'a [Step],
    pub ghost few_steps: { length steps.now ≤ 20 },
}
