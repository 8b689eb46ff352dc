//! The content of a script's first two lines.

ghost use Rattle.std.specs.Prelude.{◌<◌, ◌≤◌};

/// A version, and a number of CPUs.
#[derive(Clone, Copy)]
pub(crate) struct Head {
    pub(crate) version: u32,
    pub(crate) cpus: u32,
    ghost some: { 0 < cpus },
    ghost few: { cpus ≤ 256 },
}
