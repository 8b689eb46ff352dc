//! A source and a sink that never fail.
ghost use Rattle.std.specs.Prelude.{◌≡◌, [], length, Some, None, IsOk};

use crate::{Failed, Sink, Source};
use std::marker::Model;

/// A source that never fails. It gives bytes that are in memory. Contracts can refer to the bytes that are left. A
/// program that calls the function `run` of `rng_tool` can pass this source. Then the clauses of `run` exclude a fault.
#[derive(Drop)]
pub struct NoFaultSource {
    bytes: Vec<u8>,
    at: usize,
}

impl Model for NoFaultSource {
    ghost use Rattle.std.specs.Prelude.{List, ℕ, ◌≤◌, length, drop};

    ghost Value = { List ℕ };

    ghost view = { λ s. drop s.at s.bytes.items };

    ghost invariant = { λ s. s.at ≤ length s.bytes.items };
}

impl NoFaultSource {
    /// A source from which all of `bytes` are left to take.
    pub fn of(bytes: Vec<u8>) -> NoFaultSource
        ensures { result ≡ bytes.items }
    {
        NoFaultSource { bytes, at: 0 }
    }
}

impl Source for NoFaultSource {
    ghost left = { λ s. Some s };

    ghost faults = { λ _. 0 };

    #[tactic(auto, using(crate::proofs::Fronts::front_and_rest))]
    fn take(&mut self, buf: &mut [u8]) -> Result<usize, Failed> {
        let rest = &self.bytes[self.at..];
        let count = buf.len().min(rest.len());
        buf[..count].copy_from_slice(&rest[..count]);
        self.at += count;
        Ok(count)
    }
}

/// A sink that takes each piece whole and drops its bytes, for a caller that needs only the status.
#[derive(Clone, Copy, Debug, PartialEq, Eq)]
pub struct NoFaultSink;

impl NoFaultSink {
    /// Makes the sink.
    pub fn of() -> NoFaultSink {
        NoFaultSink
    }
}

impl Sink for NoFaultSink {
    ghost held = { λ _. None };

    ghost kept_back = { λ _. [] };

    ghost faults = { λ _. 0 };

    fn put(&mut self, piece: &[u8]) -> Result<usize, Failed>
        ensures { result ≡ Ok (length piece.now) }
    {
        Ok(piece.len())
    }

    fn flush(&mut self) -> Result<(), Failed>
        ensures { IsOk result }
    {
        Ok(())
    }
}
