//! A source and a sink in memory that give and take little at a time, and fail at listed calls.
ghost use Rattle.std.specs.Prelude.{◌≡◌, ◌<◌, ◌≤◌, ◌↔◌, ◌++◌, [], false, true, IsTrue, length, take, drop, Some, IfOk, OnOk, OnErr, IsErr};
ghost use Rattle.std.specs.Io.{ReadsAtMost};
ghost use Rattle.std.specs.Io.KnownBytes.{Consumes};
ghost use Rattle.io_edges.specs.Faults.{Rose, next_count};
ghost use Rattle.io_edges.specs.Memory.{is_listed, TakeFails, count_given, after_take, after_failed_take};
ghost use Rattle.io_edges.specs.Memory.{PutFails, count_taken, after_put, after_failed_put, after_failed_flush};

use crate::{Failed, NoMemory, Sink, Source};
use std::alloc::Global;
use std::marker::Model;

// Counts calls and faults, and lists the numbers of the calls that fail. The first call has number 1.
#[derive(Drop)]
struct Calls {
    fails: Vec<u64>,
    calls: u64,
    faults: u64,
}

impl Calls {
    fn of(fails: Vec<u64>) -> Calls
        ensures { result ≡ record { fails = fails; calls = 0; faults = 0 } }
    {
        Calls {
            fails,
            calls: 0,
            faults: 0,
        }
    }

    // Counts a call, and returns whether it fails.
    fn next_fails(&mut self) -> bool
        ensures calls { self.new ≡ record self.old { calls = next_count self.old.calls } }
        ensures answer { result ≡ is_listed (next_count self.old.calls) self.old.fails.items }
    {
        self.calls = self.calls.saturating_add(1);
        self.fails.contains(&self.calls)
    }

    // Counts a fault.
    fn fault(&mut self) -> Failed
        ensures { self.new ≡ record self.old { faults = next_count self.old.faults } }
    {
        self.faults = self.faults.saturating_add(1);
        Failed
    }
}

/// A source of bytes in memory. It gives at most `step` bytes a call.
///
/// Calls are numbered from 1. From call number `u64::MAX` on, all calls have this number. A call fails if and only if
/// its number is listed.
#[derive(Drop)]
pub struct MemSource {
    bytes: Vec<u8>,
    at: usize,
    step: usize,
    calls: Calls,
}

impl Model for MemSource {
    ghost use Rattle.std.specs.Prelude.{◌≤◌, ◌<◌, length, drop};
    ghost use Rattle.io_edges.specs.Memory.{SourceState};

    ghost Value = { SourceState };

    ghost view = { λ s. record {
      left = drop s.at s.bytes.items;
      step = s.step;
      fails = s.calls.fails.items;
      calls = s.calls.calls;
      faults = s.calls.faults;
    } };

    ghost invariant = { λ s. (s.at ≤ length s.bytes.items) × (0 < s.step) };
}

impl MemSource {
    /// A source from which all of `bytes` are left, and which gives at most `step` bytes a call. The calls whose
    /// numbers are in `fails` fail; the first call has number 1.
    pub fn of(bytes: Vec<u8>, step: usize, fails: Vec<u64>) -> MemSource
        requires { 0 < step }
        ensures { result ≡ record { left = bytes.items; step = step; fails = fails.items; calls = 0; faults = 0 } }
    {
        MemSource {
            bytes,
            at: 0,
            step,
            calls: Calls::of(fails),
        }
    }
}

impl Source for MemSource {
    ghost left = { λ s. Some s.left };

    ghost faults = { λ s. s.faults };

    #[tactic(auto, using(crate::proofs::Fronts::front_and_rest))]
    fn take(&mut self, buf: &mut [u8]) -> Result<usize, Failed>
        ensures fails { IsErr result ↔ TakeFails self.old }
        ensures count { IfOk result (λ n. n ≡ count_given self.old (length buf.old)) }
        ensures bytes { IfOk result (λ n. buf.new ≡ take n self.old.left ++ drop n buf.old) }
        ensures went { IfOk result (λ n. self.new ≡ after_take self.old n) }
        ensures failed { OnErr result (self.new ≡ after_failed_take self.old) }

        // The clauses that the trait `Source` requires.
        ensures bound { ReadsAtMost result buf.new }
        ensures taken { IfOk result (λ n. Consumes (Some self.old.left) (Some self.new.left) (take n buf.new)) }
        ensures end { IfOk result (λ n. n ≡ 0 → 0 < length buf.old → self.new.left ≡ []) }
        ensures not_counted { OnOk result (self.new.faults ≡ self.old.faults) }
        ensures cause { OnErr result (Rose self.old.faults self.new.faults) }
    {
        if self.calls.next_fails() {
            return Err(self.calls.fault());
        }
        let rest = &self.bytes[self.at..];
        let count = buf.len().min(self.step.min(rest.len()));
        buf[..count].copy_from_slice(&rest[..count]);
        self.at += count;
        Ok(count)
    }
}

/// A sink in memory that takes at most `step` bytes a put. It buffers no bytes.
///
/// Puts are numbered from 1. From put number `u64::MAX` on, all puts have this number. A put fails if and only if its
/// number is listed, or if it has bytes to put and no room is left. Either all flushes fail or none.
#[derive(Drop)]
pub struct MemSink {
    bytes: Vec<u8>,
    room: usize,
    step: usize,
    calls: Calls,
    flush_fails: bool,
}

impl Model for MemSink {
    ghost use Rattle.std.specs.Prelude.{◌≤◌, ◌<◌, length, vec_capacity};
    ghost use Rattle.io_edges.specs.Memory.{SinkState};

    ghost Value = { SinkState };

    ghost view = { λ s. record {
      held = s.bytes.items;
      step = s.step;
      fails = s.calls.fails.items;
      flush_fails = s.flush_fails;
      room = s.room;
      calls = s.calls.calls;
      faults = s.calls.faults;
    } };

    ghost invariant = { λ s. (length s.bytes.items ≤ s.room) × (s.room ≤ vec_capacity s.bytes) × (0 < s.step) };
}

impl MemSink {
    /// An empty sink with room for `room` bytes, allocated here. Its flushes succeed, and its calls start at number
    /// 1.
    ///
    /// # Errors
    ///
    /// `NoMemory` if there is too little memory for the room.
    pub fn of(alloc: Global, step: usize, fails: Vec<u64>, room: usize) -> Result<MemSink, NoMemory>
        requires { 0 < step }
        ensures { IfOk result (λ s.
            s ≡ record {
              held = [];
              step = step;
              fails = fails.items;
              flush_fails = false;
              room = room;
              calls = 0;
              faults = 0;
            }) }
    {
        Ok(MemSink {
            bytes: Vec::with_capacity(alloc, room)?,
            room,
            step,
            calls: Calls::of(fails),
            flush_fails: false,
        })
    }

    /// The same sink, except that all its flushes fail.
    pub fn failing_at_flush(self) -> MemSink
        ensures { result ≡ record self { flush_fails = true } }
    {
        MemSink {
            flush_fails: true,
            ..self
        }
    }

    /// The bytes that the sink holds, in the order of the puts.
    pub fn held(&self) -> &[u8]
        ensures { result.now ≡ self.now.held }
    {
        &self.bytes
    }
}

impl Sink for MemSink {
    ghost held = { λ s. Some s.held };

    ghost kept_back = { λ _. [] };

    ghost faults = { λ s. s.faults };

    fn put(&mut self, piece: &[u8]) -> Result<usize, Failed>
        ensures fails { IsErr result ↔ PutFails self.old piece.now }
        ensures count { IfOk result (λ n. n ≡ count_taken self.old (length piece.now)) }
        ensures went { IfOk result (λ n. self.new ≡ after_put self.old piece.now n) }
        ensures failed { OnErr result (self.new ≡ after_failed_put self.old) }

        // The clauses that the trait `Sink` requires.
        ensures some { IfOk result (λ n. 0 < length piece.now → 0 < n) }
        ensures cause { OnErr result (Rose self.old.faults self.new.faults) }
    {
        let room = self.room - self.bytes.len();
        if self.calls.next_fails() || (!piece.is_empty() && room == 0) {
            return Err(self.calls.fault());
        }
        let count = piece.len().min(self.step.min(room));
        match self.bytes.extend_from_slice(&piece[..count]) {
            Ok(()) => Ok(count),
            Err(_) => unreachable!(),
        }
    }

    fn flush(&mut self) -> Result<(), Failed>
        ensures fails { IsErr result ↔ IsTrue self.old.flush_fails }
        ensures same { OnOk result (self.new ≡ self.old) }
        ensures failed { OnErr result (self.new ≡ after_failed_flush self.old) }

        // The clauses that the trait `Sink` requires.
        ensures cause { OnErr result (Rose self.old.faults self.new.faults) }
    {
        if self.flush_fails {
            return Err(self.calls.fault());
        }
        Ok(())
    }
}
