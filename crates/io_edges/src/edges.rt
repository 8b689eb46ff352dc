//! The traits for input and output: what each source and each sink promises.
ghost use Rattle.std.specs.Prelude.{◌≡◌, ◌<◌, [], ℕ, List, Option, length, take, IfOk, OnOk, OnErr};
ghost use Rattle.std.specs.Io.{ReadsAtMost, WritesAtMost};
ghost use Rattle.std.specs.Io.KnownBytes.{Keeps, Appends, Consumes, IsAtEnd};
ghost use Rattle.io_edges.specs.Faults.{Rose};

/// A source or a sink failed in this call, and counted the failure.
#[derive(Clone, Copy, Debug, PartialEq, Eq)]
pub struct Failed;

/// A source gives the bytes of an input.
pub trait Source {
    /// The bytes that are left, or `None` if the source does not expose them.
    ghost left: { Self → Option (List ℕ) };

    /// How often the source has failed. The count rises only with a failure, and stops at `u64::MAX`.
    ghost faults: { Self → ℕ };

    /// Takes bytes from the front of the input into the front of `buf`, and returns how many. The other bytes of `buf`
    /// are unspecified; after a failure all bytes of `buf` are. A result of 0 for a buffer that is not empty means that
    /// the input is at its end.
    ///
    /// # Errors
    ///
    /// `Failed` if the count of faults rose in this call, or was at `u64::MAX` already. The call took no bytes.
    fn take(&mut self, buf: &mut [u8]) -> Result<usize, Failed>
        ensures bound { ReadsAtMost result buf.new }
        ensures taken { IfOk result (λ n. Consumes (left self.old) (left self.new) (take n buf.new)) }
        ensures end { IfOk result (λ n. n ≡ 0 → 0 < length buf.old → IsAtEnd (left self.new)) }
        ensures not_taken { OnErr result (Keeps (left self.old) (left self.new)) }
        ensures not_counted { OnOk result (faults self.new ≡ faults self.old) }
        ensures cause { OnErr result (Rose (faults self.old) (faults self.new)) };
}

/// A sink takes the bytes of an output. It may buffer bytes until it is flushed.
pub trait Sink {
    /// The bytes that the sink holds, or `None` if it does not expose them.
    ghost held: { Self → Option (List ℕ) };

    /// The bytes that the sink buffers, as each sink defines them: no clause here connects them with `held`.
    ghost kept_back: { Self → List ℕ };

    /// How often the sink has failed. The count rises only with a failure, and stops at `u64::MAX`.
    ghost faults: { Self → ℕ };

    /// Appends bytes from the front of `piece`, and returns how many: at least one if the piece is not empty.
    ///
    /// # Errors
    ///
    /// `Failed` if the count of faults rose in this call, or was at `u64::MAX` already. The call appended no bytes.
    fn put(&mut self, piece: &[u8]) -> Result<usize, Failed>
        ensures bound { WritesAtMost result piece.now }
        ensures some { IfOk result (λ n. 0 < length piece.now → 0 < n) }
        ensures appended { IfOk result (λ n. Appends (held self.old) (held self.new) (take n piece.now)) }
        ensures not_appended { OnErr result (Keeps (held self.old) (held self.new)) }
        ensures not_counted { OnOk result (faults self.new ≡ faults self.old) }
        ensures cause { OnErr result (Rose (faults self.old) (faults self.new)) };

    /// Hands on all buffered bytes, as at the end of the output.
    ///
    /// # Errors
    ///
    /// `Failed` if the count of faults rose in this call, or was at `u64::MAX` already. Any part of the buffered
    /// bytes may have been handed on. The sink loses no byte that it holds.
    fn flush(&mut self) -> Result<(), Failed>
        ensures handed_on { OnOk result (kept_back self.new ≡ []) }
        ensures kept { Keeps (held self.old) (held self.new) }
        ensures not_counted { OnOk result (faults self.new ≡ faults self.old) }
        ensures cause { OnErr result (Rose (faults self.old) (faults self.new)) };
}
