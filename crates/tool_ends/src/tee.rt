//! A source that keeps the first bytes that were taken from it, and a sink that keeps the first bytes of the last piece
//! that was put to it. Both are for the message of a refusal.
ghost use Rattle.std.specs.Prelude.{◌≡◌, ◌<◌, ◌≤◌, ◌++◌, [], ℕ, List, length, take, IfOk, IfSome, IsSome, IsTrue, OnOk, OnErr};
ghost use Rattle.std.specs.Io.{ReadsAtMost, WritesAtMost};
ghost use Rattle.std.specs.Io.KnownBytes.{Keeps, Appends, Consumes, IsAtEnd};
ghost use Rattle.io_edges.specs.Faults.{Rose};
ghost use Rattle.tool_ends.specs.Tees.{HasGiven, HasGot, keeps_all, tee_sink, tee_source};

use arrayvec::ArrayVec;
use io_edges::{Failed, Sink, Source};
use std::alloc::Global;

/// The most bytes of a piece that a tee sink keeps. A line `refused LINE KIND` is shorter.
const MOST_GOT: usize = 32;

/// A source that keeps a copy of the first bytes that were taken from it: at most `most` bytes, or fewer if there is no
/// memory for more.
#[derive(Drop)]
pub struct TeeSource<S: Source + Drop> {
    source: S,
    // The most bytes that may be kept in `front`.
    most: usize,
    front: Vec<u8>,
    // Whether `front` has all bytes that were taken from `source`.
    is_whole: bool,
}

impl<S: Source + Drop> TeeSource<S> {
    /// A tee that takes its bytes from `source`. It has kept no byte yet, and will keep at most `most` bytes.
    pub fn of(alloc: Global, source: S, most: usize) -> TeeSource<S>
        ensures source { tee_source result ≡ source }
        ensures given { HasGiven [] result }
        ensures all { IsTrue (keeps_all result) }
    {
        TeeSource {
            source,
            most,
            front: Vec::new(alloc),
            is_whole: true,
        }
    }

    // Keeps as much of `piece`, which was just taken, as there is room for. Keeps nothing if an earlier byte was not
    // kept.
    fn keep(&mut self, piece: &[u8])
        ensures source { tee_source self.new ≡ tee_source self.old }
        ensures given { (text : List ℕ) → HasGiven text self.old → HasGiven (text ++ piece.now) self.new }
    {
        if !self.is_whole {
            return;
        }
        let room = self.most.saturating_sub(self.front.len());
        let (kept, left) = piece.split_at(piece.len().min(room));
        let Ok(()) = self.front.extend_from_slice(kept) else {
            self.is_whole = false;
            return;
        };
        self.is_whole = left.is_empty();
    }

    /// All bytes that were taken from the source, if all of them were kept.
    pub fn whole(&self) -> Option<&[u8]>
        ensures kept { (text : List ℕ) → HasGiven text self.now → IfSome result (λ kept. kept.now ≡ text) }
        ensures some { IsTrue (keeps_all self.now) → IsSome result }
    {
        if self.is_whole {
            Some(&self.front)
        } else {
            None
        }
    }

    /// The line with this number, counted from 1, of the text that was taken, if the whole line was kept (tested).
    pub fn line(&self, number: u32) -> Option<&[u8]> {
        let before = (number as usize).checked_sub(1)?;
        let mut lines = self.front.split(|byte| *byte == b'\n');
        let line = lines.nth(before)?;
        // If not all bytes were kept, the last line in `front` may be incomplete.
        if self.is_whole || lines.next().is_some() {
            Some(line)
        } else {
            None
        }
    }
}

impl<S: Source + Drop> Source for TeeSource<S> {
    ghost left = { λ s. S.left s.source };

    ghost faults = { λ s. S.faults s.source };

    fn take(&mut self, buf: &mut [u8]) -> Result<usize, Failed>
        ensures given { IfOk result (λ n. (text : List ℕ) → HasGiven text self.old
            → HasGiven (text ++ take n buf.new) self.new) }
        ensures none_given { OnErr result ((text : List ℕ) → HasGiven text self.old → HasGiven text self.new) }

        // These are the contract's clauses that the trait `Source` requires.
        ensures bound { ReadsAtMost result buf.new }
        ensures taken { IfOk result (λ n.
            Consumes (S.left (tee_source self.old)) (S.left (tee_source self.new)) (take n buf.new)) }
        ensures end { IfOk result (λ n. n ≡ 0 → 0 < length buf.old → IsAtEnd (S.left (tee_source self.new))) }
        ensures not_taken { OnErr result (Keeps (S.left (tee_source self.old)) (S.left (tee_source self.new))) }
        ensures not_counted { OnOk result (S.faults (tee_source self.new) ≡ S.faults (tee_source self.old)) }
        ensures cause { OnErr result (Rose (S.faults (tee_source self.old)) (S.faults (tee_source self.new))) }
    {
        let count = self.source.take(buf)?;
        self.keep(&buf[..count]);
        Ok(count)
    }
}

/// A sink that keeps a copy of the first 32 bytes of the last piece that was put to it.
#[derive(Drop)]
pub struct TeeSink<K: Sink + Drop> {
    sink: K,
    last: ArrayVec<u8, MOST_GOT>,
}

impl<K: Sink + Drop> TeeSink<K> {
    /// A tee that puts its pieces to `sink`. It has kept no byte yet.
    pub fn of(sink: K) -> TeeSink<K>
        ensures sink { tee_sink result ≡ sink }
        ensures got { HasGot [] result }
    {
        TeeSink {
            sink,
            last: ArrayVec::new(),
        }
    }

    /// The first bytes, at most 32, of the last piece that was put. A line of up to 32 bytes that was put in one piece
    /// is whole.
    pub fn last(&self) -> &[u8]
        ensures { (piece : List ℕ) → HasGot piece self.now → result.now ≡ take 32 piece }
    {
        self.last.as_slice()
    }
}

impl<K: Sink + Drop> Sink for TeeSink<K> {
    ghost held = { λ s. K.held s.sink };

    ghost kept_back = { λ s. K.kept_back s.sink };

    ghost faults = { λ s. K.faults s.sink };

    #[inline(always)]
    fn put(&mut self, piece: &[u8]) -> Result<usize, Failed>
        ensures got { IfOk result (λ n. HasGot (take n piece.now) self.new) }
        ensures none_got { OnErr result ((before : List ℕ) → HasGot before self.old → HasGot before self.new) }

        // These are the contract's clauses that the trait `Sink` requires.
        ensures bound { WritesAtMost result piece.now }
        ensures some { IfOk result (λ n. 0 < length piece.now → 0 < n) }
        ensures appended { IfOk result (λ n.
            Appends (K.held (tee_sink self.old)) (K.held (tee_sink self.new)) (take n piece.now)) }
        ensures not_appended { OnErr result (Keeps (K.held (tee_sink self.old)) (K.held (tee_sink self.new))) }
        ensures not_counted { OnOk result (K.faults (tee_sink self.new) ≡ K.faults (tee_sink self.old)) }
        ensures cause { OnErr result (Rose (K.faults (tee_sink self.old)) (K.faults (tee_sink self.new))) }
    {
        let count = self.sink.put(piece)?;
        let kept = count.min(MOST_GOT);
        self.last.clear();
        let _kept = self.last.try_extend_from_slice(&piece[..kept]);
        Ok(count)
    }

    fn flush(&mut self) -> Result<(), Failed>
        ensures got { (before : List ℕ) → HasGot before self.old → HasGot before self.new }

        // These are the contract's clauses that the trait `Sink` requires.
        ensures handed_on { OnOk result (K.kept_back (tee_sink self.new) ≡ []) }
        ensures kept { Keeps (K.held (tee_sink self.old)) (K.held (tee_sink self.new)) }
        ensures not_counted { OnOk result (K.faults (tee_sink self.new) ≡ K.faults (tee_sink self.old)) }
        ensures cause { OnErr result (Rose (K.faults (tee_sink self.old)) (K.faults (tee_sink self.new))) }
    {
        self.sink.flush()
    }
}
