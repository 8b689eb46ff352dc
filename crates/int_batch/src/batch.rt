//! A batch of integers of one width.

ghost use Rattle.std.specs.Prelude.{◌≡◌, ◌/◌, ◌<◌, ◌≤◌, IsTrue};
ghost use Rattle.std.specs.Fn.{FnOnceReturnsAtMut};
ghost use Rattle.int_batch.specs.BatchValue.{start, wants, filled, next_bytes, after_serving, ServesAt};

use std::marker::Model;

/// The bytes of a batch: one and a half blocks (`CHACHA_BLOCK_SIZE * 3 / 2`).
const BATCH_BYTES: usize = 96;

/// A batch of integers of `W` bytes (`struct batch_u8` to `batch_u64`): bytes that were made at one generation, and the
/// number of integers served from them. The bytes of a served integer are 0.
#[derive(Drop)]
pub struct Batch<const W: usize> {
    bytes: [u8; 96],
    position: usize,
    generation: u64,
}

impl<const W: usize> Model for Batch<W> {
    ghost use Rattle.std.specs.Prelude.{◌<◌, ◌≤◌};
    ghost use Rattle.int_batch.specs.BatchValue.{BatchValue};

    ghost Value = { BatchValue };

    ghost view = { λ b. record { bytes = b.bytes; position = b.position; generation = b.generation } };

    ghost invariant = { λ b. (0 < W) × (W ≤ 96) };
}

impl<const W: usize> Batch<W> {
    /// A batch that is used up. `W` is 1 to 96.
    pub fn start() -> Batch<W>
        requires some { 0 < W }
        requires fits { W ≤ 96 }
        ensures { result ≡ start W }
    {
        Batch {
            bytes: [0; 96],
            position: BATCH_BYTES / W,
            generation: 0,
        }
    }

    /// Whether the batch has to be filled before it serves an integer at generation `g`: the batch is used up, or has
    /// another generation.
    pub fn wants(&self, g: u64) -> bool
        ensures { result ≡ wants g W self.now }
    {
        self.position >= BATCH_BYTES / W || g != self.generation
    }

    /// Replaces the bytes of the batch by `bytes`, which were made at generation `g`.
    pub fn refill(&mut self, bytes: &[u8; 96], g: u64)
        ensures { self.new ≡ filled bytes.now g }
    {
        self.bytes = *bytes;
        self.position = 0;
        self.generation = g;
    }

    /// Serves the next integer of a batch that is not used up, and sets the integer's bytes to 0.
    pub fn serve(&mut self) -> [u8; W]
        requires { self.old.position < 96 / W }
        ensures entry { result ≡ next_bytes W self.old }
        ensures state { self.new ≡ after_serving W self.old }
    {
        let from = W * self.position;
        let mut entry = [0; W];
        entry.copy_from_slice(&self.bytes[from..from + W]);
        self.bytes[from..from + W].fill(0);
        self.position += 1;
        entry
    }

    /// Serves the next integer at generation `g`. If the batch has to be filled, `fill` first makes new bytes;
    /// otherwise `fill` is not called. This is [`Batch::wants`], [`Batch::refill`] and [`Batch::serve`] in one, for
    /// users of the crate without lanes. A caller whose proof needs the captures of `fill` after the call uses those
    /// three calls instead, as the core does.
    pub fn next<F: FnOnce(&mut [u8; 96])>(&mut self, g: u64, fill: F) -> [u8; W]
        requires { IsTrue (wants g W self.old) → F.IsAlwaysCallable fill }
        ensures { ServesAt W g (FnOnceReturnsAtMut F.FnOnce fill self.old.bytes tt) self.old result self.new }
    {
        if self.wants(g) {
            fill(&mut self.bytes);
            self.position = 0;
            self.generation = g;
        }
        self.serve()
    }

    /// Empties the batch, as when its CPU is prepared (`random_prepare_cpu`): afterwards it equals a new batch. The
    /// kernel only marks the bytes as used up, and leaves them.
    pub fn drop_rest(&mut self)
        ensures { self.new ≡ start W }
    {
        self.bytes = [0; 96];
        self.position = BATCH_BYTES / W;
        self.generation = 0;
    }
}
