//! The last fill of each batch of a CPU.
ghost use Rattle.std.specs.Prelude.{◌≡◌, ◌↔◌, IsTrue};
ghost use Rattle.judge_log.specs.CpuLane.{slot, put, no_fills, wants_kept};
ghost use Rattle.judge_log.specs.Tables.{IsWidth};

/// The number of bytes in a batch.
const BATCH_BYTES: u8 = 96;

/// The last fill of a batch: the generation that its look found, the key that was in use, and how many integers the
/// batch has served since, including the integer that filled it.
#[derive(Clone, Copy)]
pub(crate) struct LastFill {
    pub(crate) look: u64,
    pub(crate) key: [u8; 32],
    pub(crate) count: u32,
}

/// The last fills of the batches of integers of 1, 2, 4 and 8 bytes.
#[derive(Clone, Copy)]
pub(crate) struct LastFills {
    one: Option<LastFill>,
    two: Option<LastFill>,
    four: Option<LastFill>,
    eight: Option<LastFill>,
}

impl LastFills {
    /// The fills of a CPU whose batches were never filled.
    pub(crate) fn none() -> LastFills
        ensures { result ≡ no_fills }
    {
        LastFills {
            one: None,
            two: None,
            four: None,
            eight: None,
        }
    }

    /// The last fill of the batch with integers of `width` bytes.
    pub(crate) fn last(&self, width: u8) -> Option<LastFill>
        ensures { result ≡ slot self.now width }
    {
        match width {
            1 => self.one,
            2 => self.two,
            4 => self.four,
            8 => self.eight,
            _ => None,
        }
    }

    /// Sets the last fill of the batch with integers of `width` bytes.
    pub(crate) fn put(&mut self, width: u8, fill: Option<LastFill>)
        ensures { self.new ≡ put width fill self.old }
    {
        match width {
            1 => self.one = fill,
            2 => self.two = fill,
            4 => self.four = fill,
            8 => self.eight = fill,
            _ => {}
        }
    }

    /// Whether an integer of this width must first fill its batch. This is so if the batch was never filled, is used
    /// up, or was filled after a look that found another generation.
    pub(crate) fn wants(&self, look: u64, width: u8) -> bool
        requires { IsWidth width }
        ensures { result ≡ wants_kept look width (slot self.now width) }
    {
        match self.last(width) {
            None => true,
            Some(fill) => u32::from(BATCH_BYTES / width) <= fill.count || look != fill.look,
        }
    }
}
