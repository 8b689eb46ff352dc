//! The read of a word from the core.
ghost use Rattle.draw_below.specs.LaneWords.{GivesInt};

use crate::lane_words::LaneWords;
use crate::words::Words;
use key_names::Trace;
use rng_core::{Site, int};
use std::sync::Wait;

impl<'a> Words for LaneWords<'a> {
    ghost gives = { GivesInt };

    fn next<R: Wait>(&mut self, rt: &R) -> u32 {
        let mut bytes = [0; 4];
        let mut trace = Trace::empty();
        let mut site = Site {
            lanes: self.lanes,
            pass: &mut *self.pass,
            trace: &mut trace,
            set: self.set,
        };
        int(rt, &mut site, &mut bytes);
        u32::from_le_bytes(bytes)
    }
}
