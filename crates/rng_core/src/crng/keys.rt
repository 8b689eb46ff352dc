//! Keys that a held lane gets from its parent: the base gets a root of the pool, and a CPU gets a key of the base.
ghost use Rattle.std.specs.Prelude.{◌≤◌};

use crate::lane_values;
use crate::site::Site;
use key_names::{BaseEntry, LaneId, PoolNote};
use lane_table::Held;
use std::sync::Wait;

/// A root, and the place in the pool's list of the visit that extracted the root.
#[derive(Clone, Copy)]
pub(crate) struct ExtractedRoot {
    pub(crate) key: [u8; 32],
    pub(crate) place: u64,
}

/// A key that the base hands over to a CPU, and the place in the base's list of the visit that handed it over.
#[derive(Clone, Copy)]
pub(crate) struct KeyHandoff {
    pub(crate) key: [u8; 32],
    pub(crate) generation: u64,
    pub(crate) place: u64,
}

impl Site<'_> {
    ghost use Rattle.lane_table.specs.Calls.{view};
    ghost use Rattle.rng_core.specs.Sites.{HasRoom, Holds, IsLow, Extracted, ExtractedRaising, Refilled, base_lane, own_lane};

    /// Extracts a root for the held base (`extract_entropy`).
    pub(crate) fn extract<R: Wait>(&mut self, rt: &R, base: &Held) -> ExtractedRoot
        requires holds { Holds base_lane base.now self.old }
        requires room { HasRoom 1 self.old }
        ensures { Extracted base.now result self.old self.new }
    {
        let mut pool = self.take(rt, LaneId::Pool);
        let key = lane_values::extract(pool.state_mut(), &self.set.hw);
        let note = PoolNote::Extract {
            hw: self.set.hw,
            base_place: base.place(),
        };
        let place = pool.place();
        self.put(pool, note);
        ExtractedRoot { key, place }
    }

    /// Extracts a root for the held base, and raises the generation word to the generation that the reseed will give
    /// the base.
    pub(crate) fn extract_raising<R: Wait>(&mut self, rt: &R, base: &Held) -> ExtractedRoot
        requires holds { Holds base_lane base.now self.old }
        requires room { HasRoom 1 self.old }
        requires low { IsLow self.old }
        ensures { ExtractedRaising base.now result self.old self.new }
    {
        let root = self.extract(rt, base);
        let generation = lane_values::base_generation(base.state()) + 1;
        self.lanes.raise(self.pass, base, generation);
        root
    }

    /// Takes a key from the base for the held CPU (`crng_make_state` if the CPU's generation is not the base's).
    pub(crate) fn refill<R: Wait>(&mut self, rt: &R, cpu: &Held) -> KeyHandoff
        requires holds { Holds (own_lane self.old) cpu.now self.old }
        requires ready { 1 ≤ (view self.old.pass.now).seen }
        requires room { HasRoom 1 self.old }
        ensures { Refilled cpu.now result self.old self.new }
    {
        let mut base = self.take(rt, LaneId::Base);
        let generation = lane_values::base_generation(base.state());
        let key = lane_values::hand_over(base.state_mut());
        let entry = BaseEntry::Refill {
            cpu: self.set.cpu,
            cpu_place: cpu.place(),
        };
        let place = base.place();
        self.put(base, entry);
        KeyHandoff {
            key,
            generation,
            place,
        }
    }
}
