//! The generation word, which is read without a lane.
ghost use Rattle.std.specs.Prelude.{◌≡◌, ◌+◌};
ghost use Rattle.lane_table.specs.Meaning.{replay};
ghost use Rattle.lane_table.specs.WorldRule.{at, known_of};
ghost use Rattle.lane_table.specs.Calls.{view, IsPassOf, IsSamePass, Holds, Looked, Raised};

use crate::lanes::{GENERATION, Held, Lanes, Pass};
use crate::plays::{Look, Raise};

impl Lanes {
    /// One look at the generation: a load, which takes no lane and never waits. The result is below 2^63. The result is
    /// at least each generation that the pass found or raised before. It is also at least the generations of the base
    /// and the CPUs, as far as the pass knows their lists.
    pub fn generation(&self, pass: &mut Pass) -> u64
        requires { IsPassOf self.now pass.old }
        ensures pass { IsSamePass self.now pass.old pass.new }
        ensures looked { Looked result pass.old.seat.me pass.new.seat.me }
    {
        self.table.shared.load::<Look>(&mut pass.seat, GENERATION)
    }

    /// Stores `g` in the generation word, while the pass holds the base. `g` is the base's generation plus one; the
    /// base gets this generation at the later `put` of this hold.
    pub fn raise(&self, pass: &mut Pass, _held: &Held, g: u64)
        requires pass { IsPassOf self.now pass.old }
        requires held { Holds self.now pass.old _held.now }
        requires base { _held.now.turn.lane ≡ 1 }
        requires once { (at 1 (view pass.old)).raised ≡ 0 }
        requires next { g ≡ (replay (known_of (view pass.old) 1)).base.generation + 1 }
        ensures pass { IsSamePass self.now pass.old pass.new }
        ensures held { Holds self.now pass.new _held.now }
        ensures raised { Raised g pass.old.seat.me pass.new.seat.me }
    {
        self.table
            .shared
            .store::<Raise>(&mut pass.seat, GENERATION, g);
    }
}
