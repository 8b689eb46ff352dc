//! The point that a vgetrandom call has reached.

ghost use Rattle.std.specs.Prelude.{◌≡◌};

use crate::outcome::VEnd;
use key_names::{Errno, Point};

/// One of the two attempts of a call. The second follows if the first was outdated at its end.
#[derive(Clone, Copy, Debug, PartialEq, Eq)]
pub enum Turn {
    First,
    Second,
}

/// A point that a call has reached, before the events at that point. To continue, the call needs this place, its state,
/// its buffer and its flags.
#[derive(Clone, Copy, Debug, PartialEq, Eq)]
pub struct Place {
    pub turn: Turn,
    pub point: Point,
    /// The generation that was published when the attempt began.
    pub published: u64,
    /// The key's next block. The second attempt continues where the first one stopped: no block is used twice.
    pub next_block: u64,
}

impl Place {
    /// This place with another point of the same attempt.
    pub(crate) fn at(self, point: Point) -> Place
        ensures { result ≡ record self { point = point } }
    {
        Place { point, ..self }
    }
}

/// How far a call has come.
#[derive(Clone, Copy, Debug, PartialEq, Eq)]
pub enum Came {
    /// The call is at a point.
    At(Place),
    /// The call is over.
    Ended(Result<VEnd, Errno>),
}
