//! The attempts of a vgetrandom call.
ghost use Rattle.std.specs.Prelude.{◌≡◌};
ghost use Rattle.rng_core.specs.Acting.{attempt_at, is_first};

use key_names::Point;

/// The current attempt of a call: acts run only in the first one.
#[derive(Clone, Copy)]
pub enum Attempt {
    /// The call has not reached its first point yet.
    Before,
    First,
    Later,
}

impl Attempt {
    /// The attempt after the call reached a point. The first point begins the first attempt, and each later `Start`
    /// begins a new attempt.
    pub(crate) fn reach(self, point: Point) -> Attempt
        ensures { result ≡ attempt_at self point }
    {
        match self {
            Attempt::Before => Attempt::First,
            Attempt::First => {
                if point.is(Point::Start) {
                    Attempt::Later
                } else {
                    Attempt::First
                }
            }
            Attempt::Later => Attempt::Later,
        }
    }

    pub(crate) fn is_first(self) -> bool
        ensures { result ≡ is_first self }
    {
        match self {
            Attempt::First => true,
            Attempt::Before | Attempt::Later => false,
        }
    }
}
