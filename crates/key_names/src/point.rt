//! The four points of a vgetrandom call.
ghost use Rattle.std.specs.Prelude.{◌≡◌};
ghost use Rattle.key_names.specs.Kernel.Points.{is_same_point, point_numbered};

/// A point inside a vgetrandom call, at which the state's memory may be wiped.
#[derive(Clone, Copy, Debug, PartialEq, Eq)]
pub enum Point {
    /// The published generation was read.
    Start = 1,
    /// The state has the new generation, and its key was not read yet.
    Written = 2,
    /// The key is current, and no byte was copied yet.
    Serve = 3,
    /// All bytes were copied, and the published generation was not read again yet.
    End = 4,
}

impl Point {
    /// The point with this number, 1 to 4. Scripts and command words use the numbers.
    pub fn of_number(number: u64) -> Option<Point>
        ensures { result ≡ point_numbered number }
    {
        match number {
            1 => Some(Point::Start),
            2 => Some(Point::Written),
            3 => Some(Point::Serve),
            4 => Some(Point::End),
            _ => None,
        }
    }

    /// Whether this point is `other`.
    pub fn is(self, other: Point) -> bool
        ensures { result ≡ is_same_point self other }
    {
        self == other
    }
}
