//! The acts inside a vgetrandom call, and the points that the call reached.
ghost use Rattle.std.specs.Prelude.{◌≡◌, ◌&&◌, ◌||◌, []};
ghost use Rattle.key_names.specs.Kernel.Points.{is_same_point};
ghost use Rattle.key_names.specs.Callers.VreadSteps.{is_wipe};
ghost use Rattle.judge_vread.specs.Inside.{inside_of, includes};
ghost use Rattle.judge_vread.specs.InsideSteps.{inside_after};

use key_names::{InsideAct, Point};

/// What the acts inside a vgetrandom call do: whether there are any, and at which points of the first attempt an act
/// wipes the state.
#[derive(Clone, Copy, Debug, PartialEq, Eq)]
pub struct Inside {
    pub any: bool,
    pub start: bool,
    pub written: bool,
    pub serve: bool,
    pub end: bool,
}

impl Inside {
    /// For a vgetrandom call without acts: no act, and no wipe.
    pub fn none() -> Inside
        ensures { result ≡ inside_of [] }
    {
        Inside {
            any: false,
            start: false,
            written: false,
            serve: false,
            end: false,
        }
    }

    /// Adds what the act `act` at the point `point` does.
    pub fn add(&mut self, point: Point, act: InsideAct)
        ensures { self.new ≡ inside_after self.old point act }
    {
        self.any = true;
        self.start = is_wiped(self.start, Point::Start, point, act);
        self.written = is_wiped(self.written, Point::Written, point, act);
        self.serve = is_wiped(self.serve, Point::Serve, point, act);
        self.end = is_wiped(self.end, Point::End, point, act);
    }
}

// Whether an act wipes the state at the point `here`, after one more act at `point` was added.
fn is_wiped(wiped: bool, here: Point, point: Point, act: InsideAct) -> bool
    ensures { result ≡ (wiped || (is_same_point point here && is_wipe act)) }
{
    wiped || (point.is(here) && matches!(act, InsideAct::Wipe))
}

/// The points that the first attempt of a vgetrandom call reached.
#[derive(Clone, Copy, Debug, PartialEq, Eq)]
pub enum Reached {
    /// None: there was no attempt.
    Nothing,
    /// All but `Point::Written`: the state's key was current, so no key was read.
    AllButWritten,
    /// All four points: a key was read.
    All,
}

impl Reached {
    /// Whether the attempt reached the point.
    #[tactic(auto, using(crate::proofs::CallPoints::all_included, crate::proofs::CallPoints::included_but_written))]
    pub fn includes(self, point: Point) -> bool
        ensures { result ≡ includes self point }
    {
        match self {
            Reached::Nothing => false,
            Reached::AllButWritten => !point.is(Point::Written),
            Reached::All => true,
        }
    }
}
