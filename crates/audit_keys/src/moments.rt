//! The moment at which each entry of a book was left, and the line of the entry.
ghost use Rattle.std.specs.Prelude.{◌≡◌, slice_get};
ghost use Rattle.audit_keys.specs.Cut.{lane_moments};
ghost use Rattle.audit_keys.specs.MadeOrder.{moment_at, state_moments};

use crate::used::Origin;
use key_names::LaneId;

/// A line of a transcript, by its caller and its event.
#[derive(Clone, Copy, Debug, PartialEq, Eq, PartialOrd, Ord)]
pub struct LineOf {
    pub caller: u32,
    pub event: u32,
}

/// The stamp of an entry, and the line that left the entry. An entry of a vgetrandom state has the stamp at which its
/// call was over.
#[derive(Clone, Copy, Debug, PartialEq, Eq)]
pub struct Moment {
    pub stamp: u64,
    pub line: LineOf,
}

/// The moments of all entries. Each lane, and each vgetrandom state of each caller, has a list of moments by place.
#[derive(Drop)]
pub struct Moments {
    pub pool: Vec<Moment>,
    pub base: Vec<Moment>,
    pub cpus: Vec<Vec<Moment>>,
    pub callers: Vec<Vec<Vec<Moment>>>,
}

// The moment of the entry at a place, out of a list of moments.
fn moment_in(list: &[Moment], place: u64) -> Option<Moment>
    ensures { result ≡ slice_get list.now place }
{
    list.get(place as usize).copied()
}

impl Moments {
    // The moments of a CPU's visits.
    pub(crate) fn of_cpu(&self, cpu: usize) -> &[Moment]
        ensures { result.now ≡ lane_moments (slice_get self.now.cpus.items cpu) }
    {
        match self.cpus.get(cpu) {
            Some(lane) => lane,
            None => &[],
        }
    }

    // The moments of the entries of a caller's vgetrandom state.
    fn of_state(&self, caller: u32, state: u32) -> &[Moment]
        ensures { result.now ≡ state_moments (slice_get self.now.callers.items caller) state }
    {
        match self.callers.get(caller as usize) {
            Some(states) => match states.get(state as usize) {
                Some(list) => list,
                None => &[],
            },
            None => &[],
        }
    }

    /// The moment of an entry, or `None` if no moment is listed for it.
    pub fn at(&self, origin: Origin) -> Option<Moment>
        ensures { result ≡ moment_at self.now origin }
    {
        match origin {
            Origin::Lane(LaneId::Pool, place) => moment_in(&self.pool, place),
            Origin::Lane(LaneId::Base, place) => moment_in(&self.base, place),
            Origin::Lane(LaneId::Cpu(cpu), place) => moment_in(self.of_cpu(cpu as usize), place),
            Origin::State {
                caller,
                state,
                place,
            } => moment_in(self.of_state(caller, state), place),
        }
    }
}
