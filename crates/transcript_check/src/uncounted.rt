//! Finds the first line with a visit whose place is not the visit's number in its lane.

use crate::place::{Expected, FailedLine};
use judge_lines::bare::BareLine;
use key_names::{LaneId, Mark, Step};
use std::alloc::{AllocError, Global};

/// A visit's mark, with the caller and the line of the visit.
#[derive(Clone, Copy)]
pub(crate) struct VisitOf {
    pub(crate) mark: Mark,
    pub(crate) caller: u32,
    pub(crate) line: usize,
}

// A lane's number in the order of lanes: first the pool, then the base, and then the CPUs.
fn lane_rank(lane: LaneId) -> u64 {
    match lane {
        LaneId::Pool => 0,
        LaneId::Base => 1,
        LaneId::Cpu(cpu) => 2 + u64::from(cpu),
    }
}

fn push_visits(visits: &mut Vec<VisitOf>, lines: &[BareLine<'_>]) -> Result<(), AllocError> {
    for (line, bare) in lines.iter().enumerate() {
        for step in bare.steps {
            if let Step::Visit(mark) = step {
                visits.push(VisitOf {
                    mark: *mark,
                    caller: bare.caller,
                    line,
                })?;
            }
        }
    }
    Ok(())
}

/// All visits, in the order of the lines.
pub(crate) fn all_visits(
    alloc: Global,
    callers: &[Vec<BareLine<'_>>],
) -> Result<Vec<VisitOf>, AllocError> {
    let mut visits = Vec::new(alloc);
    for lines in callers {
        push_visits(&mut visits, lines)?;
    }
    Ok(visits)
}

// What was expected instead of `mark`, the mark of a visit. `last` is the mark of the lane's previous visit, if there
// is one. `None` if the stamp of `mark` is above the stamp of `last`, and the place of `mark` is `place`.
fn expected_after(last: Option<Mark>, place: u64, mark: Mark) -> Option<Expected> {
    if let Some(last) = last {
        if mark.stamp <= last.stamp {
            return Some(Expected::StampAbove(last.stamp));
        }
    }
    if mark.place == place {
        None
    } else {
        Some(Expected::Place(Mark { place, ..mark }))
    }
}

fn is_before(visit: VisitOf, found: &Option<FailedLine>) -> bool {
    match found {
        Some(place) => (visit.caller, visit.line) < (place.caller, place.line),
        None => true,
    }
}

/// The visits of each lane are counted in the order of their stamps. Returns the first line with a visit whose place is
/// not the visit's count, or whose stamp another visit of the lane also has. This is tested, not proved.
pub(crate) fn first_uncounted(
    alloc: Global,
    callers: &[Vec<BareLine<'_>>],
) -> Result<Option<FailedLine>, AllocError> {
    let mut visits = all_visits(alloc, callers)?;
    visits.sort_by_key(|visit| (lane_rank(visit.mark.lane), visit.mark.stamp))?;
    let mut found = None;
    let mut last: Option<Mark> = None;
    let mut place: u64 = 0;
    for visit in &visits {
        last = last.filter(|mark| mark.lane == visit.mark.lane);
        place = match last {
            Some(_) => place.saturating_add(1),
            None => 0,
        };
        if let Some(expected) = expected_after(last, place, visit.mark) {
            if is_before(*visit, &found) {
                found = Some(FailedLine {
                    caller: visit.caller,
                    line: visit.line,
                    expected,
                });
            }
        }
        last = Some(visit.mark);
    }
    Ok(found)
}
