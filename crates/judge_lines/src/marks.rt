//! Collects the marks (visits as lines print them) of all lines. Checks that in each lane places count up and stamps
//! rise.
ghost use Rattle.std.specs.Prelude.{◌≡◌, ◌↔◌, ◌+◌, ◌++◌, ◌<◌, ◌≤◌, ℕ, IsTrue, IfOk, OnOk, List, [], map, length, IsPermutation};
ghost use Rattle.std.specs.List.{filter, flat_map, AllByRecursion};
ghost use Rattle.key_names.specs.declared.names.LaneId.{LaneId};
ghost use Rattle.key_names.specs.Transcripts.IsTranscript.{is_same_lane, line_marks, all_marks, lane_marks, PlacesConform};
ghost use Rattle.judge_lines.specs.Seen.{seen_bare, seen_callers};
ghost use Rattle.judge_lines.specs.Marks.{seen_mark, is_in, is_by, lane_rank, Follows, RunsCount, IsSortedByLane};

use crate::bare::BareLine;
use key_names::{LaneId, Mark, Step, Who};
use std::alloc::{AllocError, Global};

/// A mark, and where it is printed: the caller, the line, and the number of the step in the line.
#[derive(Clone, Copy, Debug, PartialEq, Eq)]
pub struct MarkOf {
    pub mark: Mark,
    pub who: Who,
}

/// The lanes whose marks are collected in one pass over the lines: the pool, the base, or all CPUs.
#[derive(Clone, Copy)]
enum Group {
    Pool,
    Base,
    Cpus,
}

fn is_in(group: Group, lane: LaneId) -> bool
    ensures { result ≡ is_in group lane }
{
    match (group, lane) {
        (Group::Pool, LaneId::Pool) => true,
        (Group::Base, LaneId::Base) => true,
        (Group::Cpus, LaneId::Cpu(_)) => true,
        _ => false,
    }
}

fn push_line_marks(
    marks: &mut Vec<MarkOf>,
    group: Group,
    line: &BareLine<'_>,
) -> Result<(), AllocError>
    ensures { OnOk result (map seen_mark marks.new.items
        ≡ map seen_mark marks.old.items ++ filter (is_by group) (line_marks (seen_bare line.now))) }
{
    for (number, step) in line.steps.iter().enumerate() {
        if let Step::Visit(mark) = step {
            if is_in(group, mark.lane) {
                let who = Who {
                    caller: line.caller,
                    event: line.event,
                    step: number as u32,
                };
                marks.push(MarkOf { mark: *mark, who })?;
            }
        }
    }
    Ok(())
}

fn push_marks(
    marks: &mut Vec<MarkOf>,
    group: Group,
    lines: &[BareLine<'_>],
) -> Result<(), AllocError>
    ensures { OnOk result (map seen_mark marks.new.items
        ≡ map seen_mark marks.old.items ++ filter (is_by group) (flat_map line_marks (map seen_bare lines.now))) }
{
    for line in lines {
        push_line_marks(marks, group, line)?;
    }
    Ok(())
}

fn push_group(
    marks: &mut Vec<MarkOf>,
    group: Group,
    callers: &[Vec<BareLine<'_>>],
) -> Result<(), AllocError>
    ensures { OnOk result (map seen_mark marks.new.items
        ≡ map seen_mark marks.old.items ++ filter (is_by group) (all_marks (seen_callers callers.now))) }
{
    for lines in callers {
        push_marks(marks, group, lines)?;
    }
    Ok(())
}

// All marks: first those of the pool, then those of the base, then those of the CPUs. This is already the sorted
// order if one caller made all marks on one CPU.
fn gathered(alloc: Global, callers: &[Vec<BareLine<'_>>]) -> Result<Vec<MarkOf>, AllocError>
    ensures { IfOk result (λ marks. IsPermutation (all_marks (seen_callers callers.now)) (map seen_mark marks.items)) }
{
    let mut marks = Vec::new(alloc);
    push_group(&mut marks, Group::Pool, callers)?;
    push_group(&mut marks, Group::Base, callers)?;
    push_group(&mut marks, Group::Cpus, callers)?;
    Ok(marks)
}

// The number by which marks are sorted: the pool comes first, then the base, and then the CPUs in order.
fn lane_rank(lane: LaneId) -> u64
    ensures { result ≡ lane_rank lane }
{
    match lane {
        LaneId::Pool => 0,
        LaneId::Base => 1,
        LaneId::Cpu(cpu) => 2 + u64::from(cpu),
    }
}

/// All marks, sorted by lane, and in each lane by stamp.
///
/// # Errors
///
/// `AllocError` if there is no memory for them.
pub(crate) fn sorted_marks(
    alloc: Global,
    callers: &[Vec<BareLine<'_>>],
) -> Result<Vec<MarkOf>, AllocError>
    ensures all { IfOk result (λ marks. IsPermutation (all_marks (seen_callers callers.now)) (map seen_mark marks.items)) }
    ensures sorted { IfOk result (λ marks. IsSortedByLane marks.items) }
{
    let mut marks = gathered(alloc, callers)?;
    marks.sort_by_key(|of| (lane_rank(of.mark.lane), of.mark.stamp))?;
    Ok(marks)
}

fn follows(last: Option<Mark>, mark: Mark) -> bool
    ensures { IsTrue result ↔ Follows last mark }
{
    match last {
        Some(last) if last.lane == mark.lane => {
            last.stamp < mark.stamp && last.place < mark.place && mark.place - last.place == 1
        }
        _ => mark.place == 0,
    }
}

/// Whether in each lane the places count up from 0, and the stamps rise in the order of the places.
pub(crate) fn places_count(marks: &[MarkOf]) -> bool
    requires { IsSortedByLane marks.now }
    ensures { IsTrue result ↔ ((lane : LaneId) → PlacesConform (lane_marks lane (map seen_mark marks.now))) }
{
    let mut last = None;
    for of in marks {
        if !follows(last, of.mark) {
            return false;
        }
        last = Some(of.mark);
    }
    true
}
