//! Finds the first line with a step that may not follow its caller's earlier steps.

ghost use Rattle.std.specs.Prelude.{◌≤◌, length};

use crate::place::{Expected, FailedLine};
use event_script::Script;
use judge_lines::bare::BareLine;
use judge_log::Lists;
use key_names::{Event, LaneId, Mark, Point, Step};
use std::alloc::{AllocError, Global};

/// The value that is carried along a caller's steps, and with which each step is compared: a stamp, or a generation.
#[derive(Clone, Copy)]
pub(crate) enum Carried<'a> {
    /// The stamp of the caller's last visit.
    Stamp,
    /// The greatest generation that the caller has seen. `reseeds` is the number of the base's reseeds.
    Seen { lists: &'a Lists, reseeds: u64 },
}

// The generation that a visit left. None for a visit of the pool.
fn left_by(lists: &Lists, mark: Mark) -> Option<u64> {
    let place = mark.place as usize;
    match mark.lane {
        LaneId::Pool => None,
        LaneId::Base => Some(lists.base.get(place)?.generation),
        LaneId::Cpu(cpu) => Some(lists.cpus.get(cpu as usize)?.get(place)?.generation),
    }
}

impl Carried<'_> {
    // The step that was expected instead of `step`. None if `step` may follow a caller's earlier steps.
    fn expected(&self, carried: Option<u64>, step: Step) -> Option<Expected> {
        match (*self, step) {
            (Carried::Stamp, Step::Visit(mark)) => {
                let last = carried?;
                if last < mark.stamp {
                    None
                } else {
                    Some(Expected::StampAbove(last))
                }
            }
            (Carried::Seen { reseeds, .. }, Step::Look(found)) => {
                let least = carried.unwrap_or(0);
                let most = reseeds;
                if least <= found && found <= most {
                    None
                } else {
                    Some(Expected::Look { least, most })
                }
            }
            _ => None,
        }
    }

    fn after(&self, carried: Option<u64>, step: Step) -> Option<u64> {
        let found = match (*self, step) {
            (Carried::Stamp, Step::Visit(mark)) => return Some(mark.stamp),
            (Carried::Stamp, Step::Look(_)) => return carried,
            (Carried::Seen { .. }, Step::Look(found)) => Some(found),
            (Carried::Seen { lists, .. }, Step::Visit(mark)) => left_by(lists, mark),
        };
        match found {
            Some(found) => Some(carried.unwrap_or(0).max(found)),
            None => carried,
        }
    }
}

/// The state of the search in a caller's steps: the value carried so far, and the first line that failed.
#[derive(Drop)]
struct CallerPosition<'a> {
    how: Carried<'a>,
    caller: u32,
    carried: Option<u64>,
    found: Option<FailedLine>,
}

impl CallerPosition<'_> {
    // Carries the value along `steps`, the steps of the caller's line with the number `line`. Compares each step with
    // the value.
    fn go(&mut self, line: usize, steps: &[Step]) {
        for step in steps {
            if self.found.is_none() {
                if let Some(expected) = self.how.expected(self.carried, *step) {
                    self.found = Some(FailedLine {
                        caller: self.caller,
                        line,
                        expected,
                    });
                }
            }
            self.carried = self.how.after(self.carried, *step);
        }
    }

    fn go_at(&mut self, point: Point, acts: &[Act], lines: &[BareLine<'_>]) {
        for act in acts {
            if act.point.is(point) {
                if let Some(line) = lines.get(act.line) {
                    self.go(act.line, line.steps);
                }
            }
        }
    }

    // Carries the value along the steps of a `vread`, and at each act's point along the steps of the act.
    fn go_vread(&mut self, number: usize, steps: &[Step], acts: &[Act], lines: &[BareLine<'_>]) {
        let (looks, following) = steps.split_at(steps.len().min(2));
        let (rekey, rest) = following.split_at(rekey_end(following));
        self.go(number, looks);
        self.go_at(Point::Start, acts, lines);
        self.go_at(Point::Written, acts, lines);
        self.go(number, rekey);
        self.go_at(Point::Serve, acts, lines);
        self.go_at(Point::End, acts, lines);
        self.go(number, rest);
    }
}

/// An act that waits for a `vread`: its point, and the number of its line.
#[derive(Clone, Copy)]
struct Act {
    point: Point,
    line: usize,
}

fn is_visit(step: Step) -> bool {
    matches!(step, Step::Visit(_))
}

// `steps` are the steps of a `vread` from the third on. Returns how many of these steps come before the points `Serve`
// and `End`.
fn rekey_end(steps: &[Step]) -> usize
    ensures { result ≤ length steps.now }
{
    for (number, step) in steps.iter().enumerate() {
        if number >= 2 && !is_visit(*step) {
            return if number > 2 { number } else { 0 };
        }
    }
    if steps.len() > 2 { steps.len() } else { 0 }
}

// The number of steps up to and including the first visit in `steps`, or of all steps if there is no visit.
fn first_visit_end(steps: &[Step]) -> usize
    ensures { result ≤ length steps.now }
{
    for (number, step) in steps.iter().enumerate() {
        if is_visit(*step) {
            return number + 1;
        }
    }
    steps.len()
}

// The number of events up to and including the last `vread`.
fn vreads_end(events: &[Event]) -> usize {
    let mut end = 0;
    for (number, event) in events.iter().enumerate() {
        if let Event::Vread { .. } = event {
            end = number + 1;
        }
    }
    end
}

/// The value that is carried to the first step of a child.
#[derive(Clone, Copy)]
struct Start {
    child: u32,
    carried: Option<u64>,
}

fn start_of(starts: &[Start], caller: u32) -> Option<u64> {
    for start in starts {
        if start.child == caller {
            return start.carried;
        }
    }
    None
}

// Carries the value along the lines of a caller, and notes the value that is carried to each of its children.
fn go_along(
    alloc: Global,
    path: &mut CallerPosition<'_>,
    events: &[Event],
    lines: &[BareLine<'_>],
    starts: &mut Vec<Start>,
) -> Result<(), AllocError> {
    let end = vreads_end(events);
    let mut acts = Vec::new(alloc);
    for (number, line) in lines.iter().enumerate() {
        match events.get(number) {
            Some(Event::Inside { point, .. }) if number < end => acts.push(Act {
                point: *point,
                line: number,
            })?,
            Some(Event::Vread { .. }) => {
                path.go_vread(number, line.steps, &acts, lines);
                acts.clear();
            }
            Some(Event::Fork { child }) => {
                let (before, rest) = line.steps.split_at(first_visit_end(line.steps));
                path.go(number, before);
                starts.push(Start {
                    child: *child,
                    carried: path.carried,
                })?;
                path.go(number, rest);
            }
            _ => path.go(number, line.steps),
        }
    }
    Ok(())
}

/// The first line with a step that the value carried to this step does not allow. The callers are searched in order,
/// and `callers` must have the lines of each caller. This is tested, not proved.
pub(crate) fn first_off_path(
    alloc: Global,
    script: &Script,
    callers: &[Vec<BareLine<'_>>],
    how: Carried<'_>,
) -> Result<Option<FailedLine>, AllocError> {
    let mut starts = Vec::new(alloc);
    for caller in 0..script.callers() {
        let Some(lines) = callers.get(caller as usize) else {
            return Ok(None);
        };
        let mut path = CallerPosition {
            how,
            caller,
            carried: start_of(&starts, caller),
            found: None,
        };
        go_along(alloc, &mut path, script.events(caller), lines, &mut starts)?;
        if path.found.is_some() {
            return Ok(path.found);
        }
    }
    Ok(None)
}
