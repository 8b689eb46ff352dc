//! The stamps of a caller's visits, and the ends of its calls.
ghost use Rattle.std.specs.Prelude.{◌≡◌, map};
ghost use Rattle.key_names.specs.Callers.History.{steps_at_point, vread_steps};
ghost use Rattle.judge_lines.specs.Called.{seen_act, seen_call};
ghost use Rattle.judge_lines.specs.Seen.{seen_bare};
ghost use Rattle.audit_keys.specs.Ends.{end_of, own_line};
ghost use Rattle.audit_keys.specs.Stamps.{latest_of, over_at};

use crate::entry::CallEnd;
use judge_lines::bare::BareLine;
use judge_lines::called::{ActLine, CalledLines};
use key_names::{Point, Step};

/// The greatest among `stamp` and the stamps of the visits in `steps`.
pub(crate) fn latest(stamp: u64, steps: &[Step]) -> u64
    ensures { result ≡ latest_of stamp steps.now }
{
    let mut latest = stamp;
    for step in steps {
        if let Step::Visit(mark) = step {
            latest = latest.max(mark.stamp);
        }
    }
    latest
}

// The greatest stamp after the acts at a point. `stamp` is the greatest stamp before them.
fn after_point(stamp: u64, acts: &[ActLine<'_>], point: Point) -> u64
    ensures { result ≡ latest_of stamp (steps_at_point (map seen_act acts.now) point) }
{
    let mut last = stamp;
    for bound in acts {
        if bound.point.is(point) {
            last = latest(last, bound.line.steps);
        }
    }
    last
}

// The greatest stamp after a `vread` and the acts inside it. `stamp` is the greatest stamp before the `vread`.
fn after_vread(stamp: u64, steps: &[Step], acts: &[ActLine<'_>]) -> u64
    ensures { result ≡ latest_of stamp (vread_steps steps.now (map seen_act acts.now)) }
{
    let own = latest(stamp, steps);
    let started = after_point(own, acts, Point::Start);
    let written = after_point(started, acts, Point::Written);
    let served = after_point(written, acts, Point::Serve);
    after_point(served, acts, Point::End)
}

/// The stamp of the last visit before the end of a call. `stamp` is the stamp of the last visit before the call.
pub(crate) fn after_call(stamp: u64, call: &CalledLines<'_>) -> u64
    ensures { result ≡ over_at stamp (seen_call call.now) }
{
    match call {
        CalledLines::Alone { line, .. } | CalledLines::Ending(line) => latest(stamp, line.steps),
        CalledLines::Unbound(act) => latest(stamp, act.line.steps),
        CalledLines::Vread { line, acts, .. } => after_vread(stamp, line.steps, acts),
    }
}

/// The line of a call. For a `vread` this is the `vread`'s own line, and never an act's.
pub(crate) fn own_line<'a>(call: &CalledLines<'a>) -> BareLine<'a>
    ensures { seen_bare result ≡ own_line (seen_call call.now) }
{
    match call {
        CalledLines::Alone { line, .. }
        | CalledLines::Vread { line, .. }
        | CalledLines::Ending(line) => *line,
        CalledLines::Unbound(act) => act.line,
    }
}

/// The end of a call. `stamp` is the stamp of the caller's last visit before the call.
pub(crate) fn end_of(stamp: u64, call: &CalledLines<'_>) -> CallEnd
    ensures { result ≡ end_of stamp (seen_call call.now) }
{
    let line = own_line(call);
    CallEnd {
        stamp: after_call(stamp, call),
        caller: line.caller,
        event: line.event,
    }
}
