//! A caller's lines, the acts that wait for its next `vread`, and the room for the lines and the acts.
ghost use Rattle.std.specs.Prelude.{◌≡◌, ◌+◌, ◌*◌, ◌≤◌, [], All, IfOk, length, sum_by, vec_capacity, vec_len};
ghost use Rattle.std.specs.Bool.{OnTrue};
ghost use Rattle.caller_run.specs.Alone.{IsEmittedOnce};
ghost use Rattle.caller_run.specs.Says.{most_shown};
ghost use Rattle.caller_run.specs.Standing.{read_inside};
ghost use Rattle.rng_core.specs.Acts.{wants};

use event_script::reads::bytes_read;
use key_names::trace::MOST_STEPS;
use key_names::{Event, InsideAct, Trace};
use rng_core::Bound;
use std::alloc::{AllocError, Global};
use transcript_text::CallerLines;

/// The most acts that can wait for a `vread`.
const MOST_ACTS: usize = 8;

/// A caller's lines, the acts that wait for its next `vread`, and the steps of its last call.
#[derive(Drop)]
pub(crate) struct Log {
    pub(crate) lines: CallerLines,
    pub(crate) acts: Vec<Bound>,
    // All events share one trace, since a new one is cleared byte by byte. The trace is in a box, since a log is moved
    // with each fork.
    pub(crate) trace: Box<Trace>,
}

/// If true, the event is no act, forks no caller and shows no bytes. This one test covers the most frequent kinds of
/// such events.
#[inline(always)]
pub(crate) fn is_silent(event: &Event) -> bool
    ensures { OnTrue result (IsEmittedOnce event.now × (most_shown event.now ≡ 0)) }
{
    matches!(
        event,
        Event::At { .. } | Event::Irq { .. } | Event::Input { .. } | Event::Bits | Event::Tick
    )
}

/// How many bytes the line of an event shows at most.
// Inlined, since it is called up to twice for each event.
#[inline(always)]
pub(crate) fn most_shown(event: &Event) -> u32
    ensures { result ≡ most_shown event.now }
{
    if is_silent(event) {
        return 0;
    }
    match event {
        Event::Int8 => 1,
        Event::Int16 => 2,
        Event::Int32 => 4,
        Event::Int64 => 8,
        _ => bytes_read(event),
    }
}

// How many bytes an event reads inside a vread.
fn read_inside(event: &Event) -> u32
    ensures { result ≡ read_inside event.now }
{
    match event {
        Event::Inside {
            act: InsideAct::Vread(len),
            ..
        } => *len,
        _ => 0,
    }
}

/// The most bytes that the lines of some events need, and the bytes that the reads inside the events' vreads need.
#[derive(Clone, Copy)]
pub(crate) struct Needs {
    /// The bytes of all lines.
    pub(crate) shown: u64,
    /// The bytes of the longest line.
    pub(crate) longest: u32,
    /// The bytes that are read inside vreads.
    pub(crate) inside: u64,
}

impl Needs {
    /// The needs of these events.
    pub(crate) fn of(events: &[Event]) -> Needs
        requires { length events.now ≤ 65536 }
        ensures shown { result.shown ≡ sum_by most_shown events.now }
        ensures longest { All (λ event. most_shown event ≤ result.longest) events.now }
        ensures inside { result.inside ≡ sum_by read_inside events.now }
    {
        let mut shown = 0;
        let mut longest = 0;
        let mut inside = 0;
        for event in events {
            let most = most_shown(event);
            shown += u64::from(most);
            longest = longest.max(most);
            inside += u64::from(read_inside(event));
        }
        Needs {
            shown,
            longest,
            inside,
        }
    }
}

impl Log {
    /// A log with room for the lines of `events` events and for a last line, and for `shown` bytes in all these lines
    /// together.
    ///
    /// # Errors
    ///
    /// `AllocError` if there is no memory for it.
    pub(crate) fn for_events(alloc: Global, events: usize, shown: u64) -> Result<Log, AllocError>
        requires { events ≤ 65536 }
        ensures lines { IfOk result (λ log. log.lines.lines ≡ []) }
        ensures line_room { IfOk result (λ log. log.lines.line_room ≡ events + 1) }
        ensures step_room { IfOk result (λ log. log.lines.step_room ≡ 20 * (events + 1)) }
        ensures byte_room { IfOk result (λ log. log.lines.byte_room ≡ shown) }
        ensures acts { IfOk result (λ log. log.acts.items ≡ []) }
        ensures act_room { IfOk result (λ log. 8 ≤ vec_capacity log.acts) }
    {
        let lines = events + 1;
        let steps = MOST_STEPS as usize * lines;
        Ok(Log {
            lines: CallerLines::with_room(alloc, lines, steps, shown as usize)?,
            acts: Vec::with_capacity(alloc, MOST_ACTS)?,
            trace: Box::new(alloc, Trace::empty())?,
        })
    }
}
