//! Groups a caller's events and their lines into calls.
ghost use Rattle.std.specs.Prelude.{◌≡◌, ◌+◌, ◌<◌, ℕ, IsTrue, IfOk, map, length, drop, nat_lt};
ghost use Rattle.key_names.specs.Callers.Calls.{calls_of, has_vread};
ghost use Rattle.judge_lines.specs.Seen.{seen_bare};
ghost use Rattle.judge_lines.specs.Called.{seen_call, is_vread};

use crate::bare::BareLine;
use key_names::{Event, InsideAct, Point};
use std::alloc::{AllocError, Global};
use std::mem;

/// An act (an event inside a `vread`, at one of its points), with its line.
#[derive(Clone, Copy)]
pub struct ActLine<'a> {
    pub point: Point,
    pub act: InsideAct,
    pub line: BareLine<'a>,
}

/// One call of a caller, with its lines: a single event, a `vread` with the acts inside it, an act that no `vread`
/// follows, or the caller's end.
#[derive(Drop)]
pub enum CalledLines<'a> {
    Alone {
        event: &'a Event,
        line: BareLine<'a>,
    },
    Vread {
        len: u32,
        flags: u32,
        line: BareLine<'a>,
        acts: Vec<ActLine<'a>>,
    },
    Unbound(ActLine<'a>),
    Ending(BareLine<'a>),
}

fn is_vread(event: &Event) -> bool
    ensures { result ≡ is_vread event.now }
{
    matches!(event, Event::Vread { .. })
}

// The number of events up to and including the last `vread`.
fn vreads_end(events: &[Event]) -> usize
    ensures { (k : ℕ) → has_vread (drop k events.now) ≡ nat_lt k result }
{
    let mut end = 0;
    for (number, event) in events.iter().enumerate() {
        if is_vread(event) {
            end = number + 1;
        }
    }
    end
}

/// The calls of a caller with these events and lines.
///
/// # Errors
///
/// `AllocError` if there is no memory for them.
pub(crate) fn caller_calls<'a>(
    alloc: Global,
    events: &'a [Event],
    lines: &[BareLine<'a>],
) -> Result<Vec<CalledLines<'a>>, AllocError>
    requires { length lines.now ≡ length events.now + 1 }
    ensures { IfOk result (λ calls. map seen_call calls.items ≡ calls_of events.now (map seen_bare lines.now)) }
{
    let end = vreads_end(events);
    let mut calls = Vec::with_capacity(alloc, lines.len())?;
    let mut waiting = Vec::new(alloc);
    for (number, event) in events.iter().enumerate() {
        let line = lines[number];
        match event {
            Event::Vread { len, flags } => {
                let acts = mem::replace(&mut waiting, Vec::new(alloc));
                calls.push(CalledLines::Vread {
                    len: *len,
                    flags: *flags,
                    line,
                    acts,
                })?;
            }
            Event::Inside { point, act } => {
                let bound = ActLine {
                    point: *point,
                    act: *act,
                    line,
                };
                if number + 1 < end {
                    waiting.push(bound)?;
                } else {
                    calls.push(CalledLines::Unbound(bound))?;
                }
            }
            _ => calls.push(CalledLines::Alone { event, line })?,
        }
    }
    calls.push(CalledLines::Ending(lines[events.len()]))?;
    Ok(calls)
}
