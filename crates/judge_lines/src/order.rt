//! Each caller's own steps, and the step of its parent after which it was forked.
ghost use Rattle.std.specs.Prelude.{◌≡◌, ◌<◌, ◌≤◌, ◌^◌, ◌++◌, IfOk, OnOk, map, length, take, drop};
ghost use Rattle.std.specs.List.{list_any};
ghost use Rattle.key_names.specs.Callers.History.{is_mark, through_visit, steps_at_point, cut_after_visits, cut_after_rekey};
ghost use Rattle.key_names.specs.Callers.History.{call_steps, calls_steps, vread_steps};
ghost use Rattle.judge_lines.specs.Called.{seen_act, seen_call, seen_calls};
ghost use Rattle.judge_lines.specs.Orders.{fork_here, forks_in, is_fork, all_forks, front_in, is_parent_in};

use crate::called::{ActLine, CalledLines};
use key_names::{Event, Point, Step};
use std::alloc::{AllocError, Global};

/// The fork that makes the caller `child`. `calls` counts the parent's calls before the fork. `steps` counts the
/// parent's own steps up to and including the fork's first visit.
#[derive(Clone, Copy, Debug, PartialEq, Eq)]
pub struct Fork {
    pub parent: u32,
    pub child: u32,
    pub calls: usize,
    pub steps: usize,
}

fn is_visit(step: Step) -> bool
    ensures { result ≡ is_mark step }
{
    matches!(step, Step::Visit(_))
}

// The number of visits at the start of `steps`, before the first look.
fn visits_in_front(steps: &[Step]) -> usize
    ensures within { result ≤ length steps.now }
    ensures front { take result steps.now ≡ (cut_after_visits steps.now).0 }
    ensures rest { drop result steps.now ≡ (cut_after_visits steps.now).1 }
{
    match steps {
        [Step::Visit(_), rest @ ..] => 1 + visits_in_front(rest),
        _ => 0,
    }
}

// How many of `steps` come before the points `Serve` and `End` of a `vread`. `steps` are the steps of the `vread`
// without its first two.
fn rekey_end(steps: &[Step]) -> usize
    ensures within { result ≤ length steps.now }
    ensures front { take result steps.now ≡ (cut_after_rekey steps.now).0 }
    ensures rest { drop result steps.now ≡ (cut_after_rekey steps.now).1 }
{
    if steps.len() > 2 && is_visit(steps[2]) {
        2 + visits_in_front(&steps[2..])
    } else {
        0
    }
}

// How many steps there are up to and including the first visit.
fn first_visit_end(steps: &[Step]) -> usize
    ensures within { result ≤ length steps.now }
    ensures front { take result steps.now ≡ through_visit steps.now }
{
    match steps {
        [] => 0,
        [Step::Visit(_), ..] => 1,
        [_, rest @ ..] => 1 + first_visit_end(rest),
    }
}

fn push_at_point(own: &mut Vec<Step>, acts: &[ActLine<'_>], point: Point) -> Result<(), AllocError>
    ensures { OnOk result (own.new.items ≡ own.old.items ++ steps_at_point (map seen_act acts.now) point) }
{
    let Some((act, rest)) = acts.split_first() else {
        return Ok(());
    };
    if act.point.is(point) {
        own.extend_from_slice(act.line.steps)?;
    }
    push_at_point(own, rest, point)
}

/// The steps of a `vread` in three parts: the steps before its points `Start` and `Written`, the steps from there to
/// its points `Serve` and `End`, and the steps after these.
pub(crate) fn cut(steps: &[Step]) -> (&[Step], &[Step], &[Step])
    ensures looks { result.0.now ≡ take 2 steps.now }
    ensures rekey { result.1.now ≡ (cut_after_rekey (drop 2 steps.now)).0 }
    ensures rest { result.2.now ≡ (cut_after_rekey (drop 2 steps.now)).1 }
{
    if steps.len() < 2 {
        return (steps, &[], &[]);
    }
    let (looks, following) = steps.split_at(2);
    let (rekey, rest) = following.split_at(rekey_end(following));
    (looks, rekey, rest)
}

fn push_vread(own: &mut Vec<Step>, steps: &[Step], acts: &[ActLine<'_>]) -> Result<(), AllocError>
    ensures { OnOk result (own.new.items ≡ own.old.items ++ vread_steps steps.now (map seen_act acts.now)) }
{
    let (looks, rekey, rest) = cut(steps);
    own.extend_from_slice(looks)?;
    push_at_point(own, acts, Point::Start)?;
    push_at_point(own, acts, Point::Written)?;
    own.extend_from_slice(rekey)?;
    push_at_point(own, acts, Point::Serve)?;
    push_at_point(own, acts, Point::End)?;
    own.extend_from_slice(rest)?;
    Ok(())
}

fn push_call(own: &mut Vec<Step>, call: &CalledLines<'_>) -> Result<(), AllocError>
    ensures { OnOk result (own.new.items ≡ own.old.items ++ call_steps (seen_call call.now)) }
{
    match call {
        CalledLines::Alone { line, .. } | CalledLines::Ending(line) => own.extend_from_slice(
            line.steps,
        ),
        CalledLines::Unbound(act) => own.extend_from_slice(act.line.steps),
        CalledLines::Vread { line, acts, .. } => push_vread(own, line.steps, acts),
    }
}

// Adds the fork that the call makes, if there is one. Before the call, the parent made `calls` calls and `steps` steps.
fn push_fork(
    forks: &mut Vec<Fork>,
    parent: u32,
    calls: usize,
    steps: usize,
    call: &CalledLines<'_>,
) -> Result<(), AllocError>
    requires { steps < 2 ^ 63 }
    ensures { OnOk result (forks.new.items ≡ forks.old.items ++ fork_here parent calls steps (seen_call call.now)) }
{
    match call {
        CalledLines::Alone { event, line } => match event {
            Event::Fork { child } => {
                forks.push(Fork {
                    parent,
                    child: *child,
                    calls,
                    steps: steps + first_visit_end(line.steps),
                })?;
                Ok(())
            }
            _ => Ok(()),
        },
        _ => Ok(()),
    }
}

/// A caller's own steps, in the order in which it made them.
///
/// # Errors
///
/// `AllocError` if there is no memory for them.
pub(crate) fn own_steps(alloc: Global, calls: &[CalledLines<'_>]) -> Result<Vec<Step>, AllocError>
    ensures { IfOk result (λ own. own.items ≡ calls_steps (map seen_call calls.now)) }
{
    let mut own = Vec::new(alloc);
    for call in calls {
        push_call(&mut own, call)?;
    }
    Ok(own)
}

/// For each caller, its own steps in the order in which it made them.
///
/// # Errors
///
/// `AllocError` if there is no memory for them.
pub fn all_own_steps(
    alloc: Global,
    callers: &[Vec<CalledLines<'_>>],
) -> Result<Vec<Vec<Step>>, AllocError>
    ensures { IfOk result (λ owns. map (λ own. own.items) owns.items ≡ map calls_steps (seen_calls callers.now)) }
{
    let mut owns = Vec::new(alloc);
    for calls in callers {
        owns.push(own_steps(alloc, calls)?)?;
    }
    Ok(owns)
}

fn is_fork(call: &CalledLines<'_>) -> bool
    ensures { result ≡ is_fork (seen_call call.now) }
{
    match call {
        CalledLines::Alone { event, .. } => matches!(event, Event::Fork { .. }),
        _ => false,
    }
}

// Whether one of these calls is a fork.
fn has_fork(calls: &[CalledLines<'_>]) -> bool
    ensures { result ≡ list_any (λ call. is_fork (seen_call call)) calls.now }
{
    calls.iter().any(|call| is_fork(call))
}

// Adds the forks that a caller makes to `forks`. Steps are counted only for a caller with forks.
fn push_forks(
    alloc: Global,
    caller: u32,
    calls: &[CalledLines<'_>],
    forks: &mut Vec<Fork>,
) -> Result<(), AllocError>
    ensures { OnOk result (forks.new.items ≡ forks.old.items ++ forks_in caller 0 0 (map seen_call calls.now)) }
{
    if !has_fork(calls) {
        return Ok(());
    }
    let mut own = Vec::new(alloc);
    for (number, call) in calls.iter().enumerate() {
        push_fork(forks, caller, number, own.len(), call)?;
        push_call(&mut own, call)?;
    }
    Ok(())
}

/// All forks among the calls of these callers.
///
/// # Errors
///
/// `AllocError` if there is no memory for them.
pub(crate) fn all_forks(
    alloc: Global,
    callers: &[Vec<CalledLines<'_>>],
) -> Result<Vec<Fork>, AllocError>
    requires { length callers.now ≤ 64 }
    ensures { IfOk result (λ forks. forks.items ≡ all_forks 0 (seen_calls callers.now)) }
{
    let mut forks = Vec::new(alloc);
    for (caller, calls) in callers.iter().enumerate() {
        push_forks(alloc, caller as u32, calls, &mut forks)?;
    }
    Ok(forks)
}

/// The fork that makes the caller `child`, if there is one.
pub fn front_of(forks: &[Fork], child: usize) -> Option<Fork>
    ensures { result ≡ front_in child forks.now }
{
    for fork in forks {
        if fork.child as usize == child {
            return Some(*fork);
        }
    }
    None
}

/// Whether the caller forks another one.
pub(crate) fn is_parent(forks: &[Fork], caller: usize) -> bool
    ensures { result ≡ is_parent_in caller forks.now }
{
    forks.iter().any(|fork| fork.parent as usize == caller)
}
