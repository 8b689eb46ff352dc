//! A value, a number or `None`, that is carried along the steps of each caller's order. It is `None` at first, and each
//! step may change it. A child begins with its parent's value at the fork.
ghost use Rattle.std.specs.Prelude.{◌≡◌, ◌↔◌, ◌<◌, ℕ, [], ◌∷◌, true, IsTrue, IfOk, Option, None, map};
ghost use Rattle.std.specs.Bool.{OnTrue};
ghost use Rattle.std.specs.List.{AllByRecursion};
ghost use Rattle.key_names.specs.declared.names.Step.{Step};
ghost use Rattle.key_names.specs.Callers.History.{call_steps, calls_steps, caller_orders, steps_at_point, vread_steps};
ghost use Rattle.judge_lines.specs.Called.{seen_act, seen_call, seen_calls};
ghost use Rattle.judge_lines.specs.Orders.{all_forks, front_in};
ghost use Rattle.judge_lines.specs.Along.{Along, AreAlong, HasGone, begin_in};

use crate::called::{ActLine, CalledLines};
use crate::order::{Fork, cut, front_of, is_parent, own_steps};
use key_names::{Point, Step};
use std::alloc::{AllocError, Global};

/// A rule for a value that is carried along steps: how each step changes the value, and which steps are allowed after a
/// value. The value is a number or `None`.
pub trait Carry {
    /// The value after a step, from the value before the step.
    ghost after: { Self → Option ℕ → Step → Option ℕ };

    /// The step is allowed after this value.
    ghost MayFollow: { Self → Option ℕ → Step → Type 0 };

    fn may_follow(&self, carried: Option<u64>, step: Step) -> bool
        ensures { IsTrue result ↔ MayFollow self.now carried step };

    fn after(&self, carried: Option<u64>, step: Step) -> Option<u64>
        ensures { result ≡ after self.now carried step };
}

/// A walk along some steps: the value carried so far, and whether each step so far was allowed after the value before
/// it.
#[derive(Clone, Copy)]
pub(crate) struct OrderWalk {
    pub(crate) carried: Option<u64>,
    pub(crate) follows: bool,
}

impl OrderWalk {
    fn from(start: Option<u64>) -> OrderWalk
        ensures carried { result.carried ≡ start }
        ensures follows { result.follows ≡ true }
    {
        OrderWalk {
            carried: start,
            follows: true,
        }
    }

    // Advances the walk by one step.
    fn pass<C: Carry>(&mut self, carry: &C, step: Step)
        ensures { HasGone (C.after carry.now) (C.MayFollow carry.now) self.old (step ∷ []) self.new }
    {
        self.follows = self.follows && carry.may_follow(self.carried, step);
        self.carried = carry.after(self.carried, step);
    }

    // Advances the walk by the steps `steps`, one after the other.
    fn go<C: Carry>(&mut self, carry: &C, steps: &[Step])
        ensures { HasGone (C.after carry.now) (C.MayFollow carry.now) self.old steps.now self.new }
    {
        for step in steps {
            self.pass(carry, *step);
        }
    }

    // Advances the walk by the steps of the acts at a point.
    fn go_at_point<C: Carry>(&mut self, carry: &C, acts: &[ActLine<'_>], point: Point)
        ensures { HasGone (C.after carry.now) (C.MayFollow carry.now) self.old
            (steps_at_point (map seen_act acts.now) point) self.new }
    {
        let Some((act, rest)) = acts.split_first() else {
            return;
        };
        if act.point.is(point) {
            self.go(carry, act.line.steps);
        }
        self.go_at_point(carry, rest, point);
    }

    // Advances the walk by the steps of a `vread` and of the acts inside it.
    fn go_vread<C: Carry>(&mut self, carry: &C, steps: &[Step], acts: &[ActLine<'_>])
        ensures { HasGone (C.after carry.now) (C.MayFollow carry.now) self.old
            (vread_steps steps.now (map seen_act acts.now)) self.new }
    {
        let (looks, rekey, rest) = cut(steps);
        self.go(carry, looks);
        self.go_at_point(carry, acts, Point::Start);
        self.go_at_point(carry, acts, Point::Written);
        self.go(carry, rekey);
        self.go_at_point(carry, acts, Point::Serve);
        self.go_at_point(carry, acts, Point::End);
        self.go(carry, rest);
    }

    // Advances the walk by the steps of a call.
    fn go_call<C: Carry>(&mut self, carry: &C, call: &CalledLines<'_>)
        ensures { HasGone (C.after carry.now) (C.MayFollow carry.now) self.old (call_steps (seen_call call.now)) self.new }
    {
        match call {
            CalledLines::Alone { line, .. } | CalledLines::Ending(line) => self.go(
                carry, line.steps,
            ),
            CalledLines::Unbound(act) => self.go(carry, act.line.steps),
            CalledLines::Vread { line, acts, .. } => self.go_vread(carry, line.steps, acts),
        }
    }
}

// Whether each step of these calls is allowed after the value carried to it. The value before the first step is
// `start`.
fn may_go<C: Carry>(carry: &C, start: Option<u64>, calls: &[CalledLines<'_>]) -> bool
    ensures { IsTrue result ↔ Along (C.after carry.now) (C.MayFollow carry.now) start
        (calls_steps (map seen_call calls.now)) }
{
    let mut walk = OrderWalk::from(start);
    for call in calls {
        walk.go_call(carry, call);
    }
    walk.follows
}

// The value after each prefix of these steps, beginning with the empty prefix. The value before the first step is
// `start`.
fn along<C: Carry>(
    alloc: Global,
    carry: &C,
    start: Option<u64>,
    steps: &[Step],
) -> Result<Vec<Option<u64>>, AllocError>
    ensures { IfOk result (λ kept. AreAlong (C.after carry.now) start steps.now kept.items) }
{
    let mut kept = Vec::with_capacity(alloc, steps.len() + 1)?;
    let mut carried = start;
    for step in steps {
        kept.push(carried)?;
        carried = carry.after(carried, *step);
    }
    kept.push(carried)?;
    Ok(kept)
}

// If the caller forks another caller, the values after each prefix of its own steps. Otherwise no values.
fn kept_of<C: Carry>(
    alloc: Global,
    carry: &C,
    start: Option<u64>,
    calls: &[CalledLines<'_>],
    is_parent: bool,
) -> Result<Vec<Option<u64>>, AllocError>
    ensures { IfOk result (λ kept. OnTrue is_parent
        (AreAlong (C.after carry.now) start (calls_steps (map seen_call calls.now)) kept.items)) }
{
    if is_parent {
        along(alloc, carry, start, &own_steps(alloc, calls)?)
    } else {
        Ok(Vec::new(alloc))
    }
}

// The value that a caller begins with: its parent's value at the fork, or `None` if the caller has no fork.
fn start_of(forks: &[Fork], kept: &[Vec<Option<u64>>], caller: usize) -> Option<u64>
    ensures { result ≡ begin_in kept.now (front_in caller forks.now) }
{
    let fork = front_of(forks, caller)?;
    let parent = kept.get(fork.parent as usize)?;
    *parent.get(fork.steps)?
}

/// Whether each step of each caller is allowed after the value that is carried to it along the caller's order.
///
/// # Errors
///
/// `AllocError` if there is no memory for the values.
pub fn all_may_follow<C: Carry>(
    alloc: Global,
    callers: &[Vec<CalledLines<'_>>],
    forks: &[Fork],
    carry: &C,
) -> Result<bool, AllocError>
    requires forks { forks.now ≡ all_forks 0 (seen_calls callers.now) }
    requires above { AllByRecursion (λ fork. fork.parent < fork.child) forks.now }
    ensures { IfOk result (λ holds. IsTrue holds ↔ AllByRecursion (Along (C.after carry.now) (C.MayFollow carry.now) None)
        (caller_orders (seen_calls callers.now))) }
{
    let mut kept = Vec::with_capacity(alloc, callers.len())?;
    for (caller, calls) in callers.iter().enumerate() {
        let start = start_of(forks, &kept, caller);
        if !may_go(carry, start, calls) {
            return Ok(false);
        }
        let is_parent = is_parent(forks, caller);
        kept.push(kept_of(alloc, carry, start, calls, is_parent)?)?;
    }
    Ok(true)
}
