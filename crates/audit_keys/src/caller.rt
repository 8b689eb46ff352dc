//! The vgetrandom states of a caller, call by call.
ghost use Rattle.std.specs.Prelude.{◌≡◌, ◌++◌, OnOk};
ghost use Rattle.audit_keys.specs.Stamped.{left_by};

use crate::entry::{CallEnd, StateEntry};
use crate::leaving::Leaving;
use crate::outline::Outline;
use crate::stamps::end_of;
use judge_lines::called::CalledLines;
use key_names::{Event, VEntry};
use std::alloc::{AllocError, Global};
use std::marker::Model;

/// How many vgetrandom states a caller has.
const STATES: usize = 16;

// Appends the entries `left` of a call to a list. Each gets the number of the call and the call's end.
fn put_after(
    list: &mut Vec<StateEntry>,
    left: &[VEntry],
    call: usize,
    end: CallEnd,
) -> Result<(), AllocError>
    ensures { OnOk result (list.new.items ≡ list.old.items ++ left_by call end left.now) }
{
    for entry in left {
        list.push(StateEntry {
            entry: *entry,
            call,
            end,
        })?;
    }
    Ok(())
}

/// The sixteen vgetrandom states of a caller: the outline and the list so far of each state, and the number of the
/// current state. The struct also has the stamp of the caller's last visit.
#[derive(Drop)]
pub(crate) struct AuditedCaller {
    outlines: Vec<Outline>,
    lists: Vec<Vec<StateEntry>>,
    current: usize,
    stamp: u64,
}

impl Model for AuditedCaller {
    ghost use Rattle.audit_keys.specs.Stamped.{States, kept_lists};

    ghost Value = { States };

    ghost view = { λ s. record {
      outlines = record { each = s.outlines.items; current = s.current };
      lists = kept_lists s.lists.items;
      stamp = s.stamp;
    } };
}

impl AuditedCaller {
    ghost use Rattle.std.specs.Prelude.{◌≡◌, ◌++◌, IfOk, OnOk, slice_set};
    ghost use Rattle.judge_lines.specs.Called.{seen_call};
    ghost use Rattle.audit_keys.specs.Callers.{current_outline, with_outline};
    ghost use Rattle.audit_keys.specs.Stamped.{States, first_states, current_list, left_by, left_over, kept_lists};
    ghost use Rattle.audit_keys.specs.Stamped.{states_after, states_after_event};

    /// A caller that has made no call yet. `stamp` is the stamp of the last visit that the caller's ancestors made
    /// before the caller's start.
    ///
    /// # Errors
    ///
    /// `AllocError` if there is no memory for the states.
    pub(crate) fn start(alloc: Global, stamp: u64) -> Result<AuditedCaller, AllocError>
        ensures { IfOk result (λ caller. caller ≡ first_states stamp) }
    {
        let mut outlines = Vec::with_capacity(alloc, STATES)?;
        let mut lists = Vec::with_capacity(alloc, STATES)?;
        while lists.len() < STATES {
            outlines.push(Outline::wiped())?;
            lists.push(Vec::new(alloc))?;
        }
        Ok(AuditedCaller {
            outlines,
            lists,
            current: 0,
            stamp,
        })
    }

    fn outline(&self) -> Outline
        ensures { result ≡ current_outline self.now.outlines }
    {
        match self.outlines.get(self.current) {
            Some(outline) => *outline,
            None => Outline::wiped(),
        }
    }

    fn set_outline(&mut self, outline: Outline)
        ensures { self.new ≡ record self.old { outlines = with_outline self.old.outlines outline } }
    {
        if self.current < self.outlines.len() {
            self.outlines[self.current] = outline;
        }
    }

    fn put(&mut self, left: &[VEntry], call: usize, end: CallEnd) -> Result<(), AllocError>
        ensures { OnOk result (self.new ≡ record self.old {
          lists = slice_set self.old.lists self.old.outlines.current
              (current_list self.old ++ left_by call end left.now);
        }) }
    {
        if self.current >= self.lists.len() {
            return Ok(());
        }
        put_after(&mut self.lists[self.current], left, call, end)?;
        Ok(())
    }

    // Keeps the outline and the entries that a call left for the current state; the call has this number and this end.
    fn keep(&mut self, left: &Leaving, call: usize, end: CallEnd) -> Result<(), AllocError>
        ensures { OnOk result (self.new ≡ left_over call end left.now self.old) }
    {
        self.stamp = end.stamp;
        self.set_outline(left.outline());
        self.put(left.entries(), call, end)
    }

    // Adds a call with this number and this end. The call is a single event.
    fn event(
        &mut self,
        alloc: Global,
        event: &Event,
        call: usize,
        end: CallEnd,
    ) -> Result<(), AllocError>
        ensures { OnOk result (self.new ≡ states_after_event call end self.old event.now) }
    {
        match event {
            Event::Drop => {
                let mut left = Leaving::begin(alloc, self.outline());
                left.wipe()?;
                self.keep(&left, call, end)?;
            }
            Event::State { number } => self.current = *number as usize,
            _ => {}
        }
        self.stamp = end.stamp;
        Ok(())
    }

    /// Adds a call, which has this number among the caller's calls.
    ///
    /// # Errors
    ///
    /// `AllocError` if there is no memory for the entries that the call leaves.
    pub(crate) fn call(
        &mut self,
        alloc: Global,
        number: usize,
        call: &CalledLines<'_>,
    ) -> Result<(), AllocError>
        ensures { OnOk result (self.new ≡ states_after number self.old (seen_call call.now)) }
    {
        let end = end_of(self.stamp, call);
        match call {
            CalledLines::Alone { event, .. } => self.event(alloc, event, number, end),
            CalledLines::Vread {
                len,
                flags,
                line,
                acts,
            } => {
                let mut left = Leaving::begin(alloc, self.outline());
                left.vread(*len, *flags, acts, line.steps)?;
                self.keep(&left, number, end)
            }
            CalledLines::Unbound(_) | CalledLines::Ending(_) => {
                self.stamp = end.stamp;
                Ok(())
            }
        }
    }

    /// The list of each state.
    pub(crate) fn lists(self) -> Vec<Vec<StateEntry>>
        ensures { kept_lists result.items ≡ self.lists }
    {
        self.lists
    }
}
