//! The vgetrandom states of a caller.
ghost use Rattle.judge_log.specs.CallSays.{VStates};

use judge_vread::follow::{VreadPath, follow};
use judge_vread::inside::Inside;
use judge_vread::seen::SeenStep;
use key_names::Event;
use std::alloc::{AllocError, Global};
use std::marker::Model;
use vdso_state::VState;

const STATES: usize = 16;

/// The sixteen vgetrandom states of a caller, one of which is the current one.
#[derive(Drop)]
pub struct ReplayedStates {
    all: Vec<VState>,
    current: usize,
}

impl Model for ReplayedStates {
    ghost use Rattle.std.specs.Prelude.{◌≡◌, ◌<◌, length};
    ghost use Rattle.judge_log.specs.CallSays.{VStates};

    ghost Value = { VStates };

    ghost view = { λ s. record { states = s.all.items; current = s.current } };

    ghost invariant = { λ s. (length s.all.items ≡ 16) × (s.current < 16) };
}

impl ReplayedStates {
    ghost use Rattle.std.specs.Prelude.{◌≡◌, ◌^◌, ◌≤◌, None, Some, IfOk, MatchOption};
    ghost use Rattle.judge_vread.specs.Path.{Followed, followed};
    ghost use Rattle.judge_log.specs.Said.{StateInRange};
    ghost use Rattle.judge_log.specs.CallSays.{first_states, state_of, with_state, states_after};

    /// The states of a caller at its start: all wiped, the first current.
    ///
    /// # Errors
    ///
    /// `AllocError` if there is no memory for the states.
    pub fn new(alloc: Global) -> Result<ReplayedStates, AllocError>
        ensures { IfOk result (λ states. states ≡ first_states) }
    {
        let mut all = Vec::with_capacity(alloc, STATES)?;
        while all.len() < STATES {
            all.push(VState::wiped())?;
        }
        Ok(ReplayedStates { all, current: 0 })
    }

    /// Changes the states as the definition requires for a single event (a wipe, or another current state).
    pub fn turn(&mut self, event: &Event)
        requires { StateInRange event.now }
        ensures { self.new ≡ states_after event.now self.old }
    {
        match event {
            Event::Drop => self.all[self.current].wipe(),
            Event::State { number } => self.current = *number as usize,
            _ => {}
        }
    }

    /// Follows a `vread` on the current state, as [`follow`] does.
    pub fn follow(
        &mut self,
        len: u32,
        flags: u32,
        inside: Inside,
        seen: &[SeenStep],
    ) -> Option<VreadPath>
        requires short { len ≤ 2 ^ 20 }
        ensures { MatchOption result (followed len flags inside (state_of self.old) seen.now ≡ None)
            (λ path. (f : Followed) × (followed len flags inside (state_of self.old) seen.now ≡ Some f)
            × (path ≡ f.path) × (self.new ≡ with_state self.old f.state)) }
    {
        follow(&mut self.all[self.current], len, flags, inside, seen)
    }
}
