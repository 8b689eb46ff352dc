//! The vgetrandom states of a caller.
ghost use Rattle.std.specs.Prelude.{◌≡◌, ◌<◌, IfOk, replicate, slice_set};
ghost use Rattle.key_names.specs.Callers.Calls.{Setting, setting_after};
ghost use Rattle.key_names.specs.Callers.Meaning.{caller_after};
ghost use Rattle.key_names.specs.Kernel.VgetrandomState.{wiped_state};
ghost use Rattle.caller_run.specs.Calling.{caller_at};

use key_names::Event;
use std::alloc::{AllocError, Global};
use std::array;
use vdso_state::VState;

/// The sixteen vgetrandom states of a caller, and the number of the state that the caller reads from.
#[derive(Drop)]
pub(crate) struct States {
    pub(crate) all: [VState; 16],
    pub(crate) current: u32,
}

impl States {
    /// Sixteen wiped states; the first is current.
    pub(crate) fn wiped() -> States
        ensures { result ≡ record { all = replicate 16 wiped_state; current = 0 } }
    {
        States {
            all: array::from_fn(|_| VState::wiped()),
            current: 0,
        }
    }

    /// Sixteen wiped states on the heap.
    ///
    /// # Errors
    ///
    /// `AllocError` if there is no memory for them.
    // Not inlined, so that the states are not in the stack frames of the functions that call it. One of these is
    // recursive.
    #[inline(never)]
    pub(crate) fn boxed(alloc: Global) -> Result<Box<States>, AllocError>
        ensures { IfOk result (λ states. states.value ≡ record { all = replicate 16 wiped_state; current = 0 }) }
    {
        Ok(Box::new(alloc, States::wiped())?)
    }

    /// Wipes all states, and makes the first current.
    #[inline(never)]
    pub(crate) fn wipe(&mut self)
        ensures { self.new ≡ record { all = replicate 16 wiped_state; current = 0 } }
    {
        *self = States::wiped();
    }

    fn wipe_current(&mut self)
        requires { self.old.current < 16 }
        ensures { self.new ≡ record self.old { all = slice_set self.old.all self.old.current wiped_state } }
    {
        self.all[self.current as usize].wipe();
    }

    /// Changes the states as the event itself requires, apart from its call: `drop` wipes the current state, and
    /// `state` makes another state current.
    pub(crate) fn go_on(&mut self, event: &Event)
        requires { self.old.current < 16 }
        ensures { (set : Setting)
            → caller_at (setting_after set event.now) self.new ≡ caller_after (caller_at set self.old) event.now }
    {
        match event {
            Event::Drop => self.wipe_current(),
            Event::State { number } => self.current = *number,
            _ => {}
        }
    }
}
