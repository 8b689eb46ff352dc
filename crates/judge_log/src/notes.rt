//! The notes of a caller's lines.
ghost use Rattle.std.specs.Prelude.{◌≡◌, IfOk};
ghost use Rattle.judge_log.specs.Writes.{IsPut};

use crate::events::unused;
use crate::said::{MadeLine, Note};
use std::alloc::AllocError;

/// The notes of a caller's lines, indexed by event number, and how they are made.
#[derive(Drop)]
pub struct Notes<'a, N: Note> {
    pub how: &'a N,
    /// The caller's number.
    pub caller: u32,
    pub noted: Vec<N::Noted>,
}

impl<N: Note> Notes<'_, N> {
    #[inline(always)]
    fn note(&self, event: u32, said: MadeLine) -> N::Noted
        ensures { N.IsNoted self.now.how.now self.now.caller event said result }
    {
        self.how.note(self.caller, event, said)
    }

    /// Makes the note of an event's answer and data, and puts it at the event's number.
    ///
    /// # Errors
    ///
    /// `AllocError` if there is no memory for the note.
    #[inline(always)]
    pub fn put(&mut self, event: u32, said: MadeLine) -> Result<(), AllocError>
        ensures same { self.new ≡ record self.old { noted = self.new.noted } }
        ensures put { IfOk result (λ _. IsPut (N.IsNoted self.old.how.now self.old.caller) event said
            self.old.noted.items self.new.noted.items) }
    {
        let place = event as usize;
        let one = self.note(event, said);
        if place == self.noted.len() {
            self.noted.push(one)?;
            return Ok(());
        }
        // Earlier events that have no note yet get the note of an act that was not done. This note is replaced when the
        // event's own note is made.
        while self.noted.len() <= place {
            let none = self.note(self.noted.len() as u32, unused());
            self.noted.push(none)?;
        }
        self.noted[place] = one;
        Ok(())
    }
}
