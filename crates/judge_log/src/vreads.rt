//! Handles a `vread` with the acts inside it.
ghost use Rattle.std.specs.Prelude.{◌≡◌, ◌^◌, ◌≤◌, IfOk, MatchBool, map};
ghost use Rattle.std.specs.List.{AllByRecursion};
ghost use Rattle.key_names.specs.Callers.Calls.{vread_call};
ghost use Rattle.judge_lines.specs.Called.{seen_act};
ghost use Rattle.judge_lines.specs.Seen.{seen_bare};
ghost use Rattle.judge_vread.specs.Inside.{inside_of};
ghost use Rattle.judge_log.specs.Writes.{Written};
ghost use Rattle.judge_log.specs.CallSays.{ActDone, act_write, IsCallSaid};

use crate::events::act_said;
use crate::met::{put_met, put_seen};
use crate::said::{MadeLine, Note, ShownRecipe};
use crate::walk::CallerWalk;
use judge_lines::bare::BareLine;
use judge_lines::called::ActLine;
use judge_lines::setting::LineSetting;
use judge_vread::inside::{Inside, Reached};
use std::alloc::AllocError;

/// The number of bytes that a `vread` wants, and its flags.
#[derive(Clone, Copy)]
pub struct Asked {
    pub len: u32,
    pub flags: u32,
}

// How the acts inside a `vread` change the `vread`'s state.
fn inside_of(acts: &[ActLine<'_>]) -> Inside
    ensures { result ≡ inside_of (map seen_act acts.now) }
{
    let mut inside = Inside::none();
    for bound in acts {
        inside.add(bound.point, bound.act);
    }
    inside
}

impl<N: Note> CallerWalk<'_, N> {
    // Notes the answer and data of each act, which depend on the points that the `vread` reached. Returns whether the
    // steps of each act match a form of the act.
    fn acts(
        &mut self,
        set: &LineSetting,
        reached: Reached,
        acts: &[ActLine<'_>],
    ) -> Result<bool, AllocError>
        ensures lists { self.new.lists ≡ self.old.lists }
        ensures states { self.new.states ≡ self.old.states }
        ensures notes { self.new.notes ≡ record self.old.notes { noted = self.new.notes.noted } }
        ensures said { IfOk result (λ conform. MatchBool conform
            (AllByRecursion (ActDone self.old.lists.now set.now reached) (map seen_act acts.now)
            × Written (N.IsNoted self.old.notes.how.now self.old.notes.caller)
            (map (act_write self.old.lists.now set.now reached) (map seen_act acts.now))
            self.old.notes.noted.items self.new.notes.noted.items)
            (AllByRecursion (ActDone self.old.lists.now set.now reached) (map seen_act acts.now) → ⊥)) }
    {
        for bound in acts {
            let done = reached.includes(bound.point);
            match act_said(
                &mut self.room,
                self.lists,
                set,
                done,
                bound.act,
                bound.line.steps,
            )? {
                Some(said) => self.notes.put(bound.line.event, said)?,
                None => return Ok(false),
            }
        }
        Ok(true)
    }

    /// Handles a `vread`. Returns whether its steps can be followed as such a `vread`, and the steps of each act inside
    /// it match a form of the act. An act whose point was not reached must have no steps.
    ///
    /// # Errors
    ///
    /// `AllocError` if there is no memory for the steps or the notes.
    pub fn vread(
        &mut self,
        set: &LineSetting,
        asked: Asked,
        line: BareLine<'_>,
        acts: &[ActLine<'_>],
    ) -> Result<bool, AllocError>
        requires short { asked.len ≤ 2 ^ 20 }
        ensures lists { self.new.lists ≡ self.old.lists }
        ensures notes { self.new.notes ≡ record self.old.notes { noted = self.new.notes.noted } }
        ensures said { IfOk result (IsCallSaid (N.IsNoted self.old.notes.how.now self.old.notes.caller)
            self.old.lists.now set.now (vread_call asked.len asked.flags (seen_bare line.entry) (map seen_act acts.now))
            self.old.states self.new.states self.old.notes.noted.items self.new.notes.noted.items) }
    {
        put_met(&mut self.room.met, self.lists, line.steps)?;
        put_seen(&mut self.room.seen, set.cpu(), &self.room.met)?;
        let inside = inside_of(acts);
        let Some(path) = self
            .states
            .follow(asked.len, asked.flags, inside, &self.room.seen)
        else {
            return Ok(false);
        };
        if !self.acts(set, path.reached, acts)? {
            return Ok(false);
        }
        self.notes.put(
            line.event,
            MadeLine {
                answer: path.answer,
                shows: ShownRecipe::Served(path.served),
            },
        )?;
        Ok(true)
    }
}
