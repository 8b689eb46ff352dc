//! Goes through a caller's calls in order. Makes the answer and data of each line, and keeps the caller's vgetrandom
//! states.
ghost use Rattle.std.specs.Prelude.{◌≡◌, List, [], map, IfOk, IfSome, IsSome, MatchOption};
ghost use Rattle.std.specs.List.{AllByRecursion};
ghost use Rattle.key_names.specs.declared.events.Event.{Event};
ghost use Rattle.key_names.specs.Lanes.Book.{Lists as BookLists, LawfulLanes};
ghost use Rattle.key_names.specs.Callers.Calls.{Setting as CallSetting, alone, unbound, ending};
ghost use Rattle.key_names.specs.Callers.Meaning.{CallMeaning};
ghost use Rattle.key_names.specs.Transcripts.IsTranscript.{CallerMeans};
ghost use Rattle.key_names.specs.Transcripts.SeenLine.{SeenLine};
ghost use Rattle.judge_lines.specs.Called.{seen_act, seen_call};
ghost use Rattle.judge_lines.specs.Seen.{seen_bare};
ghost use Rattle.judge_lines.specs.Settings.{settings_from};
ghost use Rattle.judge_log.specs.Kept.{Keeps};
ghost use Rattle.judge_log.specs.Filled.{CallsFill};
ghost use Rattle.judge_log.specs.Said.{IsSaid, NotedAt, AreCallsOf, StateInRange, CallInRange};
ghost use Rattle.judge_log.specs.Writes.{Write, Written};
ghost use Rattle.judge_log.specs.CallSays.{VStates, first_states, IsCallSaid, CallsSaid};

use crate::Lists;
use crate::events::{alone_said, end_conforms, unused};
use crate::met::LineSpace;
use crate::notes::Notes;
use crate::said::{MadeLine, Note, ShownRecipe};
use crate::states::ReplayedStates;
use crate::vreads::Asked;
use crate::walk::CallerWalk;
use judge_lines::bare::BareLine;
use judge_lines::called::{ActLine, CalledLines};
use judge_lines::setting::LineSetting;
use key_names::{Answer, Event};
use std::alloc::{AllocError, Global};

impl<N: Note> CallerWalk<'_, N> {
    // Handles a single event. Returns whether the steps of its line match a form of the event.
    fn alone(
        &mut self,
        set: &LineSetting,
        event: &Event,
        line: BareLine<'_>,
    ) -> Result<bool, AllocError>
        requires { StateInRange event.now }
        ensures lists { self.new.lists ≡ self.old.lists }
        ensures notes { self.new.notes ≡ record self.old.notes { noted = self.new.notes.noted } }
        ensures said { IfOk result (IsCallSaid (N.IsNoted self.old.notes.how.now self.old.notes.caller)
            self.old.lists.now set.now (alone event.now (seen_bare line.entry))
            self.old.states self.new.states self.old.notes.noted.items self.new.notes.noted.items) }
    {
        let Some(one) = alone_said(&mut self.room, self.lists, set, event, line.steps)? else {
            return Ok(false);
        };
        self.states.turn(event);
        self.notes.put(line.event, one)?;
        Ok(true)
    }

    // Handles an act that no `vread` follows. Such an act is not done. Returns whether the act's line has no steps.
    fn unbound(&mut self, bound: &ActLine<'_>) -> Result<bool, AllocError>
        ensures lists { self.new.lists ≡ self.old.lists }
        ensures notes { self.new.notes ≡ record self.old.notes { noted = self.new.notes.noted } }
        ensures said { IfOk result (λ conforms. (set : CallSetting) →
            IsCallSaid (N.IsNoted self.old.notes.how.now self.old.notes.caller)
            self.old.lists.now set (unbound (seen_act bound.now))
            self.old.states self.new.states self.old.notes.noted.items self.new.notes.noted.items conforms) }
    {
        if !bound.line.steps.is_empty() {
            return Ok(false);
        }
        self.notes.put(bound.line.event, unused())?;
        Ok(true)
    }

    // Handles a caller's last line. Returns whether the line's steps match a form of the caller's end.
    fn ending(&mut self, set: &LineSetting, line: BareLine<'_>) -> Result<bool, AllocError>
        ensures lists { self.new.lists ≡ self.old.lists }
        ensures notes { self.new.notes ≡ record self.old.notes { noted = self.new.notes.noted } }
        ensures said { IfOk result (IsCallSaid (N.IsNoted self.old.notes.how.now self.old.notes.caller)
            self.old.lists.now set.now (ending (seen_bare line.entry))
            self.old.states self.new.states self.old.notes.noted.items self.new.notes.noted.items) }
    {
        if !end_conforms(&mut self.room, self.lists, set, line.steps)? {
            return Ok(false);
        }
        self.notes.put(
            line.event,
            MadeLine {
                answer: Answer::Ok,
                shows: ShownRecipe::Nothing,
            },
        )?;
        Ok(true)
    }

    // Handles one call. Returns whether the steps of its lines match a form of the call.
    fn call(&mut self, set: &LineSetting, call: &CalledLines<'_>) -> Result<bool, AllocError>
        requires { CallInRange (seen_call call.now) }
        ensures lists { self.new.lists ≡ self.old.lists }
        ensures notes { self.new.notes ≡ record self.old.notes { noted = self.new.notes.noted } }
        ensures said { IfOk result (IsCallSaid (N.IsNoted self.old.notes.how.now self.old.notes.caller)
            self.old.lists.now set.now (seen_call call.now)
            self.old.states self.new.states self.old.notes.noted.items self.new.notes.noted.items) }
    {
        match call {
            CalledLines::Alone { event, line } => self.alone(set, event, *line),
            CalledLines::Vread {
                len,
                flags,
                line,
                acts,
            } => self.vread(
                set,
                Asked {
                    len: *len,
                    flags: *flags,
                },
                *line,
                acts,
            ),
            CalledLines::Unbound(bound) => self.unbound(bound),
            CalledLines::Ending(line) => self.ending(set, *line),
        }
    }
}

// Handles all calls of a caller in sequence.
fn calls_said<N: Note>(
    alloc: Global,
    calls: &[CalledLines<'_>],
    settings: &[LineSetting],
    lists: &Lists,
    how: &N,
    caller: u32,
) -> Result<Option<Vec<N::Noted>>, AllocError>
    requires in_range { AllByRecursion CallInRange (map seen_call calls.now) }
    ensures { IfOk result (λ o. MatchOption o
        ((t : VStates) (writes : List Write) →
        CallsSaid lists.now settings.now (map seen_call calls.now) first_states t writes → ⊥)
        (λ noted. (t : VStates) × (writes : List Write)
        × CallsSaid lists.now settings.now (map seen_call calls.now) first_states t writes
        × Written (N.IsNoted how.now caller) writes [] noted.items)) }
{
    let mut walk = CallerWalk {
        lists,
        states: ReplayedStates::new(alloc)?,
        room: LineSpace::new(alloc),
        notes: Notes {
            how,
            caller,
            noted: Vec::new(alloc),
        },
    };
    for (call, set) in calls.iter().zip(settings) {
        if !walk.call(set, call)? {
            return Ok(None);
        }
    }
    Ok(Some(walk.notes.noted))
}

/// The notes of a caller's lines, indexed by event number. `None` if the steps of some line match no form of its call.
///
/// # Errors
///
/// `AllocError` if there is no memory for the notes.
pub fn caller_said<N: Note>(
    alloc: Global,
    calls: &[CalledLines<'_>],
    settings: &[LineSetting],
    lists: &Lists,
    how: &N,
    caller: u32,
) -> Result<Option<Vec<N::Noted>>, AllocError>
    requires in_range { AllByRecursion CallInRange (map seen_call calls.now) }
    ensures some { (book : BookLists) (set : CallSetting) (events : List Event) (lines : List SeenLine) →
        Keeps lists.now book → LawfulLanes book → AreCallsOf events lines (map seen_call calls.now) →
        settings.now ≡ settings_from set (map seen_call calls.now) → CallsFill book set (map seen_call calls.now) →
        IfOk result (λ o. IfSome o (λ noted. IsSaid book set (map seen_call calls.now)
        (NotedAt (N.IsNoted how.now caller) noted.items))) }
    ensures only { (book : BookLists) (set : CallSetting) (events : List Event) (lines : List SeenLine)
        (ms : List CallMeaning) →
        Keeps lists.now book → LawfulLanes book → AreCallsOf events lines (map seen_call calls.now) →
        settings.now ≡ settings_from set (map seen_call calls.now) →
        CallerMeans book set (map seen_call calls.now) ms →
        IfOk result (λ o. IsSome o) }
{
    calls_said(alloc, calls, settings, lists, how, caller)
}
