//! A plan has all memory of a run, taken before the run. After the run, the lines of all callers are gathered from it.
ghost use Rattle.std.specs.Prelude.{◌≡◌, ◌<◌, ◌≤◌, length, IfOk};
ghost use Rattle.key_names.specs.Texts.ScriptGrammar.{Script, WellFormed};
ghost use Rattle.caller_run.specs.ForkTree.{emitted_by};
ghost use Rattle.caller_run.specs.Plans.{HaveSlots, IsPlanFor, IsNewRoom, lines_in, put_in};
ghost use Rattle.caller_run.specs.Layouts.{layout};
ghost use Rattle.caller_run.specs.RunningCallers.{IsNewBuffers};

use crate::forking::rooms::{Buffers, Room};
use crate::making::states::States;
use crate::output::logs::{Log, Needs};
use event_script::Script;
use key_names::Event;
use std::alloc::{AllocError, Global};
use transcript_text::CallerLines;

/// All memory of a run: a room for each caller, in the tree of the forks, and a slot for each caller's lines.
#[derive(Drop)]
pub struct Plan {
    pub(crate) root: Room,
    pub(crate) slots: Vec<CallerLines>,
}

impl Buffers {
    // Buffers for these events.
    fn for_events(alloc: Global, events: &[Event]) -> Result<Buffers, AllocError>
        requires { length events.now ≤ 65536 }
        ensures { IfOk result (λ buffers. IsNewBuffers buffers events.now) }
    {
        let needs = Needs::of(events);
        Ok(Buffers {
            log: Log::for_events(alloc, events.len(), needs.shown)?,
            served: vec![in alloc; 0; needs.longest as usize]?,
            inside: vec![in alloc; 0; needs.inside as usize]?,
        })
    }

    // Takes the lines out of the buffers, and frees the other memory.
    fn into_lines(self) -> CallerLines
        ensures { result ≡ self.log.lines }
    {
        let Buffers {
            log,
            served: _,
            inside: _,
        } = self;
        let Log {
            lines,
            acts: _,
            trace: _,
        } = log;
        lines
    }
}

impl Room {
    // The room of a caller, with the rooms of all callers that it forks.
    fn prepare(alloc: Global, script: &Script, caller: u32) -> Result<Room, AllocError>
        requires well { WellFormed script.now }
        requires there { caller < length script.now.callers }
        ensures { IfOk result (λ room. IsNewRoom script.now.callers caller (layout room)) }
    {
        let events = script.events(caller);
        let buffers = Buffers::for_events(alloc, events)?;
        let mut kids = Vec::new(alloc);
        let mut rest = events;
        while let Some((event, front)) = rest.split_last() {
            if let Event::Fork { child } = event {
                let kid = Room::prepare(alloc, script, *child)?;
                kids.push(kid)?;
            }
            rest = front;
        }
        let states = States::boxed(alloc)?;
        Ok(Room::with(caller, buffers, kids, states))
    }
}

impl Plan {
    /// All memory of a script's run.
    ///
    /// # Errors
    ///
    /// `AllocError` if there is no memory for it.
    pub fn make(alloc: Global, script: &Script) -> Result<Plan, AllocError>
        requires { WellFormed script.now }
        ensures { IfOk result (λ plan. IsPlanFor script.now plan) }
    {
        let root = Room::prepare(alloc, script, 0)?;
        let mut slots = Vec::new(alloc);
        for _ in 0..script.callers() {
            slots.push(CallerLines::with_room(alloc, 0, 0, 0)?)?;
        }
        Ok(Plan { root, slots })
    }

    /// The room of caller 0, with the rooms of all other callers in it.
    pub fn root(self) -> Room
        ensures { (script : Script) → IsPlanFor script self → IsNewRoom script.callers 0 (layout result) }
    {
        let Plan { root, slots: _ } = self;
        root
    }
}

/// Puts the lines of a caller, and of all callers that it forked, into their slots. This takes no memory.
pub(crate) fn gather(slots: &mut [CallerLines], room: Room)
    requires { HaveSlots (length slots.old) (emitted_by (layout room)) }
    ensures { lines_in slots.new ≡ put_in (lines_in slots.old) (emitted_by (layout room)) }
{
    let (caller, buffers, mut kids, _states) = room.open();
    slots[caller as usize] = buffers.into_lines();
    while let Some(kid) = kids.pop() {
        gather(slots, kid);
    }
}
