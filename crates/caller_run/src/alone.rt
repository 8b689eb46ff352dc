//! The run of a script with one caller, event by event.
ghost use Rattle.std.specs.Prelude.{◌≡◌, ◌≤◌, ◌++◌, ◌∷◌, [], ℕ, List, None, All, slice_get, IfOk, IfSome};
ghost use Rattle.key_names.specs.Transcripts.SeenLine.{SeenLine};
ghost use Rattle.key_names.specs.declared.events.Event.{Event};
ghost use Rattle.key_names.specs.Texts.ScriptGrammar.{Script as SeenScript, WellFormed};
ghost use Rattle.key_names.specs.Texts.TranscriptGrammar.{LineFits};
ghost use Rattle.transcript_text.specs.Views.{seen};
ghost use Rattle.caller_run.specs.Alone.{HasLine, HasMade, HasRoom, IsGoing, IsLawful, IsEmittedByOne, IsEmittedOnce, last_line};
ghost use Rattle.caller_run.specs.Says.{most_shown};

use crate::making::caller::Caller;
use crate::making::states::States;
use crate::output::emitted::EmittedLine;
use crate::output::logs::{is_silent, most_shown};
use crate::output::reply::Reply;
use event_script::Script;
use io_edges::Gate;
use key_names::{Answer, Event, Trace, Word};
use lane_table::Lanes;
use rng_core::Setting;
use std::alloc::{AllocError, Global};
use std::sync::Wait;
use transcript_text::LineView;

// The most bytes that one event may read. A line shows no more bytes than this.
const MOST_SHOWN: u32 = 1 << 20;

/// The run of a script's only caller, on a table of its own. The caller makes each event that it is handed. The event's
/// line is available until the next event is made, and no line is kept.
#[derive(Drop)]
pub struct LoneRun {
    pub(crate) lanes: Lanes,
    pub(crate) caller: Caller,
    pub(crate) trace: Trace,
    pub(crate) served: Vec<u8>,
    pub(crate) recorded: EmittedLine,
}

// The most bytes that a line of these events can show, or `None` if one of the events is an act or a fork.
fn longest_line(events: &[Event]) -> Option<u32>
    ensures none { result ≡ None → All IsEmittedOnce events.now → ⊥ }
    ensures once { IfSome result (λ _. All IsEmittedOnce events.now) }
    ensures longest { IfSome result (λ longest. All (λ event. most_shown event ≤ longest) events.now) }
{
    let mut longest = 0;
    for event in events {
        if is_silent(event) {
            continue;
        }
        if let Event::Inside { .. } | Event::Fork { .. } = event {
            return None;
        }
        longest = longest.max(most_shown(event));
    }
    Some(longest)
}

impl LoneRun {
    // The run before its first event, with room for a line of at most `longest` bytes.
    fn with_room(alloc: Global, cpus: u32, longest: u32) -> Result<LoneRun, AllocError>
        requires { (1 ≤ cpus) × (cpus ≤ 256) }
        ensures { IfOk result (λ run. HasRoom cpus longest run) }
    {
        let states = States::boxed(alloc)?;
        let (lanes, pass) = Lanes::start(alloc, cpus, 0)?;
        Ok(LoneRun {
            lanes,
            caller: Caller {
                pass,
                set: Setting::first(0),
                states,
            },
            trace: Trace::empty(),
            served: vec![in alloc; 0; longest as usize]?,
            recorded: EmittedLine {
                event: 0,
                word: Word::End,
                said: Reply::only(Answer::Ok),
                shown: 0,
            },
        })
    }

    /// The run of a whole script on a new table, before its first event. Returns `None` if and only if the script has
    /// several callers or an act inside a vgetrandom call. The line of such an act is made twice, but this run keeps no
    /// line. This function takes all memory of the run.
    ///
    /// # Errors
    ///
    /// `AllocError` if there is no memory for the table, or for the bytes of one line.
    pub fn start(alloc: Global, script: &Script) -> Result<Option<LoneRun>, AllocError>
        requires { WellFormed script.now }
        ensures run { IfOk result (λ found. IfSome found (λ run. (events : List Event)
            × (slice_get script.now.callers 0 ≡ Some events) × IsGoing script.now events run [])) }
        ensures none { IfOk result (λ found. found ≡ None → IsEmittedByOne script.now → ⊥) }
    {
        if script.callers() > 1 {
            return Ok(None);
        }
        let Some(longest) = longest_line(script.events(0)) else {
            return Ok(None);
        };
        Ok(Some(LoneRun::with_room(alloc, script.cpus(), longest)?))
    }

    /// The run of a script that is still being written, on a new table with `cpus` CPUs. This function takes all memory
    /// of the run, with room for the longest line that an event can have.
    ///
    /// # Errors
    ///
    /// `AllocError` if there is no memory for the table, or for the bytes of one line.
    pub fn open(alloc: Global, cpus: u32) -> Result<LoneRun, AllocError>
        requires { (1 ≤ cpus) × (cpus ≤ 256) }
        ensures { IfOk result (λ run. HasMade cpus [] run []) }
    {
        LoneRun::with_room(alloc, cpus, MOST_SHOWN)
    }

    /// Makes the next event, and its line. The gate (a hook) is called before the event.
    pub fn make<R: Wait, G: Gate>(&mut self, rt: &R, gate: &G, event: &Event)
        requires { (script : SeenScript) × (rest : List Event) × (lines : List SeenLine)
            × IsGoing script (event.now ∷ rest) self.old lines }
        ensures going { (script : SeenScript) (rest : List Event) (lines : List SeenLine)
            → IsGoing script (event.now ∷ rest) self.old lines
            → IsGoing script rest self.new (lines ++ last_line self.new ∷ []) }
        ensures made { (cpus : ℕ) (done : List Event) (lines : List SeenLine) → HasMade cpus done self.old lines
            → HasMade cpus (done ++ event.now ∷ []) self.new (lines ++ last_line self.new ∷ []) }
        ensures line { HasLine self.new }
    {
        let set = self.caller.set;
        gate.before(rt, set.caller, set.event);
        self.recorded = self
            .caller
            .call_once(rt, &self.lanes, &mut self.trace, &mut self.served, event);
        self.caller.go_on(event);
    }

    /// Ends the run after the last event, and makes the last line. The lines are then a lawful transcript.
    pub fn end<R: Wait>(&mut self, rt: &R)
        requires { (script : SeenScript) × (lines : List SeenLine) × IsGoing script [] self.old lines }
        ensures lawful { (script : SeenScript) (lines : List SeenLine) → IsGoing script [] self.old lines
            → IsLawful script (lines ++ last_line self.new ∷ []) }
        ensures line { HasLine self.new }
    {
        self.trace.clear();
        self.caller.leave(rt, &self.lanes, &mut self.trace);
        self.lanes.settle(&mut self.caller.pass);
        self.recorded = EmittedLine {
            event: self.caller.set.event,
            word: Word::End,
            said: Reply::only(Answer::Ok),
            shown: 0,
        };
    }

    /// The line that was made last.
    pub fn line(&self) -> LineView<'_>
        requires { HasLine self.now }
        ensures line { seen result ≡ last_line self.now }
        ensures fits { LineFits (seen result) }
    {
        let shown = &self.served[..self.recorded.shown];
        self.recorded
            .view(self.caller.set.caller, self.trace.steps(), shown)
    }
}
