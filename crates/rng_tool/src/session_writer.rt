//! The run of a session, and the lines of its transcript as they are written.
ghost use Rattle.std.specs.Prelude.{◌≡◌, ◌≤◌, ◌⊎◌, ◌++◌, ◌∷◌, [], ℕ, List, None, Option, false, true, IfSome, IsSomeAnd};
ghost use Rattle.std.specs.Io.KnownBytes.{Appends};
ghost use Rattle.caller_run.specs.Alone.{HasMade, IsGoing, IsLawful, IsEmittedOnce, last_line};
ghost use Rattle.key_names.specs.Transcripts.SeenLine.{SeenLine};
ghost use Rattle.key_names.specs.Texts.ScriptGrammar.{Script};
ghost use Rattle.key_names.specs.Texts.TranscriptGrammar.{LineFits};
ghost use Rattle.rng_tool.specs.LiveSteps.{CountsStop, Ends, GoesTo, IsAt, Opens, ReadsLine, Writes};
ghost use Rattle.transcript_text.specs.Lines.{whole_line};

use crate::stop::Stop;
use caller_run::LoneRun;
use event_script::{DraftView, ScriptProgress};
use io_edges::{Gate, Sink};
use key_names::Event;
use std::alloc::Global;
use std::sync::Wait;
use transcript_text::LineWriter;

/// The run of a script's only caller, and the writer of its lines.
#[derive(Drop)]
pub(crate) struct SessionWriter {
    // The run, which is open from the third line of the script to the line `end`.
    run: Option<LoneRun>,
    writer: LineWriter,
    // Whether the line `end` was read.
    is_over: bool,
}

// The last event, if it is neither an act nor a fork, and if the script could end after it.
fn last_once(events: &[Event], has_orphan: bool) -> Option<&Event>
    ensures some { IfSome result (λ event. (has_orphan ≡ false) × IsEmittedOnce event.now
        × ((front : List Event) × (events.entry.now ≡ front ++ event.now ∷ []))) }
    ensures none { result ≡ None → (has_orphan ≡ true)
        ⊎ ((front : List Event) (event : Event) → events.entry.now ≡ front ++ event ∷ [] → IsEmittedOnce event → ⊥) }
{
    if has_orphan {
        return None;
    }
    let (event, _) = events.split_last()?;
    if let Event::Inside { .. } | Event::Fork { .. } = event {
        return None;
    }
    Some(event)
}

// Makes an event of the only caller, and writes its line.
fn make_event<R: Wait, K: Sink, G: Gate>(
    rt: &R,
    run: &mut LoneRun,
    writer: &mut LineWriter,
    sink: &mut K,
    gate: &G,
    event: &Event,
) -> Result<(), Stop>
    requires { (script : Script) × (rest : List Event) × (lines : List SeenLine)
        × IsGoing script (event.now ∷ rest) run.old lines }
    ensures made { (cpus : ℕ) (done : List Event) (lines : List SeenLine) → HasMade cpus done run.old lines
        → HasMade cpus (done ++ event.now ∷ []) run.new (lines ++ last_line run.new ∷ []) }
    ensures fits { LineFits (last_line run.new) }
    ensures wrote { Writes result (K.held sink.old) (K.held sink.new) (whole_line (last_line run.new)) }
    ensures counted { CountsStop result (K.faults sink.old) (K.faults sink.new) }
{
    run.make(rt, gate, event);
    writer.write(sink, run.line())?;
    Ok(())
}

impl SessionWriter {
    /// A session writer before the first line of a script.
    pub(crate) fn new() -> SessionWriter
        ensures { IsAt [] [] result }
    {
        SessionWriter {
            run: None,
            writer: LineWriter::new(),
            is_over: false,
        }
    }

    /// Whether the line `end` was read.
    pub(crate) fn is_over(&self) -> bool
        ensures { result ≡ self.now.is_over }
    {
        self.is_over
    }

    // Opens the run, and writes the first line of the transcript.
    fn begin<K: Sink>(&mut self, alloc: Global, cpus: u32, sink: &mut K) -> Result<(), Stop>
        requires { (1 ≤ cpus) × (cpus ≤ 256) }
        ensures opened { Opens cpus result self.old.run self.new.run (K.held sink.old) (K.held sink.new) }
        ensures over { self.new.is_over ≡ self.old.is_over }
        ensures counted { CountsStop result (K.faults sink.old) (K.faults sink.new) }
    {
        self.run = Some(LoneRun::open(alloc, cpus)?);
        LineWriter::begin(sink)?;
        Ok(())
    }

    // Ends the run after the line `end`, and writes the last lines of the transcript.
    fn end<R: Wait, K: Sink>(&mut self, rt: &R, sink: &mut K) -> Result<(), Stop>
        requires { IfSome self.old.run (λ run. (script : Script) × (lines : List SeenLine) × IsGoing script [] run lines) }
        ensures ended { (script : Script) (lines : List SeenLine)
            → IsSomeAnd self.old.run (λ run. IsGoing script [] run lines)
            → Ends script lines result (K.held sink.old) (K.held sink.new) }
        ensures none { self.new.run ≡ None }
        ensures over { self.new.is_over ≡ true }
        ensures counted { CountsStop result (K.faults sink.old) (K.faults sink.new) }
    {
        self.is_over = true;
        let Some(mut run) = self.run.take() else {
            return Ok(());
        };
        run.end(rt);
        self.writer.write(sink, run.line())?;
        LineWriter::end(sink)?;
        Ok(())
    }

    // Opens the run at the third line of the script, and makes an event at each later line.
    fn make_next<R: Wait, K: Sink, G: Gate>(
        &mut self,
        rt: &R,
        alloc: Global,
        view: DraftView<'_>,
        sink: &mut K,
        gate: &G,
    ) -> Result<(), Stop>
        requires { (text line emitted : List ℕ) × ReadsLine text line emitted (ScriptProgress.Open view) self.old }
        ensures goes { (start : Option (List ℕ)) (text line emitted : List ℕ)
            → ReadsLine text line emitted (ScriptProgress.Open view.entry) self.old → Appends start (K.held sink.old) emitted
            → GoesTo result start (K.held sink.new) (text ++ (line ++ 10 ∷ [])) self.new }
        ensures counted { CountsStop result (K.faults sink.old) (K.faults sink.new) }
    {
        let Some(run) = &mut self.run else {
            return self.begin(alloc, view.cpus, sink);
        };
        match last_once(view.events, view.has_orphan) {
            Some(event) => make_event(rt, run, &mut self.writer, sink, gate, event),
            None => Err(Stop::NotAlone(view.number - 1)),
        }
    }

    /// Goes on after one more line of the script: opens the run at the third line, makes an event at each later line,
    /// and ends the run at the line `end`.
    pub(crate) fn go_on<R: Wait, K: Sink, G: Gate>(
        &mut self,
        rt: &R,
        alloc: Global,
        progress: ScriptProgress<'_>,
        sink: &mut K,
        gate: &G,
    ) -> Result<(), Stop>
        requires { (text line emitted : List ℕ) × ReadsLine text line emitted progress self.old }
        ensures goes { (start : Option (List ℕ)) (text line emitted : List ℕ)
            → ReadsLine text line emitted progress.entry self.old → Appends start (K.held sink.old) emitted
            → GoesTo result start (K.held sink.new) (text ++ (line ++ 10 ∷ [])) self.new }
        ensures counted { CountsStop result (K.faults sink.old) (K.faults sink.new) }
    {
        match progress {
            ScriptProgress::Waits => Ok(()),
            ScriptProgress::Faulty(fault) => Err(Stop::Refused(fault)),
            ScriptProgress::Ended(_) => self.end(rt, sink),
            ScriptProgress::Open(view) => self.make_next(rt, alloc, view, sink, gate),
        }
    }

    /// Ends a run whose script has no line `end`, and writes nothing.
    pub(crate) fn close<R: Wait>(&mut self, rt: &R)
        requires { IfSome self.old.run (λ run. (script : Script) × (lines : List SeenLine) × IsGoing script [] run lines) }
        ensures { (script : Script) (lines : List SeenLine)
            → IsSomeAnd self.old.run (λ run. IsGoing script [] run lines)
            → (last : SeenLine) × IsLawful script (lines ++ last ∷ []) }
    {
        if let Some(mut run) = self.run.take() {
            run.end(rt);
        }
    }
}
