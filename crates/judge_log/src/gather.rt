//! Makes a table row for each mark of a transcript. At first all rows are unfilled. Then, call by call, the entry
//! inferred for each visit is put into the row at the visit's place.
ghost use Rattle.std.specs.Prelude.{◌≡◌, ◌≢◌, ◌<◌, ℕ, ⊤, Some, List, [], ◌∷◌, length, drop, map, slice_get, Any, IfOk, IfSome, MatchBool, MatchOption};
ghost use Rattle.key_names.specs.declared.entries.Taken.TheVariants.{User};
ghost use Rattle.key_names.specs.Lanes.Book.{Book, list_at};
ghost use Rattle.key_names.specs.Lanes.PoolNotes.{entry_of};
ghost use Rattle.key_names.specs.Texts.ScriptGrammar.{WellFormed};
ghost use Rattle.key_names.specs.Transcripts.SeenLine.{SeenLine};
ghost use Rattle.judge_lines.specs.declared.inferred.PoolInferred.TheVariants.{Extracted};
ghost use Rattle.judge_lines.specs.Inferred as forms;
ghost use Rattle.judge_lines.specs.Begun.{PartsConform};
ghost use Rattle.judge_lines.specs.Called.{seen_act, seen_call, seen_calls};
ghost use Rattle.judge_lines.specs.Marks.{seen_mark};
ghost use Rattle.judge_lines.specs.Settings.{AreSettings};
ghost use Rattle.judge_log.specs.Tables.{tables_of};
ghost use Rattle.judge_log.specs.Gathered.{IsBookOf, IsGathered};
ghost use Rattle.judge_log.specs.Rows.{IsPoolRow, dumps_inferred, cpu_row, step_sign, first_shown};
ghost use Rattle.judge_log.specs.Spots.{tells_by, line_spots, acts_spots, call_spots, calls_spots, callers_spots};
ghost use Rattle.judge_log.specs.Spots.{Changes, IsLonger, IsAbsent, HasRows};

use crate::{InferredCpu, InferredEntries, InferredPool};
use event_script::Script;
use judge_lines::begin::TranscriptParts;
use judge_lines::called::{ActLine, CalledLines};
use judge_lines::inferred::{
    BaseInferred, CpuInferred, Neighbours, PoolInferred, Sign, base_inferred, base_place_in,
    cpu_inferred, cpu_read_inferred, pool_inferred, read_inferred,
};
use judge_lines::marks::MarkOf;
use judge_lines::setting::LineSetting;
use key_names::{BaseEntry, CpuEntry, Event, InsideAct, LaneId, PoolNote, Step, Taken};
use std::alloc::{AllocError, Global};

// The number of bytes that a `vread` takes for a key.
const KEY_BYTES: u32 = 32;

/// The kind of a line, from which its entries are inferred: a single event, an act inside a `vread`, or a `vread` of
/// this many bytes. `Nothing` is for a caller's end, and for an act that no `vread` follows.
#[derive(Clone, Copy)]
pub(crate) enum LineKind<'a> {
    Event(&'a Event),
    Act(InsideAct),
    Vread(u32),
    Nothing,
}

fn sign(step: Step) -> Sign
    ensures { result ≡ step_sign step }
{
    match step {
        Step::Look(found) => Sign::Saw(found),
        Step::Visit(mark) => match mark.lane {
            LaneId::Pool => Sign::InPool(mark.place),
            LaneId::Base => Sign::InBase(mark.place),
            LaneId::Cpu(cpu) => Sign::InCpu(cpu, mark.place),
        },
    }
}

// The visible part of the step with this number, or `Nowhere` if there is no such step.
fn sign_at(steps: &[Step], number: usize) -> Sign
    ensures { result ≡ first_shown (drop number steps.now) }
{
    match steps.get(number) {
        Some(step) => sign(*step),
        None => Sign::Nowhere,
    }
}

// The pool's entry that the event makes from its own fields, such as the mix of a written text.
fn own_note<'a>(set: &LineSetting, event: &'a Event) -> PoolNote<'a>
    ensures { entry_of result ≡ forms.own_entry (forms.telling set.now event.now) }
{
    match event {
        Event::Write { text } => PoolNote::Mix {
            text: text.bytes(),
            bits: 0,
        },
        Event::Add { text, bits } => PoolNote::Mix {
            text: text.bytes(),
            bits: *bits,
        },
        Event::Credit { bits } => PoolNote::Mix {
            text: &[],
            bits: *bits,
        },
        Event::Device { word, text } | Event::Vmfork { word, text } => PoolNote::Device {
            word: *word,
            text: text.bytes(),
        },
        Event::Input {
            word,
            kind,
            code,
            value,
        } => PoolNote::Input {
            word: *word,
            kind: *kind,
            code: *code,
            value: *value,
            now: set.moment(),
        },
        _ => PoolNote::Bits,
    }
}

fn extraction<'a>(set: &LineSetting, base_place: u64) -> InferredPool<'a>
    ensures { IsPoolRow set.now forms.silent (Extracted base_place) result }
{
    InferredPool::Is(PoolNote::Extract {
        hw: set.hw(),
        base_place,
    })
}

fn event_pool_row<'a>(
    set: &LineSetting,
    event: &'a Event,
    neighbours: Neighbours,
) -> InferredPool<'a>
    ensures { IsPoolRow set.now (forms.telling set.now event.now)
        (forms.pool_inferred (forms.telling set.now event.now) neighbours) result }
{
    match pool_inferred(set, event, neighbours) {
        PoolInferred::Own => InferredPool::Is(own_note(set, event)),
        PoolInferred::Extracted(base_place) => extraction(set, base_place),
        PoolInferred::Dumped(cpu, place) => InferredPool::Dumped { cpu, place },
    }
}

fn pool_row<'a>(
    set: &LineSetting,
    line_kind: LineKind<'a>,
    neighbours: Neighbours,
) -> InferredPool<'a>
    ensures { IsPoolRow set.now (tells_by set.now line_kind.entry neighbours)
        (forms.pool_inferred (tells_by set.now line_kind.entry neighbours) neighbours) result }
{
    match line_kind {
        LineKind::Event(event) => event_pool_row(set, event, neighbours),
        LineKind::Act(_) | LineKind::Vread(_) | LineKind::Nothing => {
            extraction(set, base_place_in(neighbours.following))
        }
    }
}

// What a read inside a `vread` takes: the `len` bytes of the `vread` if no step follows, and otherwise a key.
fn taken(len: u32, following: Sign) -> Taken
    ensures { result ≡ forms.taken_by (User 32) (User len) following }
{
    match following {
        Sign::Nowhere => Taken::User(len),
        _ => Taken::User(KEY_BYTES),
    }
}

fn base_row(set: &LineSetting, line_kind: LineKind<'_>, neighbours: Neighbours) -> BaseInferred
    ensures { result ≡ forms.base_inferred set.now (tells_by set.now line_kind.entry neighbours) neighbours }
{
    match line_kind {
        LineKind::Event(event) => base_inferred(set, event, neighbours),
        LineKind::Act(InsideAct::Vread(len)) => read_inferred(set, Taken::User(len), neighbours),
        LineKind::Act(InsideAct::Reseed) => base_inferred(set, &Event::Reseed, neighbours),
        LineKind::Vread(len) => read_inferred(set, taken(len, neighbours.following), neighbours),
        LineKind::Act(InsideAct::Wipe) | LineKind::Nothing => BaseInferred::Is(BaseEntry::End),
    }
}

fn cpu_entry(
    set: &LineSetting,
    line_kind: LineKind<'_>,
    first: Sign,
    neighbours: Neighbours,
) -> CpuInferred
    ensures { result ≡ forms.cpu_inferred set.now (tells_by set.now line_kind.entry neighbours) first neighbours }
{
    match line_kind {
        LineKind::Event(event) => cpu_inferred(set, event, first, neighbours),
        LineKind::Act(InsideAct::Vread(len)) => {
            cpu_read_inferred(
                Taken::User(len),
                neighbours.second_before,
                neighbours.before,
            )
        }
        LineKind::Vread(len) => cpu_read_inferred(
            taken(len, neighbours.following),
            neighbours.second_before,
            neighbours.before,
        ),
        LineKind::Act(InsideAct::Wipe | InsideAct::Reseed) | LineKind::Nothing => {
            CpuInferred::Is(CpuEntry::Prepare)
        }
    }
}

// Whether the step after this visit is a dump of a CPU's fast pool.
fn dumps(set: &LineSetting, line_kind: LineKind<'_>, neighbours: Neighbours) -> bool
    ensures { result ≡ dumps_inferred (tells_by set.now line_kind.entry neighbours) neighbours }
{
    match (line_kind, neighbours.following) {
        (LineKind::Event(Event::Irq { .. }), Sign::InCpu(..)) => true,
        _ => false,
    }
}

fn cpu_row(
    set: &LineSetting,
    line_kind: LineKind<'_>,
    first: Sign,
    neighbours: Neighbours,
) -> InferredCpu
    ensures { result ≡ cpu_row set.now (tells_by set.now line_kind.entry neighbours) first neighbours }
{
    InferredCpu {
        entry: cpu_entry(set, line_kind, first, neighbours),
        dumps: dumps(set, line_kind, neighbours),
    }
}

// Puts `row` at `place` of a table, if the table has this place.
fn put<T: Copy>(rows: &mut Vec<T>, place: u64, row: T)
    ensures at { place < length rows.old.items → slice_get rows.new.items place ≡ Some row }
    ensures others { (k : ℕ) → k ≢ place → slice_get rows.new.items k ≡ slice_get rows.old.items k }
    ensures long { length rows.new.items ≡ length rows.old.items }
{
    if let Some(kept) = rows.get_mut(place as usize) {
        *kept = row;
    }
}

// If the step is a visit, puts the row of the visit at the place that it visits.
fn put_row<'a>(
    inferred: &mut InferredEntries<'a>,
    step: Step,
    set: &LineSetting,
    line_kind: LineKind<'a>,
    first: Sign,
    neighbours: Neighbours,
)
    ensures { Changes (record {
      set = set.now;
      tells = tells_by set.now line_kind.entry neighbours;
      first = first;
      neighbours = neighbours;
      step = step;
    } ∷ []) (tables_of inferred.old) (tables_of inferred.new) }
{
    let Step::Visit(mark) = step else {
        return;
    };
    match mark.lane {
        LaneId::Pool => put(
            &mut inferred.pool,
            mark.place,
            pool_row(set, line_kind, neighbours),
        ),
        LaneId::Base => put(
            &mut inferred.base,
            mark.place,
            base_row(set, line_kind, neighbours),
        ),
        LaneId::Cpu(cpu) => {
            if let Some(lane) = inferred.cpus.get_mut(cpu as usize) {
                put(lane, mark.place, cpu_row(set, line_kind, first, neighbours));
            }
        }
    }
}

// For each visit of a line, puts the visit's row at the place that it visits.
fn tell_line<'a>(
    inferred: &mut InferredEntries<'a>,
    set: &LineSetting,
    line_kind: LineKind<'a>,
    steps: &[Step],
)
    ensures { Changes (line_spots set.now (tells_by set.now line_kind.entry) steps.now) (tables_of inferred.old) (tables_of inferred.new) }
{
    let first = sign_at(steps, 0);
    let mut second_before = Sign::Nowhere;
    let mut before = Sign::Nowhere;
    for (number, step) in steps.iter().enumerate() {
        let neighbours = Neighbours {
            second_before,
            before,
            following: sign_at(steps, number + 1),
        };
        put_row(inferred, *step, set, line_kind, first, neighbours);
        second_before = before;
        before = sign(*step);
    }
}

fn tell_acts<'a>(inferred: &mut InferredEntries<'a>, set: &LineSetting, acts: &[ActLine<'a>])
    ensures { Changes (acts_spots set.now (map seen_act acts.now)) (tables_of inferred.old) (tables_of inferred.new) }
{
    for bound in acts {
        tell_line(inferred, set, LineKind::Act(bound.act), bound.line.steps);
    }
}

fn tell_call<'a>(inferred: &mut InferredEntries<'a>, set: &LineSetting, call: &CalledLines<'a>)
    ensures { Changes (call_spots set.now (seen_call call.now)) (tables_of inferred.old) (tables_of inferred.new) }
{
    match call {
        CalledLines::Alone { event, line } => tell_line(
            inferred,
            set,
            LineKind::Event(event),
            line.steps,
        ),
        CalledLines::Vread {
            len,
            line,
            acts,
            ..
        } => {
            tell_acts(inferred, set, acts);
            tell_line(inferred, set, LineKind::Vread(*len), line.steps);
        }
        CalledLines::Unbound(bound) => tell_line(
            inferred,
            set,
            LineKind::Nothing,
            bound.line.steps,
        ),
        CalledLines::Ending(line) => tell_line(inferred, set, LineKind::Nothing, line.steps),
    }
}

// Puts the rows of a caller's calls. `settings` has the setting before each call.
fn tell_calls<'a>(
    inferred: &mut InferredEntries<'a>,
    calls: &[CalledLines<'a>],
    settings: &[LineSetting],
)
    ensures { Changes (calls_spots (map seen_call calls.now) settings.now) (tables_of inferred.old) (tables_of inferred.new) }
{
    for (call, set) in calls.iter().zip(settings) {
        tell_call(inferred, set, call);
    }
}

fn tell_callers<'a>(
    inferred: &mut InferredEntries<'a>,
    callers: &[Vec<CalledLines<'a>>],
    settings: &[Vec<LineSetting>],
)
    ensures { Changes (callers_spots (seen_calls callers.now) (map (λ sets. sets.items) settings.now))
        (tables_of inferred.old) (tables_of inferred.new) }
{
    for (calls, sets) in callers.iter().zip(settings) {
        tell_calls(inferred, calls, sets);
    }
}

// Tables without rows, one for each of `cpus` CPUs.
fn bare_lanes(alloc: Global, cpus: u32) -> Result<Vec<Vec<InferredCpu>>, AllocError>
    ensures long { IfOk result (λ lanes. length lanes.items ≡ cpus) }
    ensures bare { IfOk result (λ lanes. (c : ℕ) → list_at (map (λ lane. lane.items) lanes.items) c ≡ []) }
{
    let mut lanes = Vec::new(alloc);
    for _ in 0..cpus {
        lanes.push(Vec::new(alloc))?;
    }
    Ok(lanes)
}

// Adds an unfilled row to a lane. Returns whether the lane exists.
fn add_row(inferred: &mut InferredEntries<'_>, lane: LaneId) -> Result<bool, AllocError>
    ensures { IfOk result (λ added. MatchBool added (IsLonger lane (tables_of inferred.old) (tables_of inferred.new))
        (IsAbsent (length inferred.old.cpus.items) lane)) }
{
    match lane {
        LaneId::Pool => inferred.pool.push(InferredPool::Is(PoolNote::Bits))?,
        LaneId::Base => inferred.base.push(BaseInferred::Is(BaseEntry::End))?,
        LaneId::Cpu(cpu) => {
            let Some(rows) = inferred.cpus.get_mut(cpu as usize) else {
                return Ok(false);
            };
            rows.push(InferredCpu {
                entry: CpuInferred::Is(CpuEntry::Prepare),
                dumps: false,
            })?;
        }
    }
    Ok(true)
}

// Tables with an unfilled row for each mark. `None` if a mark names a CPU that the script does not have.
fn bare_rows<'a>(
    alloc: Global,
    cpus: u32,
    marks: &[MarkOf],
) -> Result<Option<InferredEntries<'a>>, AllocError>
    ensures some { IfOk result (λ o. IfSome o (λ inferred. HasRows cpus (map seen_mark marks.now) (tables_of inferred))) }
    ensures none { IfOk result (λ o. MatchOption o (Any (λ of. IsAbsent cpus of.mark.lane) marks.now) (λ inferred. ⊤)) }
{
    let mut inferred = InferredEntries {
        pool: Vec::new(alloc),
        base: Vec::new(alloc),
        cpus: bare_lanes(alloc, cpus)?,
    };
    for of in marks {
        if !add_row(&mut inferred, of.mark.lane)? {
            return Ok(None);
        }
    }
    Ok(Some(inferred))
}

/// The inferred entry of each visit of all lines. `None` if a line visits a CPU that the script does not have.
///
/// # Errors
///
/// `AllocError` if there is no memory for the rows.
pub fn gather<'a>(
    alloc: Global,
    script: &Script,
    parts: &TranscriptParts<'a>,
    settings: &[Vec<LineSetting>],
) -> Result<Option<InferredEntries<'a>>, AllocError>
    requires well { WellFormed script.now }
    requires found { AreSettings (seen_calls parts.now.calls.items) settings.now }
    ensures some { (t : List (List SeenLine)) → PartsConform script.now t parts.now →
        IfOk result (λ o. IfSome o (λ inferred. IsGathered script.now t (tables_of inferred))) }
    ensures none { (t : List (List SeenLine)) → PartsConform script.now t parts.now →
        IfOk result (λ o. MatchOption o ((book : Book) → IsBookOf script.now t book → ⊥) (λ inferred. ⊤)) }
{
    let Some(mut inferred) = bare_rows(alloc, script.cpus(), &parts.marks)? else {
        return Ok(None);
    };
    tell_callers(&mut inferred, &parts.calls, settings);
    Ok(Some(inferred))
}
