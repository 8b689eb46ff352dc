//! The moment of each entry of a book: a stamp, and the line of the transcript that left the entry.
ghost use Rattle.std.specs.Prelude.{ℕ, ◌≡◌, ◌<◌, ◌++◌, ◌==◌, ◌∷◌, [], IfOk, OnOk, length, map, if◌then◌else◌};
ghost use Rattle.key_names.specs.Lanes.Book.{list_at};
ghost use Rattle.audit_keys.specs.Cut.{moment_lists};
ghost use Rattle.judge_lines.specs.Marks.{seen_mark};
ghost use Rattle.key_audit.specs.Moments.{moment_by, AddsMark, HasMarks, state_moments_in};
ghost use Rattle.key_audit.specs.EntryMoments.{all_moments, caller_moments, end_moment, entry_moments};

use crate::book::KeptBook;
use audit_keys::entry::{CallEnd, StateEntry};
use audit_keys::moments::{LineOf, Moment, Moments};
use judge_lines::marks::MarkOf;
use key_names::LaneId;
use std::alloc::{AllocError, Global};

fn moment_by(of: &MarkOf) -> Moment
    ensures { result ≡ moment_by (seen_mark of.now) }
{
    Moment {
        stamp: of.mark.stamp,
        line: LineOf {
            caller: of.who.caller,
            event: of.who.event,
        },
    }
}

// Appends `moment`, the moment of a visit, to the moments of CPU number `cpu`. Appends nothing if the book lacks this
// CPU.
fn push_cpu(cpus: &mut Vec<Vec<Moment>>, cpu: usize, moment: Moment) -> Result<(), AllocError>
    ensures count { length cpus.new.items ≡ length cpus.old.items }
    ensures each { (c : ℕ) → c < length cpus.old.items → OnOk result (list_at (moment_lists cpus.new.items) c
        ≡ list_at (moment_lists cpus.old.items) c ++ (if cpu == c then moment ∷ [] else [])) }
{
    if cpu < cpus.len() {
        cpus[cpu].push(moment)?;
    }
    Ok(())
}

// Appends the moment of a visit, given by its mark `of`, to the moments of the visit's lane.
fn push_mark(moments: &mut Moments, of: &MarkOf) -> Result<(), AllocError>
    ensures { OnOk result (AddsMark moments.old (seen_mark of.now) moments.new) }
{
    let moment = moment_by(of);
    match of.mark.lane {
        LaneId::Pool => moments.pool.push(moment)?,
        LaneId::Base => moments.base.push(moment)?,
        LaneId::Cpu(cpu) => push_cpu(&mut moments.cpus, cpu as usize, moment)?,
    }
    Ok(())
}

// The moments of a book that has `cpus` CPUs and no visits.
fn no_visits(alloc: Global, cpus: usize) -> Result<Moments, AllocError>
    ensures { IfOk result (λ moments. HasMarks cpus [] moments) }
{
    let mut moments = Moments {
        pool: Vec::new(alloc),
        base: Vec::new(alloc),
        cpus: Vec::new(alloc),
        callers: Vec::new(alloc),
    };
    for _ in 0..cpus {
        moments.cpus.push(Vec::new(alloc))?;
    }
    Ok(moments)
}

// The moments of the visits with the marks `marks`, lane by lane, in a book that has `cpus` CPUs.
fn moments_of_marks(alloc: Global, cpus: usize, marks: &[MarkOf]) -> Result<Moments, AllocError>
    ensures { IfOk result (λ moments. HasMarks cpus (map seen_mark marks.now) moments) }
{
    let mut moments = no_visits(alloc, cpus)?;
    for of in marks {
        push_mark(&mut moments, of)?;
    }
    Ok(moments)
}

// The moment when a call was over: the stamp then, and the call's line.
fn end_moment(end: CallEnd) -> Moment
    ensures { result ≡ end_moment end }
{
    Moment {
        stamp: end.stamp,
        line: LineOf {
            caller: end.caller,
            event: end.event,
        },
    }
}

fn list_moments(alloc: Global, list: &[StateEntry]) -> Result<Vec<Moment>, AllocError>
    ensures { IfOk result (λ moments. moments.items ≡ entry_moments list.now) }
{
    let mut moments = Vec::with_capacity(alloc, list.len())?;
    for entry in list {
        moments.push(end_moment(entry.end))?;
    }
    Ok(moments)
}

fn caller_moments(alloc: Global, lists: &[Vec<StateEntry>]) -> Result<Vec<Vec<Moment>>, AllocError>
    ensures { IfOk result (λ moments. moment_lists moments.items ≡ caller_moments lists.now) }
{
    let mut moments = Vec::with_capacity(alloc, lists.len())?;
    for list in lists {
        moments.push(list_moments(alloc, list)?)?;
    }
    Ok(moments)
}

// The moments of the entries of all vgetrandom states of all callers.
fn state_moments(
    alloc: Global,
    callers: &[Vec<Vec<StateEntry>>],
) -> Result<Vec<Vec<Vec<Moment>>>, AllocError>
    ensures { IfOk result (λ moments. state_moments_in moments.items ≡ all_moments callers.now) }
{
    let mut moments = Vec::with_capacity(alloc, callers.len())?;
    for lists in callers {
        moments.push(caller_moments(alloc, lists)?)?;
    }
    Ok(moments)
}

/// The moments of the entries of a book. A visit's moment is the visit's stamp and line. An entry of a vgetrandom state
/// was left by a call: the entry's moment is the stamp when this call was over, and the call's line.
///
/// # Errors
///
/// `AllocError` if there is no memory for them.
pub(crate) fn moments_of(alloc: Global, book: &KeptBook) -> Result<Moments, AllocError>
    ensures marks { IfOk result (λ moments.
        HasMarks (length book.now.lanes.cpus.items) (map seen_mark book.now.marks.items) moments) }
    ensures states { IfOk result (λ moments.
        state_moments_in moments.callers.items ≡ all_moments book.now.states.items) }
{
    let mut moments = moments_of_marks(alloc, book.lanes.cpus.len(), &book.marks)?;
    moments.callers = state_moments(alloc, &book.states)?;
    Ok(moments)
}
