//! Goes through the visits in the order of their stamps, and finds the first visit such that no lawful lists match the
//! inferred rows up to this visit.
ghost use Rattle.std.specs.Prelude.{◌≡◌, ℕ, IfOk, length, take};
ghost use Rattle.judge_log.specs.Tables.{InRange, tables_of};
ghost use Rattle.transcript_check.specs.Rows.{AreWide};

use crate::place::{Expected, FailedLine};
use crate::uncounted::{VisitOf, all_visits};
use judge_lines::bare::BareLine;
use judge_lines::inferred::BaseInferred;
use judge_log::{InferredCpu, InferredEntries, InferredPool, replay_lists};
use key_names::{BaseEntry, LaneId, PoolNote};
use std::alloc::{AllocError, Global};

/// How many rows of each lane's table of inferred entries are kept, counted from the first row.
#[derive(Drop)]
struct Ends {
    pool: usize,
    base: usize,
    cpus: Vec<usize>,
}

impl Ends {
    // For each lane, keeps as many of its first rows as `visits` has visits of the lane.
    fn of(alloc: Global, cpus: usize, visits: &[VisitOf]) -> Result<Ends, AllocError> {
        let mut ends = Ends {
            pool: 0,
            base: 0,
            cpus: Vec::new(alloc),
        };
        ends.cpus.resize(cpus, 0)?;
        for visit in visits {
            match visit.mark.lane {
                LaneId::Pool => ends.pool = ends.pool.saturating_add(1),
                LaneId::Base => ends.base = ends.base.saturating_add(1),
                LaneId::Cpu(cpu) => ends.reach(cpu, ends.of_cpu(cpu as usize)),
            }
        }
        Ok(ends)
    }

    fn of_cpu(&self, cpu: usize) -> usize {
        self.cpus.get(cpu).copied().unwrap_or(0)
    }

    // Also keeps the rows of a CPU up to this place.
    fn reach(&mut self, cpu: u32, place: usize) {
        if let Some(end) = self.cpus.get_mut(cpu as usize) {
            *end = (*end).max(place.saturating_add(1));
        }
    }

    // Also keeps the rows up to each place that an extraction or a refill in the kept rows names.
    fn reach_named(&mut self, inferred: &InferredEntries<'_>) {
        for row in inferred.pool.iter().take(self.pool) {
            if let InferredPool::Is(PoolNote::Extract { base_place, .. }) = row {
                self.base = self.base.max((*base_place as usize).saturating_add(1));
            }
        }
        for row in inferred.base.iter().take(self.base) {
            if let BaseInferred::Is(BaseEntry::Refill { cpu, cpu_place }) = row {
                self.reach(*cpu, *cpu_place as usize);
            }
        }
    }
}

// The first `end` rows of a list, or all rows if there are fewer.
fn front<T: Copy>(alloc: Global, rows: &[T], end: usize) -> Result<Vec<T>, AllocError>
    ensures { IfOk result (λ front. (n : ℕ) × (front.items ≡ take n rows.now)) }
{
    let (kept, _) = rows.split_at(end.min(rows.len()));
    let mut front = Vec::new(alloc);
    front.extend_from_slice(kept)?;
    Ok(front)
}

fn cut_lanes(
    alloc: Global,
    lanes: &[Vec<InferredCpu>],
    ends: &Ends,
) -> Result<Vec<Vec<InferredCpu>>, AllocError>
    requires { AreWide lanes.now }
    ensures long { IfOk result (λ cut. length cut.items ≡ length lanes.now) }
    ensures wide { IfOk result (λ cut. AreWide cut.items) }
{
    let mut cut = Vec::new(alloc);
    for (cpu, lane) in lanes.iter().enumerate() {
        cut.push(front(alloc, lane, ends.of_cpu(cpu))?)?;
    }
    Ok(cut)
}

// Whether some lawful lists match the rows of these visits, and also the rows up to each place that these rows name.
fn begins(
    alloc: Global,
    inferred: &InferredEntries<'_>,
    visits: &[VisitOf],
) -> Result<bool, AllocError>
    requires { InRange (tables_of inferred.now) }
{
    let mut ends = Ends::of(alloc, inferred.cpus.len(), visits)?;
    ends.reach_named(inferred);
    let cut = InferredEntries {
        pool: front(alloc, &inferred.pool, ends.pool)?,
        base: front(alloc, &inferred.base, ends.base)?,
        cpus: cut_lanes(alloc, &inferred.cpus, &ends)?,
    };
    let lists = replay_lists(alloc, &cut)?;
    Ok(lists.is_some())
}

// Finds by bisection a number of visits, counted from the first. Some lawful lists match the rows of these visits, but
// none match the rows if one more visit is added.
fn most_visits(
    alloc: Global,
    inferred: &InferredEntries<'_>,
    visits: &[VisitOf],
) -> Result<usize, AllocError>
    requires { InRange (tables_of inferred.now) }
{
    let mut least = 0;
    let mut most = visits.len();
    while most - least > 1 {
        let middle = least + (most - least) / 2;
        if begins(alloc, inferred, &visits[..middle])? {
            least = middle;
        } else {
            most = middle;
        }
    }
    Ok(least)
}

/// Goes through the visits in the order of their stamps. Returns the line of the first visit such that no lawful lists
/// match the inferred rows up to this visit. This is tested, not proved. Before the call it must be known that no
/// lawful lists match the whole tables.
pub(crate) fn first_other_entry(
    alloc: Global,
    inferred: &InferredEntries<'_>,
    lines: &[Vec<BareLine<'_>>],
) -> Result<Option<FailedLine>, AllocError>
    requires { InRange (tables_of inferred.now) }
{
    let mut visits = all_visits(alloc, lines)?;
    visits.sort_by_key(|visit| visit.mark.stamp)?;
    let count = most_visits(alloc, inferred, &visits)?;
    Ok(
        visits.get(count).map(|visit| FailedLine {
            caller: visit.caller,
            line: visit.line,
            expected: Expected::Entry(visit.mark),
        }),
    )
}
