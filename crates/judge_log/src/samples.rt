//! Replays the fast pools of the CPUs. Makes the bytes of each dump, and checks that an interrupt makes a dump due
//! exactly if its line has a dump.
ghost use Rattle.std.specs.Prelude.{◌≡◌, ◌↔◌, ◌<◌, IsTrue, IfOk, IfSome, IsSome, map, length};
ghost use Rattle.key_names.specs.Lanes.Book.{list_at, cpu_list};
ghost use Rattle.judge_log.specs.Closed.{closed, fast_inferred};
ghost use Rattle.judge_log.specs.Places.{AllPlaces, AllKept};
ghost use Rattle.judge_log.specs.Tables.{tables_of};
ghost use Rattle.judge_log.specs.Dumps.{DueInferred, DueAt, DumpIs, dump_inferred, AllDue, AllDumps};

use crate::inferred::{InferredCpu, InferredEntries};
use judge_lines::inferred::CpuInferred;
use key_names::CpuEntry;
use sample_credit::{Dump, FastPool};
use std::alloc::{AllocError, Global};

/// What a CPU's visit did to its fast pool.
#[derive(Drop)]
pub(crate) struct SampleEffect {
    /// For an interrupt: whether it makes a dump due exactly if its line has a dump. For any other visit: true.
    pub(crate) fits: bool,
    /// The dump, if the visit dumps the fast pool.
    pub(crate) dump: Option<Dump>,
}

/// Changes the fast pool by a visit.
fn take_sample(fast: &mut FastPool, inferred: &InferredCpu) -> SampleEffect
    ensures state { fast.new ≡ fast_inferred fast.old inferred.now.entry }
    ensures fits { IsTrue result.fits ↔ DueInferred fast.old inferred.now.dumps inferred.now.entry }
    ensures dump { result.dump ≡ dump_inferred fast.old inferred.now.entry }
{
    match inferred.entry {
        CpuInferred::Is(CpuEntry::Irq { v1, v2, now }) => SampleEffect {
            fits: fast.mix(v1, v2, now) == inferred.dumps,
            dump: None,
        },
        CpuInferred::Is(CpuEntry::Dump { now }) => SampleEffect {
            fits: true,
            dump: Some(fast.dump(now)),
        },
        CpuInferred::Is(CpuEntry::Online) => {
            fast.online();
            SampleEffect {
                fits: true,
                dump: None,
            }
        }
        CpuInferred::Is(CpuEntry::Read { .. } | CpuEntry::Int { .. } | CpuEntry::Prepare)
        | CpuInferred::Batch { .. } => SampleEffect {
            fits: true,
            dump: None,
        },
    }
}

/// The dump of each visit of a CPU. `None` if some interrupt makes a dump due that its line lacks, or if the line of
/// some interrupt has a dump that is not due.
fn dumps_of(
    alloc: Global,
    inferred: &InferredEntries,
    cpu: usize,
) -> Result<Option<Vec<Option<Dump>>>, AllocError>
    requires { cpu < length inferred.now.cpus.items }
    ensures some { IfOk result (λ o. IfSome o (λ dumps. AllPlaces (DueAt (tables_of inferred.now) cpu)
        (cpu_list (closed (tables_of inferred.now)) cpu)
        × AllKept (DumpIs (closed (tables_of inferred.now)) cpu) dumps.items (cpu_list (closed (tables_of inferred.now)) cpu))) }
    ensures none { IfOk result (λ o. AllPlaces (DueAt (tables_of inferred.now) cpu)
        (cpu_list (closed (tables_of inferred.now)) cpu) → IsSome o) }
{
    let mut fast = FastPool::start();
    let mut dumps = Vec::new(alloc);
    for one in &inferred.cpus[cpu] {
        let sample = take_sample(&mut fast, one);
        if !sample.fits {
            return Ok(None);
        }
        dumps.push(sample.dump)?;
    }
    Ok(Some(dumps))
}

/// The dump of each visit of each CPU. `None` if some interrupt makes a dump due that its line lacks, or if the line of
/// some interrupt has a dump that is not due.
pub(crate) fn all_dumps(
    alloc: Global,
    inferred: &InferredEntries,
) -> Result<Option<Vec<Vec<Option<Dump>>>>, AllocError>
    ensures some { IfOk result (λ o. IfSome o (λ dumps. AllDue (tables_of inferred.now)
        × AllDumps (closed (tables_of inferred.now)) (map (λ lane. lane.items) dumps.items))) }
    ensures none { IfOk result (λ o. AllDue (tables_of inferred.now) → IsSome o) }
{
    let mut all = Vec::new(alloc);
    for cpu in 0..inferred.cpus.len() {
        match dumps_of(alloc, inferred, cpu)? {
            Some(dumps) => all.push(dumps)?,
            None => return Ok(None),
        }
    }
    Ok(Some(all))
}
