//! Checks that entries name each other. An extraction names the base's entry that takes its root, and a refill names
//! the CPU's entry that takes its key. The named entry must name the extraction or refill back.
ghost use Rattle.std.specs.Prelude.{◌≡◌, ◌↔◌, ◌<◌, ◌^◌, IsTrue, map, option_and_then};
ghost use Rattle.key_names.specs.Lanes.BaseList.{root_of, refill_of};
ghost use Rattle.key_names.specs.Lanes.CpuList.{base_refill_of};
ghost use Rattle.judge_log.specs.Names.{AnsweredBy, root_named_in, refill_named_in, AllExtractionsAnswered};
ghost use Rattle.judge_log.specs.Names.{AllRefillsAnswered};

use crate::kept::{KeptBase, KeptCpu, KeptPool};
use key_names::{BaseEntry, CpuEntry};

/// If the base's `entry` takes the root of an extraction, the place of this extraction.
pub fn root_of(entry: BaseEntry) -> Option<u64>
    ensures { result ≡ root_of entry }
{
    match entry {
        BaseEntry::Early { root } | BaseEntry::Tick { root, .. } | BaseEntry::Draw { root, .. } =>
            root,
        BaseEntry::Reseed { root, .. } => Some(root),
        _ => None,
    }
}

/// If the CPU's `entry` takes a key from a refill of the base, the place of this refill.
pub fn base_refill_of(entry: CpuEntry) -> Option<u64>
    ensures { result ≡ base_refill_of entry }
{
    match entry {
        CpuEntry::Read { refill, .. } | CpuEntry::Int { refill, .. } => refill,
        _ => None,
    }
}

/// The place of the extraction that the base's entry at `place` names.
fn root_at(base: &[KeptBase], place: u64) -> Option<u64>
    ensures { result ≡ root_named_in base.now place }
{
    root_of(base.get(place as usize)?.entry)
}

/// Whether, for each extraction, the base's entry that the extraction names also names the extraction.
pub(crate) fn extractions_answered(pool: &[KeptPool], base: &[KeptBase]) -> bool
    ensures { IsTrue result ↔ AllExtractionsAnswered pool.now base.now }
{
    for (place, kept) in pool.iter().enumerate() {
        if let Some(root) = kept.root {
            if root_at(base, root.base_place) != Some(place as u64) {
                return false;
            }
        }
    }
    true
}

/// The place of the base's refill that the entry at `place` of `cpu` names.
fn refill_at(cpus: &[Vec<KeptCpu>], cpu: u32, place: u64) -> Option<u64>
    ensures { result ≡ refill_named_in (map (λ lane. lane.items) cpus.now) cpu place }
{
    base_refill_of(cpus.get(cpu as usize)?.get(place as usize)?.entry)
}

/// If the base's visit at `place` is a refill, whether the CPU's entry that the refill names also names the refill.
/// Otherwise true.
fn refill_answered(kept: &KeptBase, place: u64, cpus: &[Vec<KeptCpu>]) -> bool
    ensures { IsTrue result ↔ AnsweredBy (map (λ lane. lane.items) cpus.now) place (refill_of kept.now.entry) }
{
    match kept.entry {
        BaseEntry::Refill { cpu, cpu_place } => refill_at(cpus, cpu, cpu_place) == Some(place),
        _ => true,
    }
}

/// Whether, for each refill, the CPU's entry that the refill names also names the refill.
pub(crate) fn refills_answered(base: &[KeptBase], cpus: &[Vec<KeptCpu>]) -> bool
    ensures { IsTrue result ↔ AllRefillsAnswered base.now (map (λ lane. lane.items) cpus.now) }
{
    for (place, kept) in base.iter().enumerate() {
        if !refill_answered(kept, place as u64, cpus) {
            return false;
        }
    }
    true
}
