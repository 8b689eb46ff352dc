//! Replays the list of a CPU.
ghost use Rattle.key_names.specs.Kernel.Keystream.{keystream};
ghost use Rattle.std.specs.Prelude.{ℕ, List, slice_get, ◌≡◌, ◌↔◌, ◌<◌, ◌^◌, All, IsTrue, IfOk, IfSome, IsSome};
ghost use Rattle.std.specs.Prelude.{MatchOption, length, map};
ghost use Rattle.key_names.specs.Lanes.Book.{cpu_list, list_at};
ghost use Rattle.judge_log.specs.Closed.{closed};
ghost use Rattle.judge_log.specs.CpuLane.{KeysKept, NamesIn, slot, put, one_more_kept, source_kept, RoomFor};
ghost use Rattle.judge_log.specs.CpuLane.{key_used, RefillConformsIn, HandedConforms, FitsKept, HasRoom, cpu_closed};
ghost use Rattle.judge_log.specs.CpuLane.{cpu_entered, fills_entered, source_entered, AllCpuMay, AllCpusMay};
ghost use Rattle.judge_log.specs.CpuLane.{refill_named};
ghost use Rattle.judge_log.specs.Kept.{KeepsBaseLane, KeepsCpuLane};
ghost use Rattle.judge_log.specs.Places.{AllKept};
ghost use Rattle.judge_log.specs.Tables.{tables_of, EntryIsWide, CpuIsWide};
ghost use Rattle.judge_log.specs.declared.inferred.InferredCpu.{InferredCpu};

use crate::inferred::InferredEntries;
use crate::kept::{BytesSource, KeptBase, KeptCpu};
use crate::last_fills::{LastFill, LastFills};
use chacha_blocks::derive_key;
use cpu_gen::Cpu;
use judge_lines::inferred::CpuInferred;
use key_names::{BaseEntry, CpuEntry};
use std::alloc::{AllocError, Global};

/// If the entry names a refill of the base: the generation that the entry's look found, and the refill's place.
fn refill_named(entry: CpuEntry) -> Option<(u64, u64)>
    ensures { result ≡ refill_named entry }
{
    match entry {
        CpuEntry::Read {
            look,
            refill: Some(refill),
            ..
        }
        | CpuEntry::Int {
            look,
            refill: Some(refill),
            ..
        } => Some((look, refill)),
        _ => None,
    }
}

/// Whether a visit of the base is a refill for `place` of CPU `cpu`, and the generation after this visit is at least
/// `look`.
fn refills(kept: &KeptBase, cpu: u32, place: u64, look: u64) -> bool
    ensures { IsTrue result ↔ NamesIn cpu place look (Some kept.now) }
{
    match kept.entry {
        BaseEntry::Refill {
            cpu: named,
            cpu_place,
        } => named == cpu && cpu_place == place && look <= kept.generation,
        _ => false,
    }
}

/// The data kept about the base's visit at `place`.
fn kept_at(base: &[KeptBase], place: u64) -> Option<KeptBase>
    ensures { result ≡ slice_get base.now place }
{
    base.get(place as usize).copied()
}

/// The key and generation that the base hands over at this visit. `None` if no key was kept for the visit.
fn hand_over(kept: &KeptBase) -> Option<Cpu>
    ensures { MatchOption result (kept.now.key ≡ None) (λ handed. (key : List ℕ) → kept.now.key ≡ Some key
        → handed ≡ record { key = keystream key 32 32; generation = kept.now.generation }) }
{
    let mut key = kept.key?;
    Some(Cpu::with(derive_key(&mut key), kept.generation))
}

/// The key and generation that `entry`, at `place` of the CPU, gets from the refill that it names, or `Some(None)` if
/// it names no refill. `None` if the named visit of the base is no refill for this place, or if the generation after
/// that visit is below the entry's look.
fn handed(base: &[KeptBase], cpu: u32, place: u64, entry: CpuEntry) -> Option<Option<Cpu>>
    requires { KeysKept base.now }
    ensures { MatchOption result (RefillConformsIn base.now cpu place (refill_named entry) → ⊥) (λ handed.
        RefillConformsIn base.now cpu place (refill_named entry) × HandedConforms base.now (refill_named entry) handed) }
{
    let Some((look, refill)) = refill_named(entry) else {
        return Some(None);
    };
    let kept = kept_at(base, refill)?;
    if !refills(&kept, cpu, place, look) {
        return None;
    }
    Some(Some(hand_over(&kept)?))
}

/// A CPU's generator, and the last fills of its batches.
#[derive(Drop)]
pub(crate) struct CpuReplay {
    pub(crate) cpu: Cpu,
    pub(crate) fills: LastFills,
}

impl CpuReplay {
    /// Completes an inferred entry, given the last fills of the batches.
    fn close(&self, inferred: CpuInferred) -> CpuEntry
        requires { CpuIsWide inferred }
        ensures { result ≡ cpu_closed self.now.fills inferred }
    {
        match inferred {
            CpuInferred::Is(entry) => entry,
            CpuInferred::Batch { look, width } => CpuEntry::Int {
                look,
                refill: None,
                width,
                filled: self.fills.wants(look, width),
            },
        }
    }

    /// Whether the generation and the batches allow an entry.
    fn fits(&self, entry: CpuEntry) -> bool
        requires { EntryIsWide entry }
        ensures { IsTrue result ↔ FitsKept self.now.cpu.generation self.now.fills entry }
    {
        let generation = self.cpu.generation();
        match entry {
            CpuEntry::Read { look, refill, .. } => {
                1 <= look && generation <= look && refill.is_none() == (look == generation)
            }
            CpuEntry::Int {
                look,
                refill,
                width,
                filled,
            } => {
                1 <= look
                    && generation <= look
                    && filled == self.fills.wants(look, width)
                    && refill.is_none() == (!filled || look == generation)
            }
            CpuEntry::Irq { .. } | CpuEntry::Dump { .. } | CpuEntry::Prepare | CpuEntry::Online =>
                true,
        }
    }

    /// Serves an integer from a batch that has bytes left.
    fn serve(&mut self, width: u8) -> BytesSource
        requires { HasRoom (slot self.old.fills width) }
        ensures fills { self.new.fills ≡ put width (one_more_kept (slot self.old.fills width)) self.old.fills }
        ensures cpu { self.new.cpu ≡ self.old.cpu }
        ensures source { result ≡ source_kept (slot self.old.fills width) }
    {
        match self.fills.last(width) {
            None => BytesSource::none(),
            Some(fill) => {
                self.fills.put(
                    width,
                    Some(LastFill {
                        count: fill.count + 1,
                        ..fill
                    }),
                );
                BytesSource {
                    key: Some(fill.key),
                    served: fill.count,
                }
            }
        }
    }

    /// Changes the lane by an entry that fits it. `handed` is the key and generation from the refill that the entry
    /// names. Returns the source of the entry's bytes.
    fn enter(&mut self, entry: CpuEntry, handed: Option<Cpu>) -> BytesSource
        requires wide { EntryIsWide entry }
        requires room { RoomFor self.old.fills entry }
        ensures cpu { self.new.cpu ≡ cpu_entered entry handed self.old.cpu }
        ensures fills { self.new.fills ≡ fills_entered entry (key_used handed self.old.cpu) self.old.fills }
        ensures source { result ≡ source_entered entry (key_used handed self.old.cpu) self.old.fills }
    {
        if let Some(handed) = handed {
            self.cpu = handed;
        }
        match entry {
            CpuEntry::Read { .. } => BytesSource {
                key: Some(self.cpu.front(&mut []).key),
                served: 0,
            },
            CpuEntry::Int {
                look,
                width,
                filled: true,
                ..
            } => {
                let key = self.cpu.front(&mut []).key;
                let count = 1;
                self.fills.put(width, Some(LastFill { look, key, count }));
                BytesSource {
                    key: Some(key),
                    served: 0,
                }
            }
            CpuEntry::Int {
                width,
                filled: false,
                ..
            } => self.serve(width),
            CpuEntry::Prepare => {
                self.cpu.prepare();
                self.fills = LastFills::none();
                BytesSource::none()
            }
            CpuEntry::Irq { .. } | CpuEntry::Dump { .. } | CpuEntry::Online => BytesSource::none(),
        }
    }
}

/// Replays a CPU's list, and returns the data kept about its visits. `None` if the list is not lawful.
fn replay_cpu(
    alloc: Global,
    inferred: &InferredEntries,
    cpu: usize,
    base: &[KeptBase],
) -> Result<Option<Vec<KeptCpu>>, AllocError>
    requires cpu { cpu < length inferred.now.cpus.items }
    requires cpus { length inferred.now.cpus.items < 2 ^ 32 }
    requires widths { All (λ (t : InferredCpu). CpuIsWide t.entry) (list_at (tables_of inferred.now).cpus cpu) }
    requires base { KeepsBaseLane base.now (closed (tables_of inferred.now)) }
    ensures some { IfOk result (λ o. IfSome o (λ kept. AllCpuMay (closed (tables_of inferred.now)) cpu
        × KeepsCpuLane (closed (tables_of inferred.now)) cpu kept.items (cpu_list (closed (tables_of inferred.now)) cpu))) }
    ensures none { IfOk result (λ o. AllCpuMay (closed (tables_of inferred.now)) cpu → IsSome o) }
{
    let mut lane = CpuReplay {
        cpu: Cpu::start(),
        fills: LastFills::none(),
    };
    let rows = &inferred.cpus[cpu];
    let mut kept = Vec::with_capacity(alloc, rows.len())?;
    for (place, one) in rows.iter().enumerate() {
        let entry = lane.close(one.entry);
        let Some(handed) = handed(base, cpu as u32, place as u64, entry) else {
            return Ok(None);
        };
        if !lane.fits(entry) {
            return Ok(None);
        }
        let source = lane.enter(entry, handed);
        kept.push(KeptCpu {
            entry,
            generation: lane.cpu.generation(),
            source,
        })?;
    }
    Ok(Some(kept))
}

/// Replays the lists of all CPUs, and returns the data kept about their visits. `None` if some list is not lawful.
pub(crate) fn replay_cpus(
    alloc: Global,
    inferred: &InferredEntries,
    base: &[KeptBase],
) -> Result<Option<Vec<Vec<KeptCpu>>>, AllocError>
    requires cpus { length (tables_of inferred.now).cpus < 2 ^ 32 }
    requires widths { All (λ lane. All (λ (t : InferredCpu). CpuIsWide t.entry) lane) (tables_of inferred.now).cpus }
    requires base { KeepsBaseLane base.now (closed (tables_of inferred.now)) }
    ensures some { IfOk result (λ o. IfSome o (λ kept. AllCpusMay (closed (tables_of inferred.now))
        × AllKept (KeepsCpuLane (closed (tables_of inferred.now))) (map (λ lane. lane.items) kept.items)
        (closed (tables_of inferred.now)).cpus)) }
    ensures none { IfOk result (λ o. AllCpusMay (closed (tables_of inferred.now)) → IsSome o) }
{
    let mut all = Vec::new(alloc);
    for cpu in 0..inferred.cpus.len() {
        match replay_cpu(alloc, inferred, cpu, base)? {
            Some(kept) => all.push(kept)?,
            None => return Ok(None),
        }
    }
    Ok(Some(all))
}
