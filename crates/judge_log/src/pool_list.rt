//! Replays the pool's list.
ghost use Rattle.std.specs.Prelude.{◌≡◌, ◌↔◌, ◌<◌, ◌^◌, All, IfOk, IfSome, IsSome, map};
ghost use Rattle.key_names.specs.declared.entries.PoolEntry.{PoolEntry};
ghost use Rattle.key_names.specs.declared.entries.PoolEntry.TheVariants.{Input as InputEntry};
ghost use Rattle.key_names.specs.Lanes.PoolList.{PoolState, crossing, pool_start, pool_step};
ghost use Rattle.key_names.specs.Lanes.PoolNotes.{entry_of};
ghost use Rattle.input_pool.specs.PoolConforms.{crossing_of};
ghost use Rattle.judge_log.specs.Closed.{closed};
ghost use Rattle.judge_log.specs.Dumps.{AllDumps};
ghost use Rattle.judge_log.specs.Kept.{root_kept, KeepsPoolLane};
ghost use Rattle.judge_log.specs.PoolLane.{LaneConforms, dump_in, entry_found, AllMixed};
ghost use Rattle.judge_log.specs.Tables.{tables_of, NoteIsNear, PoolIsNear};

use crate::inferred::{InferredEntries, InferredPool};
use crate::kept::{KeptPool, KeptRoot};
use input_pool::{Crossing, Pool};
use key_names::PoolNote;
use sample_credit::{Dump, InputTimer, input_sample};
use std::alloc::{AllocError, Global};

/// At this number of bits the core becomes ready, and further credit is dropped (`POOL_READY_BITS`).
const READY_BITS: u32 = 256;

/// At this number of bits the core is seeded early (`POOL_EARLY_BITS`).
const EARLY_BITS: u32 = 128;

/// The threshold that the pool's bits cross if they change from `before` to `after`, if any.
fn crossed(before: u32, after: u32) -> Crossing
    ensures { crossing_of result ≡ crossing before after }
{
    if before < READY_BITS && after == READY_BITS {
        Crossing::Ready
    } else if before < EARLY_BITS && EARLY_BITS <= after {
        Crossing::Early
    } else {
        Crossing::None
    }
}

/// The input pool, and the timer of its input events, while the pool's list is replayed.
#[derive(Drop)]
pub(crate) struct PoolReplay {
    pub(crate) pool: Pool,
    pub(crate) timer: InputTimer,
}

impl PoolReplay {
    fn start() -> PoolReplay
        ensures { LaneConforms result pool_start }
    {
        PoolReplay {
            pool: Pool::start(),
            timer: InputTimer::start(),
        }
    }

    /// Adds an input event. An event that repeats the last value has no effect. Any other event mixes its sample. If
    /// the pool is not full then, the event's moment determines a credit.
    fn input(&mut self, word: u64, kind: u16, code: u16, value: u8, now: u64)
        requires { now < 2 ^ 40 }
        ensures { (s : PoolState) → LaneConforms self.old s
            → LaneConforms self.new (pool_step s (InputEntry word kind code value now)) }
    {
        if !self.timer.fresh(value) {
            return;
        }
        self.pool.mix(&input_sample(word, kind, code, value));
        if self.pool.bits() >= READY_BITS {
            return;
        }
        let bits = self.timer.bits(now);
        self.pool.credit(bits);
    }

    /// Changes the pool by an entry, and returns the root if the entry is an extraction.
    fn enter(&mut self, note: PoolNote) -> Option<KeptRoot>
        requires { NoteIsNear note }
        ensures state { (s : PoolState) → LaneConforms self.old s → LaneConforms self.new (pool_step s (entry_of note.entry)) }
        ensures root { (s : PoolState) → LaneConforms self.old s → result ≡ root_kept s (entry_of note.entry) }
    {
        match note {
            PoolNote::Mix { text, bits } => {
                self.pool.mix(text);
                self.pool.credit(bits);
                None
            }
            PoolNote::Device { word, text } => {
                self.pool.mix(&word.to_le_bytes());
                self.pool.mix(text);
                None
            }
            PoolNote::Input {
                word,
                kind,
                code,
                value,
                now,
            } => {
                self.input(word, kind, code, value, now);
                None
            }
            PoolNote::Bits => None,
            PoolNote::Extract { hw, base_place } => Some(KeptRoot {
                value: self.pool.extract(&hw),
                base_place,
            }),
        }
    }
}

/// The dump that the visit at `place` of `cpu` made, if this visit is a dump.
fn dump_at(dumps: &[Vec<Option<Dump>>], cpu: u32, place: u64) -> Option<Dump>
    ensures { result ≡ dump_in (map (λ lane. lane.items) dumps.now) cpu place }
{
    *dumps.get(cpu as usize)?.get(place as usize)?
}

/// Changes the pool by a visit, and returns the root if the visit is an extraction. `None` if the visit mixes a dump
/// but the named CPU has no dump at the named place.
fn visit(
    lane: &mut PoolReplay,
    inferred: &InferredPool,
    dumps: &[Vec<Option<Dump>>],
) -> Option<Option<KeptRoot>>
    requires { PoolIsNear inferred.now }
    ensures none { (result ≡ None) ↔ (entry_found (map (λ lane. lane.items) dumps.now) inferred.now ≡ None) }
    ensures some { (s : PoolState) (e : PoolEntry) → LaneConforms lane.old s
        → entry_found (map (λ lane. lane.items) dumps.now) inferred.now ≡ Some e
        → LaneConforms lane.new (pool_step s e) × (result ≡ Some (root_kept s e)) }
{
    match *inferred {
        InferredPool::Is(note) => Some(lane.enter(note)),
        InferredPool::Dumped { cpu, place } => {
            let dump = dump_at(dumps, cpu, place)?;
            Some(lane.enter(PoolNote::Mix {
                text: &dump.bytes,
                bits: dump.bits,
            }))
        }
    }
}

/// Replays the pool's list, and returns the data kept about its visits. `None` if a visit mixes a dump but the named
/// CPU has no dump at the named place.
pub(crate) fn replay_pool(
    alloc: Global,
    inferred: &InferredEntries,
    dumps: &[Vec<Option<Dump>>],
) -> Result<Option<Vec<KeptPool>>, AllocError>
    requires notes { All PoolIsNear inferred.now.pool.items }
    requires dumps { AllDumps (closed (tables_of inferred.now)) (map (λ lane. lane.items) dumps.now) }
    ensures some { IfOk result (λ o. IfSome o (λ kept. AllMixed (tables_of inferred.now)
        × KeepsPoolLane kept.items (closed (tables_of inferred.now)))) }
    ensures none { IfOk result (λ o. AllMixed (tables_of inferred.now) → IsSome o) }
{
    let mut lane = PoolReplay::start();
    let mut kept = Vec::with_capacity(alloc, inferred.pool.len())?;
    for one in &inferred.pool {
        let before = lane.pool.bits();
        let Some(root) = visit(&mut lane, one, dumps) else {
            return Ok(None);
        };
        let crossing = crossed(before, lane.pool.bits());
        kept.push(KeptPool {
            before,
            crossing,
            root,
        })?;
    }
    Ok(Some(kept))
}
