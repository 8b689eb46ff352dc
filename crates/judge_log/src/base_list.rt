//! Replays the base's list.
ghost use Rattle.std.specs.Prelude.{◌≡◌, ◌↔◌, ◌<◌, ◌^◌, ℕ, All, IsTrue, IfOk, IfSome, IsSome, MatchOption};
ghost use Rattle.std.specs.Prelude.{Some, None, if◌then◌else◌};
ghost use Rattle.base_gen.specs.BaseValue.{after_entry, key_in_use};
ghost use Rattle.key_names.specs.Lanes.BaseList.{base_erases, root_of};
ghost use Rattle.judge_log.specs.BaseLane.{Fits, RootConformsIn, root_value_in, state_of, crossed_of, AllBaseMay};
ghost use Rattle.judge_log.specs.Closed.{base_entry, closed};
ghost use Rattle.judge_log.specs.Kept.{KeepsPoolLane, KeepsBaseLane};
ghost use Rattle.judge_log.specs.Tables.{tables_of, EntryIsNear, BaseIsNear};
ghost use Rattle.input_pool.specs.PoolConforms.{crossing_of};

use crate::inferred::InferredEntries;
use crate::kept::{KeptBase, KeptPool};
use crate::names::root_of;
use base_gen::{Base, Phase};
use input_pool::Crossing;
use judge_lines::inferred::BaseInferred;
use key_names::BaseEntry;
use std::alloc::{AllocError, Global};

/// Whether the phase, generation, timer and running count of `base` allow `entry`.
fn fits(base: &Base, entry: BaseEntry) -> bool
    ensures { IsTrue result ↔ Fits base.now entry }
{
    match entry {
        BaseEntry::Early { root: Some(_) } | BaseEntry::Draw { root: Some(_), .. } => {
            base.phase() == Phase::Empty
        }
        BaseEntry::Early { root: None } => base.phase() != Phase::Empty,
        BaseEntry::Draw { root: None, .. } => base.phase() == Phase::Early,
        BaseEntry::Refill { .. } => base.phase() == Phase::Ready,
        BaseEntry::Tick { now, root } => base.due(now) == root.is_some(),
        BaseEntry::Resume => base.generation() >= 1,
        BaseEntry::Interrupt => base.generation() == 0 && base.idle(),
        _ => true,
    }
}

/// Changes the base by an entry that fits it. `root` is the value of the root that the entry names. If the entry erases
/// the key in use, returns that key.
fn enter(base: &mut Base, entry: BaseEntry, root: [u8; 32]) -> Option<[u8; 32]>
    requires generation { base.old.generation < 2 ^ 63 }
    requires moment { EntryIsNear entry }
    ensures state { base.new ≡ after_entry entry root base.old }
    ensures key { result ≡ (if base_erases entry then Some (key_in_use (root_of entry) root base.old.key) else None) }
{
    match entry {
        BaseEntry::Early { root: Some(_) } => base.install_early(root),
        BaseEntry::Draw { root: Some(_), .. } => {
            base.fill_empty(root);
            return Some(base.draw(&mut []).key);
        }
        BaseEntry::Draw { root: None, .. } | BaseEntry::Refill { .. } => {
            return Some(base.draw(&mut []).key);
        }
        BaseEntry::Resume | BaseEntry::Interrupt | BaseEntry::Fork { .. } | BaseEntry::Unstall => {
            base.up();
        }
        BaseEntry::End | BaseEntry::Wait | BaseEntry::Stall => base.down(),
        BaseEntry::Reseed { now, .. } => base.install(root, now),
        BaseEntry::Tick { now, root: Some(_) } => base.fire(root, now),
        BaseEntry::Early { root: None } | BaseEntry::Tick { root: None, .. } => {}
    }
    None
}

/// The threshold (128 or 256 bits) that the entry at `place` of the pool crosses, if any.
fn crossed_at(pool: &[KeptPool], place: u64) -> Crossing
    ensures { crossing_of result ≡ crossed_of pool.now place }
{
    match pool.get(place as usize) {
        Some(kept) => kept.crossing,
        None => Crossing::None,
    }
}

/// Completes an inferred entry, given the base before this entry and the data kept about the pool.
fn close(base: &Base, inferred: BaseInferred, pool: &[KeptPool]) -> BaseEntry
    ensures { result ≡ base_entry (crossed_of pool.now) (state_of base.now) inferred }
{
    match inferred {
        BaseInferred::Is(entry) => entry,
        BaseInferred::Crossed { root, now, credit } => match crossed_at(pool, credit) {
            Crossing::Ready => BaseEntry::Reseed { root, now },
            Crossing::Early | Crossing::None => BaseEntry::Early { root: Some(root) },
        },
        BaseInferred::Woken => {
            if base.generation() >= 1 {
                BaseEntry::Resume
            } else {
                BaseEntry::Interrupt
            }
        }
    }
}

/// If a root is named, its value; otherwise zeros. `None` if the named place is below `least`, or if the pool has, at
/// the named place, no extraction for `place` of the base.
fn root_value(pool: &[KeptPool], least: u64, place: u64, named: Option<u64>) -> Option<[u8; 32]>
    ensures { MatchOption result (RootConformsIn pool.now least place named → ⊥) (λ value.
        RootConformsIn pool.now least place named × ((r : ℕ) → named ≡ Some r → root_value_in pool.now r ≡ Some value)) }
{
    let Some(r) = named else {
        return Some([0; 32]);
    };
    let root = pool.get(r as usize)?.root?;
    if least <= r && root.base_place == place {
        Some(root.value)
    } else {
        None
    }
}

/// Replays the base's list, and returns the data kept about its visits. `None` if the list is not lawful.
pub(crate) fn replay_base(
    alloc: Global,
    inferred: &InferredEntries,
    pool: &[KeptPool],
) -> Result<Option<Vec<KeptBase>>, AllocError>
    requires moments { All BaseIsNear inferred.now.base.items }
    requires pool { KeepsPoolLane pool.now (closed (tables_of inferred.now)) }
    ensures some { IfOk result (λ o. IfSome o (λ kept. AllBaseMay (closed (tables_of inferred.now))
        × KeepsBaseLane kept.items (closed (tables_of inferred.now)))) }
    ensures none { IfOk result (λ o. AllBaseMay (closed (tables_of inferred.now)) → IsSome o) }
{
    let mut base = Base::start();
    let mut least = 0;
    let mut kept = Vec::with_capacity(alloc, inferred.base.len())?;
    for (place, one) in inferred.base.iter().enumerate() {
        let entry = close(&base, *one, pool);
        let named = root_of(entry);
        let Some(root) = root_value(pool, least, place as u64, named) else {
            return Ok(None);
        };
        if !fits(&base, entry) {
            return Ok(None);
        }
        let key = enter(&mut base, entry, root);
        if let Some(named) = named {
            least = named + 1;
        }
        kept.push(KeptBase {
            entry,
            generation: base.generation(),
            key,
        })?;
    }
    Ok(Some(kept))
}
