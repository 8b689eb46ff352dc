//! The uses of the base's entries.
ghost use Rattle.std.specs.Prelude.{◌≡◌, ◌++◌, IfOk, OnOk};
ghost use Rattle.key_names.specs.Lanes.BaseList.{BaseState, base_start, base_step, base_key_in_use, base_key_after};
ghost use Rattle.audit_keys.specs.KeptEntries.{base_entries};
ghost use Rattle.audit_keys.specs.ListedFrom.{listed_from};
ghost use Rattle.audit_keys.specs.UsedAt.{base_used_at};

use crate::read_uses::{InUse, push_read};
use crate::used::{Origin, Used};
use judge_log::{KeptBase, root_of};
use key_names::{BaseEntry, KeyName, LaneId};
use std::alloc::{AllocError, Global};

/// The key in use at an entry: the root that the entry names, or the key before the entry if the entry names no root.
pub fn key_in_use(entry: BaseEntry, key: Option<KeyName>) -> Option<KeyName>
    ensures { result ≡ base_key_in_use entry key }
{
    match root_of(entry) {
        Some(root) => Some(KeyName::Root(root)),
        None => key,
    }
}

/// The key of the base after the entry at a place. `key` is the key before the entry.
pub fn key_after(place: u64, entry: BaseEntry, key: Option<KeyName>) -> Option<KeyName>
    ensures { result ≡ base_key_after place entry key }
{
    match entry {
        BaseEntry::Draw { .. } | BaseEntry::Refill { .. } => Some(KeyName::Base(place)),
        _ => key_in_use(entry, key),
    }
}

// Adds the uses of the entry at a place; `key` is the key before the entry.
fn push_uses(
    uses: &mut Vec<Used>,
    key: Option<KeyName>,
    place: u64,
    entry: BaseEntry,
) -> Result<(), AllocError>
    ensures { (s : BaseState) → s.place ≡ place → s.key ≡ key → OnOk result (uses.new.items
        ≡ uses.old.items ++ base_used_at s entry) }
{
    let Some(key) = key_in_use(entry, key) else {
        return Ok(());
    };
    let by = Origin::Lane(LaneId::Base, place);
    let used = InUse { key, by };
    let call = KeyName::Call(LaneId::Base, place);
    match entry {
        BaseEntry::Draw { taken, .. } => {
            push_read(uses, used, KeyName::Base(place), call, false, taken)?;
        }
        BaseEntry::Refill { .. } => {
            uses.push(used.kept(0, KeyName::Base(place)))?;
            uses.push(used.kept(32, call))?;
        }
        _ => {}
    }
    Ok(())
}

/// All uses of the base's entries, in order.
///
/// # Errors
///
/// `AllocError` if there is no memory for them.
pub fn base_uses(alloc: Global, base: &[KeptBase]) -> Result<Vec<Used>, AllocError>
    ensures { IfOk result (λ uses.
        uses.items ≡ listed_from base_used_at base_step base_start (base_entries base.now)) }
{
    let mut uses = Vec::new(alloc);
    let mut key = None;
    for (place, kept) in base.iter().enumerate() {
        push_uses(&mut uses, key, place as u64, kept.entry)?;
        key = key_after(place as u64, kept.entry, key);
    }
    Ok(uses)
}
