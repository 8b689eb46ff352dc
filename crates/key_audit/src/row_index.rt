//! An index that finds a key's row by the key's name.
ghost use Rattle.std.specs.Prelude.{◌≡◌, ◌≢◌, ℕ, IfOk, IfSome, None, Some, length};
ghost use Rattle.key_audit.specs.Index.{IsIndexTo};
ghost use Rattle.key_audit.specs.Live.{name_at};

use audit_keys::rows::KeyRow;
use key_names::KeyName;
use std::alloc::{AllocError, Global};
use std::collections::BTreeMap;

/// The rows of a book (one row for each key), with an index by the names of the keys.
#[derive(Drop)]
pub(crate) struct RowIndex<'a> {
    rows: &'a [KeyRow],
    /// For each key, the number of its row.
    by_name: BTreeMap<KeyName, usize>,
    ghost indexed: { IsIndexTo (length rows.now) rows.now by_name },
}

impl<'a> RowIndex<'a> {
    /// Makes the index of these rows.
    ///
    /// # Errors
    ///
    /// `AllocError` if there is no memory for it.
    pub(crate) fn of(alloc: Global, rows: &'a [KeyRow]) -> Result<RowIndex<'a>, AllocError>
        ensures { IfOk result (λ index. index.rows.now ≡ rows.now) }
    {
        let mut by_name = BTreeMap::new(alloc);
        for (number, row) in rows.iter().enumerate() {
            by_name.insert(row.key, number)?;
        }
        Ok(RowIndex { rows, by_name })
    }

    /// The number of the row of `key`, or `None` if `key` has no row.
    pub(crate) fn find(&self, key: KeyName) -> Option<usize>
        ensures found { IfSome result (λ n. name_at self.now.rows.now n ≡ Some key) }
        ensures none { result ≡ None → (n : ℕ) → name_at self.now.rows.now n ≢ Some key }
    {
        self.by_name.get(&key).copied()
    }
}
