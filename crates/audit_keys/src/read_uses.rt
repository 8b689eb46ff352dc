//! The uses of a read.
ghost use Rattle.std.specs.Prelude.{◌≡◌, ◌++◌, OnOk};
ghost use Rattle.audit_keys.specs.UsedAt.{kept_as, served_by, taken_used, read_used};

use crate::used::{KEY_BYTES, Origin, Purpose, Used};
use key_names::{KeyName, Span, Taken};
use std::alloc::AllocError;

/// A key, with the entry at which it is in use.
#[derive(Clone, Copy)]
pub(crate) struct InUse {
    pub(crate) key: KeyName,
    pub(crate) by: Origin,
}

impl InUse {
    /// The use that keeps bytes of the key, from byte `from` on, as the key `name`.
    pub(crate) fn kept(self, from: u64, name: KeyName) -> Used
        ensures { result ≡ kept_as self.by self.key from name }
    {
        Used {
            span: Span {
                key: self.key,
                from,
                len: u64::from(KEY_BYTES),
            },
            purpose: Purpose::Kept(name),
            by: self.by,
        }
    }

    /// The use that serves `len` bytes of the key, from byte `from` on.
    pub(crate) fn served(self, from: u64, len: u64) -> Used
        ensures { result ≡ served_by self.by self.key from len }
    {
        Used {
            span: Span {
                key: self.key,
                from,
                len,
            },
            purpose: Purpose::Served,
            by: self.by,
        }
    }
}

// Adds the uses of the bytes that a read takes. These bytes follow the 32 bytes that the erasure keeps.
fn push_taken(
    uses: &mut Vec<Used>,
    used: InUse,
    call: KeyName,
    rekeys: bool,
    taken: Taken,
) -> Result<(), AllocError>
    ensures { OnOk result (uses.new.items ≡ uses.old.items ++ taken_used rekeys used.by used.key call taken) }
{
    match taken {
        Taken::User(len) if len > KEY_BYTES => {
            uses.push(used.kept(32, call))?;
            let by = used.by;
            uses.push(InUse { key: call, by }.served(64, u64::from(len)))?;
        }
        Taken::User(_) if rekeys => uses.push(used.kept(32, call))?,
        Taken::User(len) | Taken::Kernel(len) => uses.push(used.served(32, u64::from(len)))?,
    }
    Ok(())
}

/// Adds the uses of an erasure and its read. The erasure keeps the key `next`. If the 32 bytes after that key become a
/// key, `call` is the name of this key. `rekeys` is whether a vgetrandom state takes these 32 bytes.
///
/// # Errors
///
/// `AllocError` if there is no memory for the uses.
pub(crate) fn push_read(
    uses: &mut Vec<Used>,
    used: InUse,
    next: KeyName,
    call: KeyName,
    rekeys: bool,
    taken: Taken,
) -> Result<(), AllocError>
    ensures { OnOk result (uses.new.items ≡ uses.old.items ++ read_used rekeys used.by used.key next call taken) }
{
    uses.push(used.kept(0, next))?;
    push_taken(uses, used, call, rekeys, taken)
}
