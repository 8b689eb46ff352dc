//! A user's read from a key, which the read erases.

ghost use Rattle.std.specs.Prelude.{◌≡◌, ◌+◌, ◌^◌, ◌<◌, length};
ghost use Rattle.key_names.specs.Kernel.Keystream.{keystream};
ghost use Rattle.key_names.specs.Keys.KeyInUse.{taken_bytes};
ghost use Rattle.key_names.specs.declared.entries.Taken.TheVariants.{User};

use crate::erasure::{REST_OF_BLOCK, derive_key, erase};
use crate::stream::fill_from_block;

/// Erases `key` and fills `buf` for a user, like the kernel's `get_random_bytes_user`. Up to 32 bytes come from the
/// rest of the erasure's block. For more bytes, the 32 bytes of that rest become a key for this read alone, and `buf`
/// gets this key's keystream from block 1 on. `buf` has fewer than 2^40 - 1 bytes. If `buf` is empty, `key` is still
/// erased, unlike in the kernel's function.
///
/// This function is for a caller with one key and no lanes. The core makes the same read in two parts: one while it
/// holds a lane, and one after that.
pub fn user_read(key: &mut [u8; 32], buf: &mut [u8])
    requires { 1 + length buf.old < 2 ^ 40 }
    ensures erased { key.new ≡ keystream key.old 0 32 }
    ensures bytes { buf.new ≡ taken_bytes key.old (User (length buf.old)) }
{
    if buf.len() <= REST_OF_BLOCK {
        erase(key, buf);
    } else {
        let call_key = derive_key(key);
        fill_from_block(&call_key, 1, buf);
    }
}
