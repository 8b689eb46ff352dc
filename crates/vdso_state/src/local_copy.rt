//! A copy out of the batch without a vgetrandom call, for a caller that has looked at the generation itself.

ghost use Rattle.std.specs.Prelude.{◌≡◌, length};
ghost use Rattle.vdso_state.specs.Local.{CopiesLocally};

use crate::outcome::Local;
use crate::state::VState;

/// Copies bytes of the batch over all of `buf` if three conditions hold: the state's key is of the published generation
/// `g`, the state is not in use, and the batch has enough bytes left. Otherwise, or if `g` is 0, nothing changes.
pub fn local(g: u64, st: &mut VState, buf: &mut [u8]) -> Local
    ensures { CopiesLocally g (length buf.old) st.old st.new result buf.old buf.new }
{
    if g == 0 || g != st.generation() || st.is_in_use() || st.left() < buf.len() {
        return Local::NeedsSystem;
    }
    st.copy_from_batch(buf);
    Local::Served
}
