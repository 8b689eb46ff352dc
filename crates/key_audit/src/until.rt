//! The moment up to which the commands `live T` and `live C.E` read a book.
ghost use Rattle.std.specs.Prelude.{◌≡◌};
ghost use Rattle.key_audit.specs.Live.{cut_at, until_stamp};

use audit_keys::entry::Cut;

/// The moment up to which a book is read: a stamp, or the end of a call.
#[derive(Clone, Copy, Debug, PartialEq, Eq)]
pub(crate) enum Until {
    /// The visits up to this stamp, and the calls that were over by this stamp.
    Stamp(u64),
    /// The visits up to `stamp`, the calls of `caller` up to and including number `call`, and the calls of each other
    /// caller that were over by `stamp`.
    Call {
        stamp: u64,
        caller: u32,
        call: usize,
    },
}

impl Until {
    /// The stamp of the last visit that is kept.
    pub(crate) fn stamp(self) -> u64
        ensures { result ≡ until_stamp self }
    {
        match self {
            Until::Stamp(stamp) | Until::Call { stamp, .. } => stamp,
        }
    }

    /// The cut that determines which entries of the vgetrandom states of caller number `of` are kept.
    pub(crate) fn cut(self, of: usize) -> Cut
        ensures { result ≡ cut_at self of }
    {
        match self {
            Until::Stamp(stamp) => Cut::Stamp(stamp),
            Until::Call {
                stamp,
                caller,
                call,
            } => {
                if caller as usize == of {
                    Cut::Call(call)
                } else {
                    Cut::Stamp(stamp)
                }
            }
        }
    }
}
