//! An entry of a vgetrandom state's list, and the call that left it.
ghost use Rattle.std.specs.Prelude.{◌≡◌};
ghost use Rattle.audit_keys.specs.StateCut.{is_kept};

use key_names::VEntry;

/// The end of a call, and the line that shows it.
#[derive(Clone, Copy, Debug, PartialEq, Eq)]
pub struct CallEnd {
    /// The stamp of the last visit before the end of the call. The caller made this visit, or an ancestor made it
    /// before the caller's start. The stamp is 0 if there was no such visit.
    pub stamp: u64,
    /// The number of the line's caller.
    pub caller: u32,
    /// The number of the line's event. For a `vread` this is the event of the `vread` itself, and never that of an act.
    pub event: u32,
}

/// An entry of a vgetrandom state, and the call that left it.
#[derive(Clone, Copy, Debug, PartialEq, Eq)]
pub struct StateEntry {
    pub entry: VEntry,
    /// The number of the call among the caller's calls, from 0.
    pub call: usize,
    pub end: CallEnd,
}

/// Which entries of a caller's vgetrandom states are kept.
#[derive(Clone, Copy, Debug, PartialEq, Eq)]
pub enum Cut {
    /// The entries of the calls that were over by this stamp.
    Stamp(u64),
    /// The entries of the calls up to and including the call with this number.
    Call(usize),
}

impl Cut {
    /// Whether this cut keeps an entry.
    pub fn keeps(self, entry: &StateEntry) -> bool
        ensures { result ≡ is_kept self entry.now }
    {
        match self {
            Cut::Stamp(stamp) => entry.end.stamp <= stamp,
            Cut::Call(last) => entry.call <= last,
        }
    }
}
