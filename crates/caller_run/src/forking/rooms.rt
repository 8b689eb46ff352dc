//! Rooms: the memory that a caller fills, with the rooms of the callers that it forks.
ghost use Rattle.std.specs.Prelude.{◌≡◌, map};
ghost use Rattle.caller_run.specs.Layouts.{layout, layout_by};

use crate::making::states::States;
use crate::output::logs::Log;

/// The memory that one caller fills, with the buffers for the bytes of its calls.
#[derive(Drop)]
pub(crate) struct Buffers {
    pub(crate) log: Log,
    pub(crate) served: Vec<u8>,
    pub(crate) inside: Vec<u8>,
}

/// Memory for a caller of a script and for all callers that it forks. It has room for the caller's lines and for the
/// bytes that these lines show. It also has the rooms of the caller's children. A run fills this memory.
#[derive(Drop)]
pub struct Room {
    pub(crate) caller: u32,
    pub(crate) buffers: Buffers,
    // The child in the last room is forked first.
    pub(crate) kids: Vec<Room>,
    // The content of the states does not matter: the caller wipes them first.
    pub(crate) states: Box<States>,
}

impl Room {
    pub(crate) fn open(self) -> (u32, Buffers, Vec<Room>, Box<States>)
        ensures { layout self ≡ layout_by result.0 result.1 (map layout result.2.items) }
    {
        let Room {
            caller,
            buffers,
            kids,
            states,
        } = self;
        (caller, buffers, kids, states)
    }

    pub(crate) fn with(caller: u32, buffers: Buffers, kids: Vec<Room>, states: Box<States>) -> Room
        ensures { layout result ≡ layout_by caller buffers (map layout kids.items) }
    {
        Room {
            caller,
            buffers,
            kids,
            states,
        }
    }
}
