//! The table of lanes, the passes of its callers, and a lane while a pass holds it.
ghost use Rattle.std.specs.Prelude.{◌≡◌, ◌+◌, ◌*◌, ◌^◌, ◌<◌, ◌≤◌};
ghost use Rattle.lane_table.specs.LaneNumbers.{index_of};
ghost use Rattle.lane_table.specs.WorldRule.{ticket_word, serving_word};

use crate::plays::World;
use crate::slot::Slot;
use crate::values::{Boxed, LaneState};
use crate::view::{TableSize, View};
use atomic_table::{Seat, Table};
use key_names::LaneId;
use std::alloc::Global;

// The words of the table. Word 0 is the generation. Each lane has a ticket word and a serving word, which share their
// 128 bytes with no other lane.
pub(crate) const GENERATION: usize = 0;

pub(crate) const LINE: usize = 16;

pub(crate) fn ticket_word(lane: usize) -> usize
    requires { lane < 258 }
    ensures { result ≡ ticket_word lane }
{
    LINE * lane + LINE
}

pub(crate) fn serving_word(lane: usize) -> usize
    requires { lane < 258 }
    ensures { result ≡ serving_word lane }
{
    ticket_word(lane) + 1
}

/// The pool, the base and some CPUs, each a lane with its own ticket lock, and the generation word.
///
/// In contracts a pass's knowledge is its view. A call's contract compares the view before the call with the view after
/// it.
#[derive(Drop)]
pub struct Lanes {
    pub(crate) table: Table<Slot, View, TableSize, World, Global>,
    pub(crate) cpus: u32,
    ghost sized: { (table.shared.table_id.words ≡ 16 * (cpus + 2) + 16) × (table.shared.table_id.slots ≡ cpus + 2) },
    ghost few: { (1 ≤ cpus) × (cpus ≤ 256) },
}

/// One caller's token for the lanes.
#[derive(Drop)]
pub struct Pass {
    pub(crate) seat: Seat<Slot, View>,
    pub(crate) stamp: u64,
    pub(crate) caller: u32,
}

/// One hold of a lane: the lane's number, the pass's ticket, and the lane's next place and last stamp at the take.
#[derive(Drop)]
pub struct TakenTurn {
    pub(crate) lane: usize,
    pub(crate) ticket: u64,
    pub(crate) place: u64,
    pub(crate) stamp: u64,
    ghost near: { lane < 258 },
    ghost early: { (ticket < 2 ^ 62) × (place ≤ stamp) × (stamp < 2 ^ 62) },
}

/// A lane that a pass holds. It must be given to `put` or `back`.
pub struct Held {
    pub(crate) turn: TakenTurn,
    pub(crate) state: Boxed,
}

/// Why `try_take` did not get a lane. `try_take` checks for these reasons in this order, but reads the lane's last
/// stamp only after it got the lane.
#[derive(Clone, Copy, Debug, PartialEq, Eq)]
pub enum TakeFault {
    /// A number that would have to grow is 2^62 or more: the lane's tickets, its last stamp, or the stamp of the
    /// pass.
    Spent,
    /// Another pass has the lane or waits for it: `try_take` loaded `serving` from the serving word, and then read
    /// the higher number `ticket` from the ticket word.
    Busy { serving: u64, ticket: u64 },
}

// `index_of` returns the number of a lane, and `lane_at` returns the lane that has a number.
pub(crate) fn index_of(lane: LaneId) -> usize
    ensures { result ≡ index_of lane }
{
    match lane {
        LaneId::Pool => 0,
        LaneId::Base => 1,
        LaneId::Cpu(cpu) => cpu as usize + 2,
    }
}

pub(crate) fn lane_at(index: usize) -> LaneId
    requires { index < 258 }
    ensures { index_of result ≡ index }
{
    match index {
        0 => LaneId::Pool,
        1 => LaneId::Base,
        _ => LaneId::Cpu((index - 2) as u32),
    }
}

impl Lanes {
    /// The number of CPUs.
    pub fn cpus(&self) -> u32
        ensures { result ≡ self.now.cpus }
    {
        self.cpus
    }
}

impl Pass {
    /// The pass's stamp: an upper bound for the stamps of all visits that the pass made, or got from another pass at a
    /// split or a join.
    pub fn stamp(&self) -> u64
        ensures { result ≡ self.now.stamp }
    {
        self.stamp
    }

    /// The number of the pass's caller.
    pub fn caller(&self) -> u32
        ensures { result ≡ self.now.caller }
    {
        self.caller
    }
}

impl Held {
    ghost use Rattle.lane_table.specs.Lending.{LendsState};
    ghost use Rattle.std.specs.Borrow.{sem};

    /// The held lane. A caller that keeps several holds in one collection needs this function; the core keeps each hold
    /// in its own variable.
    pub fn lane(&self) -> LaneId
        ensures { index_of result ≡ self.now.turn.lane }
    {
        lane_at(self.turn.lane)
    }

    /// The next place of the lane.
    pub fn place(&self) -> u64
        ensures { result ≡ self.now.turn.place }
    {
        self.turn.place
    }

    /// The last stamp of the lane, for a caller that only watches. The core takes a visit's stamp from the visit's
    /// mark.
    pub fn stamp(&self) -> u64
        ensures { result ≡ self.now.turn.stamp }
    {
        self.turn.stamp
    }

    /// The value of the lane.
    pub fn state(&self) -> &LaneState
        ensures { result.now ≡ self.now.state }
    {
        self.state.get()
    }

    /// The value of the lane, for changes. `put` requires the changed value to be the one that the argument `entry` of
    /// `put` defines.
    pub fn state_mut(&mut self) -> &mut LaneState
        ensures* writes_back { sem 𝓛 (LendsState self.entry result) }
        ensures value { result.now ≡ self.old.state }
    {
        self.state.get_mut()
    }
}
