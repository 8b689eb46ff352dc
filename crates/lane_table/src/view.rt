//! The knowledge of a caller about the lanes, and the content of a lane's slot.
//!
//! No code makes a value of `Visit` or `View`, or of their fields' types: proofs use them to describe a pass.

ghost use Rattle.std.specs.Prelude.{◌≡◌};

use crate::values::Boxed;
use key_names::{BaseEntry, CpuEntry, PoolEntry, Who};
use std::collections::LinkedList;

/// An entry of some lane's list.
#[derive(Drop)]
pub enum LaneEntry {
    Pool(PoolEntry),
    Base(BaseEntry),
    Cpu(CpuEntry),
}

/// A key that one entry hands to another, and the generation of the lane that hands it over.
pub struct Handed {
    pub key: LinkedList<u8>,
    pub generation: u64,
}

/// One visit of a lane. `got` is the key that the visit received, and `gave` is the key that the visit hands on.
pub struct Visit {
    pub who: Who,
    pub stamp: u64,
    pub entry: LaneEntry,
    pub got: Handed,
    pub gave: Handed,
}

/// The stage of a caller at a lane: the caller has no ticket, or waits with a ticket, or holds the lane with its
/// ticket.
pub enum TicketStage {
    Away,
    Queued(u64),
    Holding(u64),
}

/// The knowledge of a caller about one lane.
///
/// - `known`: a prefix of the lane's list of visits.
/// - `made` and `places`: the number of visits that the caller made, or got at a join, and their places in the list.
/// - `tickets`: the number of the lane's tickets that the caller drew, or got at a join.
/// - `stage`: the caller's stage at the lane.
/// - `owes`: an entry of another lane may already name the place that the caller holds in this lane. If so, `owes` is
///   the place of that entry, and the caller's visit must name that entry back.
/// - `raised`: 1 if the caller raised the generation in this hold, else 0.
/// - `loaded` and `found`: the serving number and the ticket number that the caller read last.
/// - `heard`: for each join, the prefixes of the list that the two passes knew before it.
pub struct LaneView {
    pub known: LinkedList<Visit>,
    pub made: u64,
    pub places: LinkedList<u64>,
    pub tickets: u64,
    pub stage: TicketStage,
    pub owes: Option<u64>,
    pub raised: u64,
    pub loaded: u64,
    pub found: u64,
    pub heard: LinkedList<LinkedList<Visit>>,
}

/// The knowledge of a caller about the whole table.
///
/// - `first`: a bound below all stamps of the table's visits.
/// - `share` and `halvings`: the caller's share of the table, which is `share / 2^halvings`.
/// - `stamp`: an upper bound for the stamps in `stamps`.
/// - `stamps`: the stamps of the visits that the caller made, or got from another pass at a split or a join.
/// - `drawn`: the number of tickets that the caller drew.
/// - `seen`: the greatest generation that the caller found in a look, raised, or got at a split or a join.
/// - `looks`: the generations that the caller found in its looks, in order.
/// - `lanes`: the caller's knowledge of each lane.
pub struct View {
    pub first: u64,
    pub share: u64,
    pub halvings: u64,
    pub stamp: u64,
    pub stamps: LinkedList<u64>,
    pub drawn: u64,
    pub seen: u64,
    pub looks: LinkedList<u64>,
    pub lanes: LinkedList<LaneView>,
}

/// The number of a table's lanes, and the number at which the table's stamps, tickets and serving numbers begin.
#[derive(Drop)]
pub struct TableSize {
    pub count: usize,
    pub first: u64,
}

/// The content of a lane's slot: the value, the place of the next visit, and the stamp of the last one.
#[derive(Drop)]
pub struct Content {
    pub(crate) state: Boxed,
    pub place: u64,
    pub stamp: u64,
}

impl Content {
    pub(crate) fn place(&self) -> u64
        ensures { result ≡ self.now.place }
    {
        self.place
    }
}
