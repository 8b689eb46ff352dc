//! The laws of the lanes. The first laws state parts of the rule, which holds between any two atomic steps. The last
//! ones are about the lanes' lists of visits as a book. Each law is the contract of a function without code.
ghost use Rattle.lane_table.specs.BookLaws.{ClosedIsForwardLawful, HalfAnsweredIsHalfFinished, AnsweredIsLawful};
ghost use Rattle.lane_table.specs.BookLaws.{ClosedReplays, ClosedGives};
ghost use Rattle.lane_table.specs.RuleLaws.{EachTicketHasOneHolder, NumbersCountFromFirst, KnownListsBegin, ValuesAreReplays};
ghost use Rattle.lane_table.specs.RuleLaws.{CountsAndSharesAddUp, StampsRise, ListsAreLawfulSoFar, GenerationIsTheBases};

/// In each lane the tickets in use are the numbers from the serving number up to the ticket number, which is the next
/// ticket to be drawn. Each ticket in use belongs to one pass. The pass that holds the lane has the served ticket.
pub fn each_ticket_has_one_holder()
    ensures { EachTicketHasOneHolder }
{}

/// A lane's ticket number is the table's first number plus the number of tickets that the passes drew for this lane.
/// The lane's serving number is lower by the number of tickets in use.
pub fn numbers_count_from_first()
    ensures { NumbersCountFromFirst }
{}

/// Each lane has one list of visits. Each pass knows a prefix of the list, and the pass that holds the lane knows the
/// whole list. If a pass knows an entry that names an entry of the parent lane, the pass knows the named entry too. A
/// lane's value carries lists from one holder to the next: the lane's whole list, and a prefix of each other lane's
/// list. If an entry in these lists names an entry of the parent lane, these lists contain the named entry too.
pub fn known_lists_begin()
    ensures { KnownListsBegin }
{}

/// The value in a lane's slot is the replay of the lane's list; the slot has the list's next place and last stamp. If
/// the slot is empty, the pass with the served ticket has the value.
pub fn values_are_replays()
    ensures { ValuesAreReplays }
{}

/// All passes together count each visit of the lists exactly once. The shares of all passes add up to the whole.
pub fn counts_and_shares_add_up()
    ensures { CountsAndSharesAddUp }
{}

/// Stamps rise along each list. A pass's stamp is at least the stamp of each visit that the pass made, or got from
/// another pass at a split or a join.
pub fn stamps_rise()
    ensures { StampsRise }
{}

/// The lists are lawful, except for visits that are half finished: an extraction or a refill may name a place that
/// the list of the other lane does not have yet. That place is the list's next one, and a pass that holds the other
/// lane owes the answer.
pub fn lists_are_lawful_so_far()
    ensures { ListsAreLawfulSoFar }
{}

/// The generation word is the number of reseeds in the base's list, plus one between a raise and the `put` after it.
/// The word is below 2^63. The word is at least each CPU's generation, and at least each generation that a pass knows.
pub fn generation_is_the_bases()
    ensures { GenerationIsTheBases }
{}

/// Suppose that each list is lawful, and that each visit that an entry names in its parent lane names the entry back.
/// Then in the book the lists of the base and the CPUs are lawful. If an entry of these lists names a root or a refill,
/// the entry at the named place names it back (`ForwardLawful`).
pub fn closed_is_forward_lawful()
    ensures { ClosedIsForwardLawful }
{}

/// Suppose that the lists are closed and lawful (`ClosedLanes`). An extraction or a refill names the place that takes
/// its key. If each such place has a visit that names the extraction or refill back, or is beyond the end of its list,
/// the lanes of the book are half finished.
pub fn half_answered_is_half_finished()
    ensures { HalfAnsweredIsHalfFinished }
{}

/// Suppose that the lists are closed and lawful (`ClosedLanes`). An extraction or a refill names the place that takes
/// its key. If each such place has a visit that names the extraction or refill back, the lanes of the book are lawful.
pub fn answered_is_lawful()
    ensures { AnsweredIsLawful }
{}

/// In closed and lawful lists, the replay of a lane's own list gives the same values as the book's entries. The replay
/// uses the keys that the lane's visits received. The values are the pool, the base, and for each CPU the generator,
/// the fast pool, the fills and the bytes of the batches.
pub fn closed_replays()
    ensures { ClosedReplays }
{}

/// In closed and lawful lists, each visit hands on the key that the book gives for the visit's place. The key is a
/// root, or comes from an erasure.
pub fn closed_gives()
    ensures { ClosedGives }
{}
