//! The laws of books, each as the contract of a function without code.
ghost use Rattle.key_names.specs.Keys.LiveMaterial.{LawfulIsDisjoint, LawfulIsErased, LawfulHoldsNamed};
ghost use Rattle.key_names.specs.Callers.StateCalls.{UsesLeaveLawfulLists};
ghost use Rattle.key_names.specs.Keys.ServedNamed.{LawfulServesNamed};
ghost use Rattle.key_names.specs.Transcripts.StatesReplayed.{StatesAreReplayed};
ghost use Rattle.key_names.specs.Transcripts.PrintedBytes.{TranscriptPrintsNamed};
ghost use Rattle.key_names.specs.Texts.ScriptOrFault.{TextIsScriptOrFaulty};
ghost use Rattle.key_names.specs.Lanes.BookHistory.{HistoryKeepsLanes};
ghost use Rattle.key_names.specs.Transcripts.TranscriptBook.{TranscriptIsLawful, BookIsUnique, FirstFailIsUnique};
ghost use Rattle.key_names.specs.Transcripts.SameSteps.{StepsMakeTheBook};
ghost use Rattle.key_names.specs.Callers.CallerOrders.{OrderIsStartAndOwn, StartIsAFront, LooksAreCounted, LooksInParts};
ghost use Rattle.key_names.specs.Transcripts.PlacesInOrder.{PlacesCountUp, PlacesInAnyOrder};
ghost use Rattle.key_names.specs.Keys.LiveMaterial.{HalfFinishedIsDisjoint, HalfFinishedIsErased, HalfFinishedHoldsNamed};

/// In a lawful book no byte of a key's keystream is used twice.
pub fn lawful_is_disjoint()
    ensures { LawfulIsDisjoint }
{}

/// In a lawful book, a key that the base, a CPU or a vgetrandom state still holds was never replaced. No two held keys
/// have the same name. No byte in the unserved rest of a batch was used, no two such rests share a byte, and served
/// bytes are 0. The law `books_hold_unused` of `audit_keys` adds that no byte of a held key was used.
pub fn lawful_is_erased()
    ensures { LawfulIsErased }
{}

/// In a lawful book, each held key has the value of its name, and the rest of each batch has the bytes of its named
/// span.
pub fn lawful_holds_named()
    ensures { LawfulHoldsNamed }
{}

/// `lawful_is_disjoint` also holds while visits are half finished: a place that an extraction or a refill names may not
/// yet be in its list.
pub fn half_finished_is_disjoint()
    ensures { HalfFinishedIsDisjoint }
{}

/// `lawful_is_erased` also holds while visits are half finished.
pub fn half_finished_is_erased()
    ensures { HalfFinishedIsErased }
{}

/// `lawful_holds_named` also holds while visits are half finished.
pub fn half_finished_holds_named()
    ensures { HalfFinishedHoldsNamed }
{}

/// A caller may use a wiped vgetrandom state by calls, copies and wipes, in any order and with any host. These uses
/// leave a list of entries in order, and a state whose served bytes are 0. The list is lawful if each key comes from a
/// read of 32 bytes.
pub fn uses_leave_lawful_lists()
    ensures { UsesLeaveLawfulLists }
{}

/// The book of a lawful transcript is lawful, so the laws of lawful books hold for it.
pub fn transcript_is_lawful()
    ensures { TranscriptIsLawful }
{}

/// The steps of a transcript make at most one book, and give each of its calls at most one meaning.
pub fn transcript_book_is_unique()
    ensures { BookIsUnique }
{}

/// The book does not depend on answers and data: if two transcripts differ only in answers and data, the steps of both
/// make the same book.
#[tactic(auto, using(crate::proofs::Unique::BareMeanings::steps_make_the_book))]
pub fn steps_make_the_book()
    ensures { StepsMakeTheBook }
{}

/// At most one clause is the first that fails. In a lawful transcript no clause fails.
pub fn first_fail_is_unique()
    ensures { FirstFailIsUnique }
{}

/// Let a history be all visits of a transcript's book, sorted by stamp, and at equal stamps by caller. Then its visits
/// of one lane are that lane's list, in the list's order.
pub fn history_keeps_lanes()
    ensures { HistoryKeepsLanes }
{}

/// In lawful lanes each visit of the base or of a CPU serves the bytes of the spans that its entry serves. The bytes of
/// a span follow from the name of its key. A read that a vgetrandom state takes as its key is left out.
pub fn lawful_serves_named()
    ensures { LawfulServesNamed }
{}

/// In a lawful transcript, each vgetrandom state of a caller holds what a replay of its list gives: the key, the batch
/// and the position. This holds after any number of the caller's calls.
pub fn states_are_replayed()
    ensures { StatesAreReplayed }
{}

/// A lawful transcript of a well-formed script prints the bytes of named spans of keystream, and none of these bytes
/// twice. Each line shows the bytes of the spans that its own entries serve, one span after another. No two of the
/// entries that serve the lines use the same byte of a key.
pub fn transcript_prints_named()
    ensures { TranscriptPrintsNamed }
{}

/// Reading the text of a script gives that script. A text is the text of a script if and only if it has no fault.
pub fn text_is_script_or_faulty()
    ensures { TextIsScriptOrFaulty }
{}

/// A caller's order has the steps of its ancestors, up to the visit that forks the caller, and then the caller's own
/// steps.
#[tactic(auto, using(crate::proofs::History::CallerOrders::order_is_start_and_own))]
pub fn order_is_start_and_own()
    ensures { OrderIsStartAndOwn }
{}

/// A child starts with the steps that its parent starts with, and then the parent's own steps up to and including the
/// fork's visit.
#[tactic(auto, using(crate::proofs::History::CallerOrders::start_is_a_front))]
pub fn start_is_a_front()
    ensures { StartIsAFront }
{}

/// Whether a look is allowed depends on its caller's earlier steps only through the greatest generation seen in these
/// steps.
#[tactic(auto, using(crate::proofs::History::CallerOrders::looks_are_counted))]
pub fn looks_are_counted()
    ensures { LooksAreCounted }
{}

/// The looks of a list of steps can be checked in two parts: first the front, and then the back. The check of the back
/// starts from the greatest generation seen by the end of the front.
#[tactic(auto, using(crate::proofs::History::CallerOrders::looks_in_parts))]
pub fn looks_in_parts()
    ensures { LooksInParts }
{}

/// A lane's marks, sorted by stamp, satisfy `PlacesConform` exactly if their places count up from 0 and each
/// stamp is below the next.
#[tactic(auto, using(crate::proofs::Transcripts::PlacesInOrder::places_count_up))]
pub fn places_count_up()
    ensures { PlacesCountUp }
{}

/// Whether marks satisfy `PlacesConform` does not depend on their order.
#[tactic(auto, using(crate::proofs::Transcripts::PlacesInOrder::places_in_any_order))]
pub fn places_in_any_order()
    ensures { PlacesInAnyOrder }
{}
