//! The laws of books for a caller of the core, each as the contract of a function without code.
ghost use Rattle.rng_core.specs.OwnReads.{TwoReadsHaveABook};
ghost use Rattle.rng_core.specs.OwnStates.{OwnStatesAreLawful};

/// At each moment between two atomic steps of a table, take the table's lists so far, and the lists of callers' own
/// vgetrandom states. Together these lists make a lawful book, except for visits that are half finished. So no two
/// states took the same read as a key, and no byte of a key was used twice. No live state holds a replaced key, and
/// each state is the replay of its own list of entries. The law requires that each state is between two calls, and
/// takes the facts about each read from the read's contract.
pub fn own_states_are_lawful()
    ensures { OwnStatesAreLawful }
{}

/// An example: two calls of [`vread`](crate::vread) with one pass, on one state that was wiped before the first. The
/// contracts of the two calls give everything that the law requires.
pub fn two_reads_have_a_book()
    ensures { TwoReadsHaveABook }
{}
