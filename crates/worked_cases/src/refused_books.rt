//! Books that the definitions refuse.
ghost use Rattle.std.specs.Prelude.{ℕ, replicate};
ghost use Rattle.key_names.specs.Lanes.Book.{HalfFinishedLanes, cpu_list};
ghost use Rattle.key_names.specs.Keys.LiveMaterial.{IsErased};
ghost use Rattle.key_names.specs.Lanes.Samples.{LawfulSamples};
ghost use Rattle.key_names.specs.Lanes.StateList.{LawfulStateList};
ghost use Rattle.key_names.specs.Keys.Uses.{IsDisjoint};
ghost use Rattle.worked_cases.specs.RefusedBooks.{shared_refill, unanswered, two_integers, lone_dump, only_rekeyed};
ghost use Rattle.worked_cases.specs.RefusedBooks.{only_blocks};

/// If two CPUs take their key from the same refill (an entry of the base), this key is used twice.
#[tactic(auto, using(crate::proofs::BooksRefused::shared_refill_is_refused))]
pub fn one_refill_for_two_cpus()
    ensures { ¬ IsDisjoint shared_refill }
{}

/// An extraction names a place of the base. If there is an entry at that place, that entry must name the extraction
/// back.
#[tactic(auto, using(crate::proofs::BooksRefused::unanswered_is_refused))]
pub fn unanswered_extraction()
    ensures { ¬ HalfFinishedLanes unanswered }
{}

/// A book is not erased if bytes that a batch has served stay in the batch.
#[tactic(auto, using(crate::proofs::BooksRefused::served_bytes_are_refused))]
pub fn served_bytes_that_stay()
    ensures { ¬ IsErased two_integers (λ batch. replicate 96 1) }
{}

/// A dump is refused if no interrupt of the same event made the dump due.
#[tactic(auto, using(crate::proofs::BooksRefused::lone_dump_is_refused))]
pub fn dump_without_an_interrupt()
    ensures { ¬ LawfulSamples lone_dump }
{}

/// The list of a vgetrandom state cannot end with a new key or with whole blocks, since a new batch must follow either.
#[tactic(auto, using(crate::proofs::BooksRefused::only_rekeyed_is_refused, crate::proofs::BooksRefused::only_blocks_is_refused))]
pub fn state_lists_cut_short()
    ensures rekeyed { ¬ LawfulStateList (cpu_list two_integers) 0 0 only_rekeyed }
    ensures blocks { ¬ LawfulStateList (cpu_list two_integers) 0 0 only_blocks }
{}
