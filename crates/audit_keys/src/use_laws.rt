//! The laws about uses, and about held keys and held rests of batches. Each law is the contract of a function without
//! code.
ghost use Rattle.audit_keys.specs.HeldUnused.{BooksHoldUnused, TranscriptsHoldUnused};
ghost use Rattle.audit_keys.specs.Moments.{BeginningsHoldUnused, MomentsHoldUnused};
ghost use Rattle.audit_keys.specs.UsesSeen.{AreSeenAsUses};

/// The results of [`base_uses`](crate::base_uses), [`cpu_uses`](crate::cpu_uses) and [`state_uses`](crate::state_uses)
/// are the uses of a book. Each use also has its entry, and the key that its bytes became if they were kept.
#[tactic(auto, using(crate::proofs::UsesSeen::are_seen_as_uses))]
pub fn are_seen_as_uses()
    ensures { AreSeenAsUses }
{}

/// The keys and rests of batches that a book holds were not used. This holds even while visits are half finished.
#[tactic(auto, using(crate::proofs::HeldUnused::books_hold_unused))]
pub fn books_hold_unused()
    ensures { BooksHoldUnused }
{}

/// If a book's lists are cut to beginnings, the keys and rests that are held after these beginnings were not used in
/// them.
#[tactic(auto, using(crate::proofs::Beginnings::beginnings_hold_unused))]
pub fn beginnings_hold_unused()
    ensures { BeginningsHoldUnused }
{}

/// The keys and rests that the book of a lawful transcript holds were not used.
#[tactic(auto, using(crate::proofs::HeldUnused::transcripts_hold_unused))]
pub fn transcripts_hold_unused()
    ensures { TranscriptsHoldUnused }
{}

/// The keys and rests that are held at any stamp of a lawful transcript's book were not used before this stamp. Each
/// vgetrandom state is taken between two of its caller's calls.
#[tactic(auto, using(crate::proofs::UseMoments::moments_hold_unused))]
pub fn moments_hold_unused()
    ensures { MomentsHoldUnused }
{}
