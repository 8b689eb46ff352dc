//! The law of held keys and rests, as the contract of a function without code.
ghost use Rattle.audit_keys.specs.HeldIsLive.{BooksTellLive};

/// The results of a book list keys and rests of batches as held. These are the keys, and the rests with bytes, that the
/// book's holders have after all entries. A CPU's rest is listed if its width fits into a byte.
pub fn books_tell_live()
    ensures { BooksTellLive }
{}
