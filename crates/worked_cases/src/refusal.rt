//! A near miss (a changed transcript) is refused, since some clause is the first that fails for it.
ghost use Rattle.worked_cases.specs.Refusal.{FailsIsRefused};

/// If a clause is the first that fails for the texts of a script and of a transcript, the transcript is not lawful for
/// the script, whatever the book (the lists of all visits).
pub fn near_misses_are_refused()
    ensures { FailsIsRefused }
{}
