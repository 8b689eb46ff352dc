//! The law of a whole run, stated over plain data as the contract of a function without code.
ghost use Rattle.caller_run.specs.Laws.{CallersAreLawful};

/// The calls of all callers of a script, from the start of a table to its end, make a lawful transcript of the script.
/// Its book has the lanes' lists.
pub fn callers_are_lawful()
    ensures { CallersAreLawful }
{}
