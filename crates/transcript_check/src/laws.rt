//! Laws about a line that has another answer, or other data, than its steps give. Each law is the contract of a
//! function without code.
ghost use Rattle.std.specs.Prelude.{ℕ, List};
ghost use Rattle.key_names.specs.Transcripts.SeenLine.{SeenLine};
ghost use Rattle.key_names.specs.Texts.ScriptGrammar.{Script};
ghost use Rattle.serial_replay.specs.Agreement.{SameAnswer, SameShown};
ghost use Rattle.transcript_check.specs.Others.{HasOther, IsReplacedIn};

/// If a line has another answer than its steps give, no lawful transcript with the same steps has this line.
pub fn other_answer_is_replaced()
    ensures { (script : Script) (t : List (List SeenLine)) (caller number : ℕ)
        → HasOther SameAnswer script t caller number → IsReplacedIn script t caller number }
{}

/// If a line has other data than its steps give, no lawful transcript with the same steps has this line.
pub fn other_data_are_replaced()
    ensures { (script : Script) (t : List (List SeenLine)) (caller number : ℕ)
        → HasOther SameShown script t caller number → IsReplacedIn script t caller number }
{}
