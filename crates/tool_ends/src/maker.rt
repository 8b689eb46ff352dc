//! Makers of transcripts. The text after a script is compared with the text of the transcript that a maker made.
ghost use Rattle.std.specs.Prelude.{◌≡◌, ⊤, IfSome, None};
ghost use Rattle.key_names.specs.Texts.ScriptGrammar.{WellFormed};

use event_script::Script;
use std::alloc::Global;
use transcript_text::Transcript;

/// A maker of transcripts for scripts. The text after a script is compared with the text of the made transcript as it
/// comes.
pub trait Maker {
    ghost use Rattle.std.specs.Prelude.{List};
    ghost use Rattle.key_names.specs.Transcripts.SeenLine.{SeenLine};
    ghost use Rattle.key_names.specs.Texts.ScriptGrammar.{Script as ScriptValue};

    /// The maker's precondition for making transcripts.
    ghost may_make: { Self → Type 0 };

    /// The maker's guarantee for each transcript that it makes for a script.
    ghost made: { Self → ScriptValue → List (List SeenLine) → Type 0 };

    /// Makes a transcript for the script, or returns `None` if the text after the script is to be read without a
    /// comparison.
    fn make(&self, alloc: Global, script: &Script) -> Option<Transcript>
        requires well { WellFormed script.now }
        requires may { may_make self.now }
        ensures { IfSome result (λ t. made self.now script.now t) };
}

/// A maker that makes no transcript. The text after each script is read without a comparison.
pub struct NoMaker;

impl Maker for NoMaker {
    ghost may_make = { λ _. ⊤ };

    ghost made = { λ _ _ _. ⊥ };

    fn make(&self, _alloc: Global, _script: &Script) -> Option<Transcript>
        ensures { result ≡ None }
    {
        None
    }
}
