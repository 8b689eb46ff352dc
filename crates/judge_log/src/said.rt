//! The answer and data of a line, and the notes of both.
ghost use Rattle.std.specs.Prelude.{◌≡◌, ℕ};
ghost use Rattle.judge_log.specs.declared.said.MadeLine.{MadeLine as SaidOfLine};

use judge_vread::served::Served;
use key_names::Answer;

/// The data of a line: nothing, a number, or the bytes of a recipe, if the recipe makes any.
#[derive(Drop)]
pub enum ShownRecipe {
    Nothing,
    Count(u32),
    Served(Served),
}

/// The answer of a line, and its data.
#[derive(Drop)]
pub struct MadeLine {
    pub answer: Answer,
    pub shows: ShownRecipe,
}

/// How the answer and data of a line are noted: whole, or only the part that is needed.
pub trait Note {
    type Noted: Drop;

    /// Whether the last argument is a note of the answer and data `said`. The two numbers are the caller's and the
    /// event's.
    ghost IsNoted: { Self → ℕ → ℕ → SaidOfLine → Self.Noted → Type 0 };

    /// Makes the note of an event's answer and data; `event` is the event's number among the events of `caller`.
    fn note(&self, caller: u32, event: u32, said: MadeLine) -> Self::Noted
        ensures { IsNoted self.now caller event said result };
}

/// Notes the answer and data whole.
#[derive(Drop)]
pub struct Whole;

impl Note for Whole {
    type Noted = MadeLine;

    ghost IsNoted = { λ _ _ _ said noted. noted ≡ said };

    #[inline(always)]
    fn note(&self, _caller: u32, _event: u32, said: MadeLine) -> MadeLine {
        said
    }
}
