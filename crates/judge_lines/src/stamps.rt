//! Whether the visits' stamps rise along the order of each caller.
ghost use Rattle.std.specs.Prelude.{◌≡◌, ◌↔◌, IsTrue};
ghost use Rattle.judge_lines.specs.Stamps.{stamp_after, IsAbove};

use crate::along::Carry;
use key_names::Step;

/// A rule for `all_may_follow`: the value carried is the stamp of the last visit, and the next visit must have a higher
/// stamp.
pub struct Stamps;

impl Carry for Stamps {
    ghost after = { λ _ carried step. stamp_after carried step };

    ghost MayFollow = { λ _ carried step. IsAbove carried step };

    fn may_follow(&self, carried: Option<u64>, step: Step) -> bool {
        match (carried, step) {
            (Some(last), Step::Visit(mark)) => last < mark.stamp,
            _ => true,
        }
    }

    fn after(&self, carried: Option<u64>, step: Step) -> Option<u64> {
        match step {
            Step::Look(_) => carried,
            Step::Visit(mark) => Some(mark.stamp),
        }
    }
}
