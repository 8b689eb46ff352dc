//! The commands that the words of a command line name.
ghost use Rattle.std.specs.Prelude.{◌≡◌, ◌↔◌, ◌∷◌, [], ℕ, Some, IsTrue, IfSome, map, string_bytes};
ghost use Rattle.key_names.specs.declared.point.Point.{Point};
ghost use Rattle.vdso_state.specs.declared.place.Turn.{Turn};
ghost use Rattle.rng_tool.specs.Commands.{Asks};
ghost use Rattle.rng_tool.specs.DrawOutcome.{IsDraw};
ghost use Rattle.rng_tool.specs.FeedOutcome.{IsFeed};
ghost use Rattle.rng_tool.specs.JudgeOutcome.{IsJudge};
ghost use Rattle.rng_tool.specs.LiveOutcome.{IsLive};
ghost use Rattle.rng_tool.specs.LoadOutcome.{IsLoad};
ghost use Rattle.rng_tool.specs.Outcome.{IsRun};
ghost use Rattle.rng_tool.specs.VforkOutcome.{IsVfork};

use crate::draw::{DrawRequest, draw_of};
use crate::feed::{Feed, feed_of};
use crate::judge::{Judge, judge_of};
use crate::load::{LoadRequest, load_of};
use crate::vfork::{Vfork, vfork_of};

/// The usage: the forms of the command line. It is printed if the words match none of them.
pub(crate) const USAGE: &str =
    "usage: rng run | rng live | rng check | rng load START CALLERS EVENTS | rng vfork POINT ATTEMPT N | rng draw C K | rng feed START FEEDERS SAMPLES | rng replay";

/// A command, with the numbers in its words.
#[derive(Clone, Copy, Debug, PartialEq, Eq)]
pub(crate) enum Command {
    /// `run`
    Run,
    /// `live`
    Live,
    /// `check` or `replay`
    Judge(Judge),
    /// `load START CALLERS EVENTS`
    Load(LoadRequest),
    /// `draw C K`
    Draw(DrawRequest),
    /// `vfork POINT ATTEMPT N`
    Vfork(Vfork),
    /// `feed START FEEDERS SAMPLES`
    Feed(Feed),
}

/// Whether `word` is the only word.
fn is_only(words: &[String], word: &str) -> bool
    ensures { IsTrue result ↔ (map string_bytes words.now ≡ word.now ∷ []) }
{
    match words {
        [only] => only.as_str() == word,
        _ => false,
    }
}

impl Command {
    /// The command that the words of the command line name, or `None` if they name none.
    pub(crate) fn of(words: &[String]) -> Option<Command>
        ensures found { IfSome result (Asks words.now) }
        ensures run { IsRun words.now → result ≡ Some Command.Run }
        ensures live { IsLive words.now → result ≡ Some Command.Live }
        ensures judge { (judge : Judge) → IsJudge words.now judge → result ≡ Some (Command.Judge judge) }
        ensures load { (start callers events : ℕ) → IsLoad words.now start callers events
            → result ≡ Some (Command.Load (record { start = start; callers = callers; events = events })) }
        ensures draw { (bound count : ℕ) → IsDraw words.now bound count
            → result ≡ Some (Command.Draw (record { bound = bound; count = count })) }
        ensures vfork { (point : Point) (attempt : Turn) (n : ℕ) → IsVfork words.now point attempt n
            → result ≡ Some (Command.Vfork (record { point = point; attempt = attempt; len = n })) }
        ensures feed { (start feeders samples : ℕ) → IsFeed words.now start feeders samples
            → result ≡ Some (Command.Feed (record { start = start; feeders = feeders; samples = samples })) }
    {
        if is_only(words, "run") {
            return Some(Command::Run);
        }
        if is_only(words, "live") {
            return Some(Command::Live);
        }
        if let Some(judge) = judge_of(words) {
            return Some(Command::Judge(judge));
        }
        if let Some(load) = load_of(words) {
            return Some(Command::Load(load));
        }
        if let Some(draw) = draw_of(words) {
            return Some(Command::Draw(draw));
        }
        if let Some(feed) = feed_of(words) {
            return Some(Command::Feed(feed));
        }
        if let Some(vfork) = vfork_of(words) {
            return Some(Command::Vfork(vfork));
        }
        None
    }
}
