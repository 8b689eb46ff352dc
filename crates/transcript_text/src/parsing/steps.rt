//! Reading the steps of a line.
ghost use Rattle.std.specs.Prelude.{◌≡◌, ◌<◌, ◌≤◌, ◌^◌, length, MatchOption};
ghost use Rattle.std.specs.List.{AllByRecursion};
ghost use Rattle.std.specs.Option.{option_map};
ghost use Rattle.key_names.specs.Texts.TranscriptGrammar.{lane_text, mark_text, step_text, steps_text, LaneFits, MarkFits, StepFits};
ghost use Rattle.event_script.specs.ValueFronts.{IsFront, NoFront};
ghost use Rattle.transcript_text.specs.Reading.{Reads, StepsFit};

use crate::parsing::lexing::{MOST_U32, is_dash};
use event_script::numbers::number_front;
use key_names::trace::MOST_STEPS;
use key_names::{LaneId, Mark, Step, Trace};

/// Generations, places and stamps are at most this.
const MOST_NUMBER: u64 = (1 << 63) - 1;

/// The lane that `text` begins with, and the rest of `text`.
fn lane_front(text: &[u8]) -> Option<(LaneId, &[u8])>
    ensures { MatchOption result (NoFront lane_text LaneFits text.now)
        (λ both. IsFront lane_text LaneFits text.now both.0 both.1.now) }
{
    match text {
        [] => None,
        [b'p', rest @ ..] => Some((LaneId::Pool, rest)),
        [b'b', rest @ ..] => Some((LaneId::Base, rest)),
        [b'c', digits @ ..] => {
            let (cpu, rest) = number_front(MOST_U32, digits)?;
            Some((LaneId::Cpu(cpu as u32), rest))
        }
        _ => None,
    }
}

/// The visit that `text` begins with, and the rest of `text`.
fn mark_front(text: &[u8]) -> Option<(Mark, &[u8])>
    ensures { MatchOption result (NoFront mark_text MarkFits text.now)
        (λ both. IsFront mark_text MarkFits text.now both.0 both.1.now) }
{
    let (lane, after_lane) = lane_front(text)?;
    let [b':', places @ ..] = after_lane else {
        return None;
    };
    let (place, after_place) = number_front(MOST_NUMBER, places)?;
    let [b'@', stamps @ ..] = after_place else {
        return None;
    };
    let (stamp, rest) = number_front(MOST_NUMBER, stamps)?;
    Some((Mark { lane, place, stamp }, rest))
}

/// The step that `text` begins with, and the rest of `text`.
fn step_front(text: &[u8]) -> Option<(Step, &[u8])>
    ensures { MatchOption result (NoFront step_text StepFits text.now)
        (λ both. IsFront step_text StepFits text.now both.0 both.1.now) }
{
    match text {
        [] => None,
        [b'~', digits @ ..] => {
            let (generation, rest) = number_front(MOST_NUMBER, digits)?;
            Some((Step::Look(generation), rest))
        }
        _ => {
            let (mark, rest) = mark_front(text)?;
            Some((Step::Visit(mark), rest))
        }
    }
}

/// The steps that a text spells: no steps if the text is a dash, otherwise at most 20 with commas between them. The
/// steps replace the content of `trace`.
pub(crate) fn steps_of<'t>(text: &[u8], trace: &'t mut Trace) -> Option<&'t [Step]>
    ensures { Reads steps_text StepsFit text.now (option_map (λ steps. steps.now) result) }
{
    trace.clear();
    if is_dash(text) {
        return Some(trace.steps());
    }
    let mut rest = text;
    for _ in 0..MOST_STEPS {
        let (step, following) = step_front(rest)?;
        trace.push(step);
        match following {
            [] => return Some(trace.steps()),
            [b',', next @ ..] => rest = next,
            _ => return None,
        }
    }
    None
}
