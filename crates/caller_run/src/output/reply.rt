//! The reply of a call: the answer and the data of its line.
ghost use Rattle.std.specs.Prelude.{◌≡◌, ◌≤◌, ℕ, List, length, if◌then◌else◌};
ghost use Rattle.key_names.specs.declared.events.Answer.TheVariants.{Unused};
ghost use Rattle.key_names.specs.Transcripts.SeenLine.{bytes_or_none, no_data};
ghost use Rattle.key_names.specs.Callers.VreadSteps.{answer_of_errno};
ghost use Rattle.rng_core.specs.Makes.{result_answer, tick_result, given};
ghost use Rattle.caller_run.specs.Says.{shown_by, IsNoCount};

use key_names::{Answer, Errno};

/// The data of a call's line.
#[derive(Clone, Copy)]
pub(crate) enum LineData {
    Nothing,
    /// The bytes that were served.
    Served,
    Count(u32),
}

/// The answer of a call, and the data of its line.
#[derive(Clone, Copy)]
pub(crate) struct Reply {
    pub(crate) answer: Answer,
    pub(crate) shows: LineData,
}

fn answer_of(errno: Errno) -> Answer
    ensures { result ≡ answer_of_errno errno }
{
    match errno {
        Errno::NoData => Answer::NoData,
        Errno::Again => Answer::Again,
        Errno::Invalid => Answer::Invalid,
        Errno::Interrupted => Answer::Interrupted,
    }
}

impl Reply {
    /// A reply with an answer and no data.
    pub(crate) fn only(answer: Answer) -> Reply
        ensures { result ≡ record { answer = answer; shows = LineData.Nothing } }
    {
        Reply {
            answer,
            shows: LineData::Nothing,
        }
    }

    /// The reply of a call that is done and has no data.
    #[inline(always)]
    pub(crate) fn after(_called: ()) -> Reply
        ensures { result ≡ record { answer = Answer.Ok; shows = LineData.Nothing } }
    {
        Reply::only(Answer::Ok)
    }

    /// The reply of a call that is done and has filled its buffer.
    #[inline(always)]
    pub(crate) fn served(_called: ()) -> Reply
        ensures { result ≡ record { answer = Answer.Ok; shows = LineData.Served } }
    {
        Reply::done(LineData::Served)
    }

    /// The reply of a call that was done, with the data of the call's line.
    pub(crate) fn done(shows: LineData) -> Reply
        ensures { result ≡ record { answer = Answer.Ok; shows = shows } }
    {
        Reply {
            answer: Answer::Ok,
            shows,
        }
    }

    /// The reply of a call that may fail and has no data.
    pub(crate) fn tried(ended: Result<(), Errno>) -> Reply
        ensures { result ≡ record { answer = result_answer ended; shows = LineData.Nothing } }
    {
        match ended {
            Ok(()) => Reply::only(Answer::Ok),
            Err(errno) => Reply::only(answer_of(errno)),
        }
    }

    /// The reply of a read that may fail.
    pub(crate) fn read(ended: Result<(), Errno>) -> Reply
        ensures answer { result.answer ≡ result_answer ended }
        ensures shows { (served : List ℕ) → shown_by served result.shows ≡ bytes_or_none (given ended served) }
        ensures bytes { IsNoCount result.shows }
    {
        match ended {
            Ok(()) => Reply::done(LineData::Served),
            Err(errno) => Reply::only(answer_of(errno)),
        }
    }

    /// The reply of an act inside a vread. If the call does not reach the act's point, the act is not done.
    pub(crate) fn of_act(done: bool, ended: Result<(), Errno>) -> Reply
        ensures answer { result.answer ≡ (if done then result_answer ended else Unused) }
        ensures shows { (served : List ℕ) → shown_by served result.shows
            ≡ (if done then bytes_or_none (given ended served) else no_data) }
        ensures bytes { IsNoCount result.shows }
    {
        if done {
            Reply::read(ended)
        } else {
            Reply::only(Answer::Unused)
        }
    }

    /// The bytes that a line shows: all of `served`, or none. The line has no count.
    pub(crate) fn bytes<'a>(&self, served: &'a [u8]) -> &'a [u8]
        requires { IsNoCount self.now.shows }
        ensures shown { bytes_or_none result.now ≡ shown_by served.now self.now.shows }
        ensures len { length result.now ≤ length served.now }
    {
        match self.shows {
            LineData::Served => served,
            LineData::Nothing | LineData::Count(_) => &[],
        }
    }

    /// The reply of a tick of the reseed timer, which fired or did not.
    pub(crate) fn ticked(fired: bool) -> Reply
        ensures { result ≡ record { answer = tick_result fired; shows = LineData.Nothing } }
    {
        if fired {
            Reply::only(Answer::Fired)
        } else {
            Reply::only(Answer::Idle)
        }
    }
}
