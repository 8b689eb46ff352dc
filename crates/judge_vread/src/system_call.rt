//! Recognizes a system call by its seen steps.
ghost use Rattle.std.specs.Prelude.{◌≡◌};
ghost use Rattle.judge_vread.specs.Called.{serving, no_more, cpu_read, unready_read, read, waited, after_look, called};

use crate::seen::SeenStep;
use crate::served::Served;
use key_names::{Answer, flags};

/// The answer and the bytes of a system call.
#[derive(Drop)]
pub struct SystemCallResult {
    pub answer: Answer,
    pub served: Served,
}

impl SystemCallResult {
    fn serving(served: Served) -> SystemCallResult
        ensures { result ≡ serving served }
    {
        SystemCallResult {
            answer: Answer::Ok,
            served,
        }
    }
}

fn no_more(answer: Answer, seen: &[SeenStep]) -> Option<SystemCallResult>
    ensures { result ≡ no_more answer seen.now }
{
    match seen {
        [] => Some(SystemCallResult {
            answer,
            served: Served::none(),
        }),
        _ => None,
    }
}

fn cpu_read(len: u32, seen: &[SeenStep]) -> Option<SystemCallResult>
    ensures { result ≡ cpu_read len seen.now }
{
    match seen {
        [SeenStep::Ready(_), SeenStep::Cpu(key)]
        | [SeenStep::Ready(_), SeenStep::Base(_), SeenStep::Cpu(key)] => {
            Some(SystemCallResult::serving(Served::of_user(key, len)))
        }
        _ => None,
    }
}

fn unready_read(len: u32, seen: &[SeenStep]) -> Option<SystemCallResult>
    ensures { result ≡ unready_read len seen.now }
{
    match seen {
        [SeenStep::Base(key)] | [SeenStep::Pool, SeenStep::Base(key)] => {
            Some(SystemCallResult::serving(Served::of_user(key, len)))
        }
        _ => cpu_read(len, seen),
    }
}

fn read(len: u32, ready: bool, seen: &[SeenStep]) -> Option<SystemCallResult>
    ensures { result ≡ read len ready seen.now }
{
    if len == 0 {
        no_more(Answer::Ok, seen)
    } else if ready {
        cpu_read(len, seen)
    } else {
        unready_read(len, seen)
    }
}

fn waited(len: u32, seen: &[SeenStep]) -> Option<SystemCallResult>
    ensures { result ≡ waited len seen.now }
{
    match seen {
        [SeenStep::Base(_), SeenStep::Base(_)] => Some(SystemCallResult {
            answer: Answer::Interrupted,
            served: Served::none(),
        }),
        [SeenStep::Base(_), SeenStep::Resumed, rest @ ..] => read(len, true, rest),
        _ => None,
    }
}

fn after_look(len: u32, flags: u32, ready: bool, seen: &[SeenStep]) -> Option<SystemCallResult>
    ensures { result ≡ after_look len flags ready seen.now }
{
    if ready || flags::is_insecure(flags) {
        read(len, ready, seen)
    } else if flags::is_nonblock(flags) {
        no_more(Answer::Again, seen)
    } else {
        waited(len, seen)
    }
}

/// The answer and the bytes of a system call of `len` bytes with these flags (getrandom(2)). `None` if the seen steps
/// are not those of such a call.
pub fn system_call(len: u32, flags: u32, seen: &[SeenStep]) -> Option<SystemCallResult>
    ensures { result ≡ called len flags seen.now }
{
    if flags::are_bad(flags) {
        return no_more(Answer::Invalid, seen);
    }
    match seen {
        [SeenStep::Unready, rest @ ..] => after_look(len, flags, false, rest),
        [SeenStep::Ready(_), rest @ ..] => after_look(len, flags, true, rest),
        _ => None,
    }
}
