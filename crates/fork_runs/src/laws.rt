//! The laws by which a vgetrandom call on a new table reaches each point at which it can fork, and then gives bytes.
//! Each law is the contract of a function without code.
ghost use Rattle.fork_runs.specs.Coming.{FirstAttemptComes, SecondAttemptComes, EndsGiveBytes};

use vcall_fork::laws::forks_are_recorded;

/// On a ready core, take a call for one byte or more, without flags, on a wiped state that is not wiped again. The
/// call reaches each point of its first attempt: a wiped state has the generation 0, so the attempt takes a new key.
pub fn first_attempt_comes()
    ensures { FirstAttemptComes }
{}

/// Suppose that a call as in `first_attempt_comes` was stopped at the point Serve of its first attempt. If each
/// generation published from then on is higher than those before, the call reaches each point of its second attempt.
pub fn second_attempt_comes()
    ensures { SecondAttemptComes }
{
    forks_are_recorded();
}

/// If a stopped call has good flags, and each system call from then on reads its bytes, the rest of the call ends with
/// bytes.
pub fn ends_give_bytes()
    ensures { EndsGiveBytes }
{}
