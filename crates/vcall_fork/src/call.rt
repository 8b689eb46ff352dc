//! A call of vgetrandom that can be stopped.

ghost use Rattle.std.specs.Prelude.{◌≡◌, ◌^◌, ◌≤◌, true, length};
ghost use Rattle.key_names.specs.Kernel.VgetrandomState.{wiped_state};
ghost use Rattle.vdso_state.specs.Host.{doings};
ghost use Rattle.vdso_state.specs.Turns.{turn_number, turns_before};
ghost use Rattle.vdso_state.specs.Places.{Ends, CameTo, MayGoOn, MayFinish, AtPlace};
ghost use Rattle.vcall_fork.specs.Stages.{is_open, is_stopped, published_or, looks_needed, calls_needed, block_of, block_limit, turns_begun};
ghost use Rattle.vcall_fork.specs.declared.stage.Stage.TheVariants.{New, Over};
ghost use Rattle.vcall_fork.specs.declared.stage.Progress.TheVariants.{Ended};
ghost use Rattle.vcall_fork.specs.Stops.{RestOfCall, is_wanted, CameBy, RanTo};

use crate::stage::{Progress, Stage};
use key_names::Errno;
use vdso_state::{
    Came, Place, Point, Turn, VEnd, VHost, VState, begin, finish, resume, vgetrandom,
};

/// A call of vgetrandom, without its state and its buffer. The state and the buffer belong to the caller, and after a
/// fork the child has its own.
#[derive(Clone, Copy, Debug)]
pub struct VCall {
    /// The number of bytes that the call reads, at most 2^20.
    pub len: u32,
    pub flags: u32,
    pub stage: Stage,
    ghost short: { len ≤ 2 ^ 20 },
    ghost near: { block_of stage ≤ block_limit stage },
    ghost ready: { 1 ≤ published_or 1 stage },
}

// Whether the call has to stop at `place`: whether `place` is `point` of `attempt`.
fn is_at(place: Place, attempt: Turn, point: Point) -> bool
    ensures { result ≡ is_wanted attempt point (turn_number place.turn) place.point }
{
    place.turn == attempt && place.point == point
}

// Runs the call from `place` to a point of an attempt, or to the end of the call.
fn until<H: VHost>(
    host: &mut H,
    st: &mut VState,
    place: Place,
    buf: &mut [u8],
    flags: u32,
    attempt: Turn,
    point: Point,
) -> Came
    requires may { MayGoOn place (H.looks_left host.old) (H.calls_left host.old) (H.floor host.old) }
    requires short { length buf.old ≤ 2 ^ 20 }
    ensures { CameBy (doings H.publishes H.answers H.passes) H.floor (AtPlace (length buf.old) flags place buf.old st.old)
        (length buf.old) flags attempt point (turns_before place.turn place.point) place.published
        result (H.looks_left host.new) (H.calls_left host.new) host.old host.new st.new buf.new }
{
    let mut at = place;
    'points: while !is_at(at, attempt, point) {
        host.at(at.point, st);
        match resume(host, st, at, buf, flags) {
            Came::Ended(result) => return Came::Ended(result),
            Came::At(next) => at = next,
        }
    }
    Came::At(at)
}

impl VCall {
    /// A new call, before its first step.
    pub fn begin(len: u32, flags: u32) -> VCall
        requires { len ≤ 2 ^ 20 }
        ensures len { result.len ≡ len }
        ensures flags { result.flags ≡ flags }
        ensures stage { result.stage ≡ New }
    {
        VCall {
            len,
            flags,
            stage: Stage::New,
        }
    }

    // Runs the call to its next point, or to its end if it reaches no other point.
    fn go_on<H: VHost>(&self, host: &mut H, st: &mut VState, buf: &mut [u8]) -> Came
        requires open { is_open self.now.stage ≡ true }
        requires length { length buf.old ≡ self.now.len }
        requires looks { looks_needed self.now.stage ≤ H.looks_left host.old }
        requires calls { calls_needed self.now.stage ≤ H.calls_left host.old }
        requires known { published_or 0 self.now.stage ≤ H.floor host.old }
        ensures came { CameTo (doings H.publishes H.answers H.passes) H.floor
            (RestOfCall self.now.stage self.now.len self.now.flags buf.old st.old)
            self.now.len self.now.flags (published_or 0 self.now.stage) result host.old host.new st.new buf.new }
        ensures may { MayFinish result (turns_begun self.now.stage)
            (H.looks_left host.new) (H.calls_left host.new) (H.floor host.new) }
    {
        match self.stage {
            Stage::New => begin(host, st, buf, self.flags),
            Stage::At(place) => resume(host, st, place, buf, self.flags),
            Stage::Over => unreachable!(),
        }
    }

    fn end(&mut self, ended: Result<VEnd, Errno>) -> Progress
        ensures len { self.new.len ≡ self.old.len }
        ensures flags { self.new.flags ≡ self.old.flags }
        ensures stage { self.new.stage ≡ Over }
        ensures progress { result ≡ Ended ended }
    {
        self.stage = Stage::Over;
        Progress::Ended(ended)
    }

    /// Runs the call to a point of an attempt, and stops there before the host's `at`. If the call does not reach that
    /// point, it runs to its end. If the call was stopped at an earlier point, the caller decides what happens at that
    /// point: the host's `at` is not called for it.
    ///
    /// The call must not be over, and the buffer must have the call's length. The host must publish no generation below
    /// the generation that the call read last. The host must have enough looks and system calls left for the rest of
    /// the call: 5 looks and 3 system calls for a new call, and no more for a stopped call. If the call stops at the
    /// point, the host has enough looks and system calls left to end the call.
    pub fn run_to<H: VHost>(
        &mut self,
        host: &mut H,
        st: &mut VState,
        buf: &mut [u8],
        attempt: Turn,
        point: Point,
    ) -> Progress
        requires open { is_open self.old.stage ≡ true }
        requires length { length buf.old ≡ self.old.len }
        requires looks { looks_needed self.old.stage ≤ H.looks_left host.old }
        requires calls { calls_needed self.old.stage ≤ H.calls_left host.old }
        requires known { published_or 0 self.old.stage ≤ H.floor host.old }
        ensures len { self.new.len ≡ self.old.len }
        ensures flags { self.new.flags ≡ self.old.flags }
        ensures ran { RanTo (doings H.publishes H.answers H.passes) H.floor
            (RestOfCall self.old.stage self.old.len self.old.flags buf.old st.old)
            self.old.len self.old.flags attempt point (turns_begun self.old.stage)
            (published_or 0 self.old.stage) self.new.stage result
            (H.looks_left host.new) (H.calls_left host.new) host.old host.new st.new buf.new }
    {
        match self.go_on(host, st, buf) {
            Came::Ended(result) => self.end(result),
            Came::At(place) => match until(host, st, place, buf, self.flags, attempt, point) {
                Came::Ended(result) => self.end(result),
                Came::At(stop) => {
                    self.stage = Stage::At(stop);
                    Progress::At
                }
            },
        }
    }

    /// Forks the process at the point where the call is stopped. Returns the child's call and the child's state, which
    /// the fork wiped, and copies `buf` into `child_buf`. The parent's call, state and buffer do not change.
    pub fn fork_call(&self, buf: &[u8], child_buf: &mut [u8]) -> (VCall, VState)
        requires stopped { is_stopped self.now.stage ≡ true }
        requires length { length buf.now ≡ self.now.len }
        requires child_length { length child_buf.old ≡ self.now.len }
        ensures call { result.0 ≡ self.now }
        ensures state { result.1 ≡ wiped_state }
        ensures buf { child_buf.new ≡ buf.now }
    {
        child_buf.copy_from_slice(buf);
        (*self, VState::wiped())
    }

    /// Ends the call. If the call was stopped at a point, the caller decides what happens at that point: the host's
    /// `at` is not called for it.
    ///
    /// It has the preconditions of [`run_to`](VCall::run_to).
    ///
    /// # Errors
    ///
    /// The error of the last system call. After an error the buffer is unspecified.
    pub fn finish<H: VHost>(
        self,
        host: &mut H,
        st: &mut VState,
        buf: &mut [u8],
    ) -> Result<VEnd, Errno>
        requires open { is_open self.stage ≡ true }
        requires length { length buf.old ≡ self.len }
        requires looks { looks_needed self.stage ≤ H.looks_left host.old }
        requires calls { calls_needed self.stage ≤ H.calls_left host.old }
        requires known { published_or 0 self.stage ≤ H.floor host.old }
        ensures { Ends (doings H.publishes H.answers H.passes) H.floor
            (RestOfCall self.stage self.len self.flags buf.old st.old)
            host.old host.new (record { state = st.new; result = result; buf = buf.new }) }
    {
        match self.stage {
            Stage::New => vgetrandom(host, st, buf, self.flags),
            Stage::At(place) => finish(host, st, place, buf, self.flags),
            Stage::Over => unreachable!(),
        }
    }
}
