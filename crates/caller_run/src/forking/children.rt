//! Children: where each runs, and the promise of its thread.
ghost use Rattle.std.specs.Prelude.{◌≡◌, ◌+◌, ◌*◌, ◌-◌, ◌^◌, IfErr, IfOk, length};

use crate::forking::rooms::Room;
use core::thread::Stack;
use event_script::Script;
use lane_table::{Lanes, Pass};
use rng_core::Setting;
use std::snapshot::Snapshot;
use std::thread::{Promise, PromisedHandle, Scope, SpawnError};

/// How many bytes of stack a caller needs for its own events.
const OWN_STACK: usize = 128 * 1024;

/// How many more bytes of stack a caller needs for each caller that it forks or that runs in its thread. Forks nest, so
/// these bytes add up.
const FORK_STACK: usize = 16 * 1024;

/// The bytes of stack for this caller's thread. They suffice for the caller and for all callers with higher numbers.
/// The caller can fork no other callers, and no others can run in its thread. The standard library rounds the bytes up
/// to a multiple of 128 KiB.
pub(crate) fn stack_for(script: &Script, caller: u32) -> usize
    ensures { result ≡ 2 ^ 17 + 2 ^ 14 * (length script.now.callers - caller) }
{
    let callers = script.callers().saturating_sub(caller);
    OWN_STACK + FORK_STACK * callers as usize
}

/// Where children run.
#[derive(Clone, Copy, Drop)]
pub enum Children {
    /// Each in its own thread, if one can be made.
    InThreads,
    /// Each in its parent's thread, as if no thread could be made.
    Here,
}

impl Children {
    /// Starts a child's thread with a stack of this many bytes. Returns the closure if no thread can be made, or if
    /// children run here.
    pub(crate) fn start<
        's,
        E,
        P: Promise<T> + Drop,
        F: FnOnce() -> T + Send + 's,
        T: Send + Drop + 's,
    >(
        self,
        scope: &Scope<'s, E>,
        stack: usize,
        promise: P,
        run: F,
    ) -> Result<PromisedHandle<T, P>, SpawnError<F>>
        requires runs { F.pre run }
        requires keeps { (r : T) → F.post run r → P.kept_by promise r }
        ensures ok { IfOk result (λ h. h.promise ≡ promise) }
        ensures err { IfErr result (λ e. e.value ≡ run) }
    {
        match self {
            Children::InThreads => Stack::new()
                .stack_size(stack)
                .spawn_scoped_with(scope, promise, run),
            Children::Here => Err(SpawnError { value: run }),
        }
    }
}

/// The promise of a child's thread: which facts hold for the pass and the room that the thread returns.
#[derive(Drop)]
pub(crate) struct Child<'a> {
    pub(crate) lanes: &'a Lanes,
    pub(crate) script: &'a Script,
    pub(crate) set: Setting,
    pub(crate) pass: Snapshot<Pass>,
    pub(crate) room: Snapshot<Room>,
}

impl<'a> Promise<(Pass, Room)> for Child<'a> {
    ghost use Rattle.caller_run.specs.Layouts.{layout};
    ghost use Rattle.caller_run.specs.RunningCallers.{Returned, start_of};

    ghost kept_by = { λ p r. Returned p.lanes.now p.script.now (start_of p.set p.pass.value) (layout p.room.value) r.0
        (layout r.1) };
}
