//! Runs one caller to its end with all callers that it forks, or runs all callers of a script.
ghost use Rattle.std.specs.Prelude.{◌≡◌, ◌<◌, ◌^◌, []};
ghost use Rattle.std.specs.Thread.{IsSync};
ghost use Rattle.key_names.specs.Texts.ScriptGrammar.{WellFormed};
ghost use Rattle.lane_table.specs.Calls.{view};
ghost use Rattle.lane_table.specs.Hands.{HoldsLanes};
ghost use Rattle.caller_run.specs.Families.{SameShare};
ghost use Rattle.caller_run.specs.Plans.{IsPlanFor, IsNewRoom};
ghost use Rattle.caller_run.specs.Layouts.{layout};
ghost use Rattle.caller_run.specs.RunningCallers.{CanAdvanceOn, CanPart, CanRun, IsFirst, Returned, WentBeside, WentOn, WholeRan, start_of};

use crate::forking::children::{Child, Children, stack_for};
use crate::forking::here::run_here;
use crate::forking::plans::{Plan, gather};
use crate::forking::rooms::Room;
use crate::forking::running_callers::RunningCaller;
use crate::forking::shared::Shared;
use event_script::Script;
use io_edges::Gate;
use key_names::{Event, Trace};
use lane_table::{Lanes, Pass};
use rng_core::Setting;
use std::snapshot::Snapshot;
use std::sync::Wait;
use std::thread;
use std::thread::Threads;
use transcript_text::Transcript;

/// Runs a caller from its start to its end, and joins all callers that it forks. Only the start of a thread takes
/// memory.
///
/// The caller starts with the CPU, the moment and the hardware words of `set`, at event 0 and with wiped vgetrandom
/// states. It fills the room, which is its memory. A child gets its own thread if `shared.children` is `InThreads` and
/// a thread can be made; otherwise it runs here. The gate is called before each event.
pub fn run_caller<R: Threads + Wait + Sync, G: Gate>(
    shared: &Shared<'_, R, G>,
    pass: Pass,
    set: Setting,
    room: Room,
) -> (Pass, Room)
    requires has { HoldsLanes shared.now.lanes.now set.caller [] pass }
    requires set { (set.cpu < shared.now.lanes.now.cpus) × (set.now < 2 ^ 40) }
    requires well { WellFormed shared.now.script.now }
    requires cpus { shared.now.lanes.now.cpus ≡ shared.now.script.now.cpus }
    requires room { IsNewRoom shared.now.script.now.callers set.caller (layout room) }
    ensures has { HoldsLanes shared.now.lanes.now set.caller [] result.0 }
    ensures share { SameShare (view pass) (view result.0) }
    ensures ran { Returned shared.now.lanes.now shared.now.script.now (start_of set pass) (layout room) result.0
        (layout result.1) }
{
    run_family(shared, pass, Setting { event: 0, ..set }, room)
}

// Runs a caller and all callers that it forks.
#[cycle(callers)]
fn run_family<R: Threads + Wait + Sync, G: Gate>(
    shared: &Shared<'_, R, G>,
    pass: Pass,
    set: Setting,
    room: Room,
) -> (Pass, Room)
    requires { CanRun shared.now.lanes.now shared.now.script.now set pass (layout room) }
    ensures { Returned shared.now.lanes.now shared.now.script.now (start_of set pass) (layout room) result.0
        (layout result.1) }
{
    let (caller, buffers, kids, states) = room.open();
    let events = shared.script.events(caller);
    let running = RunningCaller::starting(pass, set, buffers, kids, states);
    let running = run_from(shared, events, running);
    let RunningCaller {
        caller: at,
        buffers,
        kids,
    } = running;
    (at.pass, Room::with(caller, buffers, kids, at.states))
}

// Runs a caller on to its end, with every caller that it forks. This is one function because forks nest: if it were
// split, each part would hold another `RunningCaller` on the stack.
#[cycle(callers)]
fn run_from<R: Threads + Wait + Sync, G: Gate>(
    shared: &Shared<'_, R, G>,
    events: &[Event],
    mut running: RunningCaller,
) -> RunningCaller
    requires { CanAdvanceOn shared.now.lanes.now shared.now.script.now events.now running }
    ensures { WentOn shared.now.lanes.now shared.now.script.now events.now running result }
{
    let (rt, lanes, script) = (shared.rt, shared.lanes, shared.script);
    let (gate, children) = (shared.gate, shared.children);
    let Some((child, rest)) = running.run_plain(shared, events) else {
        running.caller.finish(rt, lanes, &mut running.buffers.log);
        return running;
    };
    let mut trace = Trace::empty();
    let (theirs, kid) = running.begin_fork(rt, lanes, &mut trace, child);
    let (mut running, theirs, kid) = thread::scope(
        thread::scope_env(),
        rt,
        move |scope| -> (RunningCaller, Pass, Room)
            requires { IsSync R.row × CanPart lanes.now script.now child rest.now running trace theirs (layout kid) }
            ensures { WentBeside lanes.entry.now script.entry.now child rest.entry.now running trace theirs (layout kid) result.0
                result.1 (layout result.2) }
        {
            let shared = Shared {
                rt,
                lanes,
                script,
                gate,
                children,
            };
            let set = Setting {
                caller: child,
                event: 0,
                ..running.caller.set
            };
            let promise = Child {
                lanes,
                script,
                set,
                pass: Snapshot::of(&theirs),
                room: Snapshot::of(&kid),
            };
            match children.start(
                scope,
                stack_for(script, child),
                promise,
                move || -> (Pass, Room)
                    requires { IsSync R.row × CanRun lanes.now script.now set theirs (layout kid) }
                    ensures { Returned lanes.entry.now script.entry.now (start_of set theirs) (layout kid) result.0
                        (layout result.1) }
                {
                    let shared = Shared {
                        rt,
                        lanes,
                        script,
                        gate,
                        children,
                    };
                    run_family(&shared, theirs, set, kid)
                },
            ) {
                Ok(handle) => {
                    running.tell_fork(&trace, child);
                    let running = run_from(&shared, rest, running);
                    let (theirs, kid) = handle.join(rt);
                    (running, theirs, kid)
                }
                Err(refused) => {
                    let at = &mut running.caller;
                    let (theirs, kid) = run_here(
                        rt,
                        lanes,
                        &mut at.pass,
                        &at.set,
                        &mut trace,
                        refused.value,
                    );
                    running.tell_fork(&trace, child);
                    let running = run_from(&shared, rest, running);
                    (running, theirs, kid)
                }
            }
        },
    );
    lanes.join(&mut running.caller.pass, theirs);
    running.kids.push_reserved(kid);
    running
}

// Runs a script's first caller, and all callers that it forks, in a new thread. The stack of that thread has the size
// that the callers need, however small the stack of the program's first thread is. The stack is taken before any caller
// starts. If no thread can be made, the callers run here.
fn run_first<R: Threads + Wait + Sync, G: Gate>(
    shared: &Shared<'_, R, G>,
    pass: Pass,
    set: Setting,
    room: Room,
) -> (Pass, Room)
    requires { CanRun shared.now.lanes.now shared.now.script.now set pass (layout room) }
    ensures { Returned shared.now.lanes.now shared.now.script.now (start_of set pass) (layout room) result.0
        (layout result.1) }
{
    let (rt, lanes, script) = (shared.rt, shared.lanes, shared.script);
    let (gate, children) = (shared.gate, shared.children);
    thread::scope(
        thread::scope_env(),
        rt,
        move |scope| -> (Pass, Room)
            requires { IsSync R.row × CanRun lanes.now script.now set pass (layout room) }
            ensures { Returned lanes.entry.now script.entry.now (start_of set pass) (layout room) result.0
                (layout result.1) }
        {
            let promise = Child {
                lanes,
                script,
                set,
                pass: Snapshot::of(&pass),
                room: Snapshot::of(&room),
            };
            match children.start(
                scope,
                stack_for(script, set.caller),
                promise,
                move || -> (Pass, Room)
                    requires { IsSync R.row × CanRun lanes.now script.now set pass (layout room) }
                    ensures { Returned lanes.entry.now script.entry.now (start_of set pass) (layout room) result.0
                        (layout result.1) }
                {
                    let shared = Shared {
                        rt,
                        lanes,
                        script,
                        gate,
                        children,
                    };
                    run_family(&shared, pass, set, room)
                },
            ) {
                Ok(handle) => handle.join(rt),
                Err(refused) => (refused.value)(),
            }
        },
    )
}

/// Runs all callers of a script, and gathers their lines. Beyond the memory of the plan, only the start of a thread
/// takes memory.
///
/// The pass is caller 0's, and may have any share of the table. If it is the only pass of a new table, the lines are a
/// lawful transcript of the script, however the callers' calls interleave.
pub fn run_all<R: Threads + Wait + Sync, G: Gate>(
    rt: &R,
    lanes: &Lanes,
    pass: Pass,
    script: &Script,
    plan: Plan,
    gate: &G,
) -> (Pass, Transcript)
    requires has { HoldsLanes lanes.now 0 [] pass }
    requires well { WellFormed script.now }
    requires cpus { lanes.now.cpus ≡ script.now.cpus }
    requires plan { IsPlanFor script.now plan }
    ensures has { HoldsLanes lanes.now 0 [] result.0 }
    ensures share { SameShare (view pass) (view result.0) }
    ensures whole { IsFirst (view pass) → (view pass).share ≡ 2 ^ (view pass).halvings
        → WholeRan script.now result.1 (view result.0) }
{
    let shared = Shared {
        rt,
        lanes,
        script,
        gate,
        children: Children::InThreads,
    };
    run_plan(&shared, pass, plan)
}

/// Does the work of `run_all`; `shared` has the values that all callers share.
pub(crate) fn run_plan<R: Threads + Wait + Sync, G: Gate>(
    shared: &Shared<'_, R, G>,
    pass: Pass,
    plan: Plan,
) -> (Pass, Transcript)
    requires has { HoldsLanes shared.now.lanes.now 0 [] pass }
    requires well { WellFormed shared.now.script.now }
    requires cpus { shared.now.lanes.now.cpus ≡ shared.now.script.now.cpus }
    requires plan { IsPlanFor shared.now.script.now plan }
    ensures has { HoldsLanes shared.now.lanes.now 0 [] result.0 }
    ensures share { SameShare (view pass) (view result.0) }
    ensures whole { IsFirst (view pass) → (view pass).share ≡ 2 ^ (view pass).halvings
        → WholeRan shared.now.script.now result.1 (view result.0) }
{
    let Plan { root, mut slots } = plan;
    let (mut pass, room) = run_first(shared, pass, Setting::first(0), root);
    shared.lanes.settle(&mut pass);
    gather(&mut slots, room);
    (pass, Transcript::of(slots))
}
