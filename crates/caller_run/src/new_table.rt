//! A whole run, from a new table to its transcript.
ghost use Rattle.std.specs.Prelude.{IfOk};
ghost use Rattle.key_names.specs.Texts.ScriptGrammar.{WellFormed};
ghost use Rattle.lane_table.specs.declared.view.View.{View};
ghost use Rattle.caller_run.specs.Laws.{LawfulRuns};

use crate::forking::children::{Children, stack_for};
use crate::forking::plans::Plan;
use crate::forking::shared::Shared;
use crate::run::run_plan;
use event_script::Script;
use io_edges::Gate;
use lane_table::Lanes;
use std::alloc::{AllocError, Global};
use std::sync::Wait;
use std::thread::Threads;
use transcript_text::Transcript;

/// Runs all callers of a script on a new table. All memory except the memory of threads is taken before the first
/// event.
///
/// # Errors
///
/// `AllocError` if there is no memory for the plan, the table, or the first caller's stack. In this case no caller ran.
pub fn run_on_new_table<R: Threads + Wait + Sync, G: Gate>(
    rt: &R,
    alloc: Global,
    script: &Script,
    gate: &G,
) -> Result<Transcript, AllocError>
    requires { WellFormed script.now }
    ensures { IfOk result (λ transcript. (w : View) × LawfulRuns script.now transcript w) }
{
    run_new(rt, alloc, script, gate, Children::InThreads)
}

/// How many bytes the start of a thread may take beyond the requested stack: for the thread itself, and for rounding
/// the stack up.
const THREAD_BYTES: usize = 256 * 1024;

// Fails if there is no memory for the first caller's stack (tested). A stack that cannot grow ends the program by a
// signal. So this test comes after all other memory was taken, and before the first caller starts in a thread or here.
fn need_stack(alloc: Global, script: &Script) -> Result<(), AllocError> {
    let bytes = stack_for(script, 0).saturating_add(THREAD_BYTES);
    let _stack: Vec<u8> = Vec::with_capacity(alloc, bytes)?;
    Ok(())
}

/// Does the work of [`run_on_new_table`]; `children` is where the children run.
///
/// # Errors
///
/// The same errors as [`run_on_new_table`].
pub fn run_new<R: Threads + Wait + Sync, G: Gate>(
    rt: &R,
    alloc: Global,
    script: &Script,
    gate: &G,
    children: Children,
) -> Result<Transcript, AllocError>
    requires { WellFormed script.now }
    ensures { IfOk result (λ transcript. (w : View) × LawfulRuns script.now transcript w) }
{
    let plan = Plan::make(alloc, script)?;
    let (lanes, pass) = Lanes::start(alloc, script.cpus(), 0)?;
    need_stack(alloc, script)?;
    let shared = Shared {
        rt,
        lanes: &lanes,
        script,
        gate,
        children,
    };
    let (pass, transcript) = run_plan(&shared, pass, plan);
    let _visits = lanes.close(pass);
    Ok(transcript)
}
