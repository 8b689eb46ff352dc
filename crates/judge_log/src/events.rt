//! Makes the answer and data of a single event, or of an act inside a `vread`.
ghost use Rattle.std.specs.Prelude.{◌≡◌, ◌↔◌, IfOk, IsTrue};
ghost use Rattle.judge_lines.specs.Rows.{cpu_for};
ghost use Rattle.judge_log.specs.EventSays.{first_crossing, taken_recipe, batch_recipe, base_recipe, cpu_recipe};
ghost use Rattle.judge_log.specs.EventSays.{recipe_met, last_recipe, found_unready, was_interrupted, system_says};
ghost use Rattle.judge_log.specs.EventSays.{reseed_says, tick_says, event_says, bits_shown, event_shows, act_says};
ghost use Rattle.judge_log.specs.EventSays.{unused, IsAloneSaid, IsActSaid, EndConforms};

use crate::met::{KeptStep, LineSpace, put_kinds, put_met};
use crate::said::{MadeLine, ShownRecipe};
use crate::{KeptBase, KeptCpu, Lists};
use input_pool::Crossing;
use judge_lines::rows::{is_act_row, is_end, is_row};
use judge_lines::setting::LineSetting;
use judge_vread::served::Served;
use key_names::{Answer, BaseEntry, CpuEntry, Event, InsideAct, Step, Taken, flags};
use std::alloc::AllocError;

// The threshold that the line's first visit of the pool crossed, if any.
fn first_crossing(met: &[KeptStep]) -> Crossing
    ensures { result ≡ first_crossing met.now }
{
    for one in met {
        if let KeptStep::InPool(kept) = one {
            return kept.crossing;
        }
    }
    Crossing::None
}

fn taken_served(key: &[u8; 32], taken: Taken) -> Served
    ensures { result ≡ taken_recipe key.now taken }
{
    match taken {
        Taken::User(len) => Served::of_user(key, len),
        Taken::Kernel(len) => Served::of_kernel(key, len),
    }
}

// The bytes of an integer, or no bytes if its batch of 96 bytes is used up.
fn int_served(key: &[u8; 32], width: u8, count: u32) -> Served
    ensures { result ≡ batch_recipe key.now width count }
{
    if u64::from(width) * u64::from(count) < 96 {
        Served::of_int(key, width, count)
    } else {
        Served::none()
    }
}

fn base_served(kept: &KeptBase) -> Served
    ensures { result ≡ base_recipe kept.now.entry kept.now.key }
{
    match (kept.entry, kept.key) {
        (BaseEntry::Draw { taken, .. }, Some(key)) => taken_served(&key, taken),
        _ => Served::none(),
    }
}

fn cpu_served(kept: &KeptCpu) -> Served
    ensures { result ≡ cpu_recipe kept.now.entry kept.now.source.key kept.now.source.served }
{
    let source = kept.source;
    match (kept.entry, source.key) {
        (CpuEntry::Read { taken, .. }, Some(key)) => taken_served(&key, taken),
        (CpuEntry::Int { width, .. }, Some(key)) => int_served(&key, width, source.served),
        _ => Served::none(),
    }
}

fn visit_served(met: &KeptStep) -> Served
    ensures { result ≡ recipe_met met.now }
{
    match met {
        KeptStep::InBase(kept) => base_served(kept),
        KeptStep::InCpu(_, kept) => cpu_served(kept),
        KeptStep::Looked(_) | KeptStep::InPool(_) | KeptStep::Nothing => Served::none(),
    }
}

// The bytes that a read's last visit serves, which are the read's bytes.
fn last_served(met: &[KeptStep]) -> Served
    ensures { result ≡ last_recipe met.now }
{
    match met.last() {
        Some(last) => visit_served(last),
        None => Served::none(),
    }
}

fn found_unready(met: &[KeptStep]) -> bool
    ensures { result ≡ found_unready met.now }
{
    matches!(met, [KeptStep::Looked(0), ..])
}

// Whether a read's wait was interrupted.
fn was_interrupted(met: &[KeptStep]) -> bool
    ensures { result ≡ was_interrupted met.now }
{
    match met {
        [
            KeptStep::Looked(_),
            KeptStep::InBase(_),
            KeptStep::InBase(ended),
        ] => matches!(ended.entry, BaseEntry::Interrupt),
        _ => false,
    }
}

// The answer of a system call with these flags (getrandom(2)).
fn system_says(flags: u32, met: &[KeptStep]) -> Answer
    ensures { result ≡ system_says flags met.now }
{
    if flags::are_bad(flags) {
        Answer::Invalid
    } else if found_unready(met) && flags::is_nonblock(flags) && !flags::is_insecure(flags) {
        Answer::Again
    } else if was_interrupted(met) {
        Answer::Interrupted
    } else {
        Answer::Ok
    }
}

fn reseed_says(met: &[KeptStep]) -> Answer
    ensures { result ≡ reseed_says met.now }
{
    if found_unready(met) {
        Answer::NoData
    } else {
        Answer::Ok
    }
}

// The answer of a tick: the tick fired if it extracted a root.
fn tick_says(met: &[KeptStep]) -> Answer
    ensures { result ≡ tick_says met.now }
{
    match met {
        [KeptStep::InBase(_)] => Answer::Idle,
        _ => Answer::Fired,
    }
}

fn event_says(event: &Event, met: &[KeptStep]) -> Answer
    ensures { result ≡ event_says event.now met.now }
{
    match event {
        Event::Read { flags, .. } | Event::Dread { flag: flags, .. } => system_says(*flags, met),
        Event::Reseed => reseed_says(met),
        Event::Tick => tick_says(met),
        _ => Answer::Ok,
    }
}

// The pool's bits before the visit that reads them.
fn bits_shown(met: &[KeptStep]) -> ShownRecipe
    ensures { result ≡ bits_shown met.now }
{
    match met {
        [KeptStep::InPool(kept)] => ShownRecipe::Count(kept.before),
        _ => ShownRecipe::Nothing,
    }
}

fn event_shows(event: &Event, met: &[KeptStep]) -> ShownRecipe
    ensures { result ≡ event_shows event.now met.now }
{
    match event {
        Event::Bits => bits_shown(met),
        Event::Read { .. }
        | Event::Dread { .. }
        | Event::Kread { .. }
        | Event::Uread { .. }
        | Event::Int8
        | Event::Int16
        | Event::Int32
        | Event::Int64 => ShownRecipe::Served(last_served(met)),
        _ => ShownRecipe::Nothing,
    }
}

// The CPU that an event's line visits.
fn event_cpu(event: &Event, set: &LineSetting) -> u32
    ensures { result ≡ cpu_for set.now event.now }
{
    match event {
        Event::Prepare { cpu } | Event::Online { cpu } => *cpu,
        _ => set.cpu(),
    }
}

/// The answer and data of a single event. `None` if the steps of its line match no form of the event.
///
/// # Errors
///
/// `AllocError` if there is no memory for the data of its steps.
pub fn alone_said(
    room: &mut LineSpace,
    lists: &Lists,
    set: &LineSetting,
    event: &Event,
    steps: &[Step],
) -> Result<Option<MadeLine>, AllocError>
    ensures { IfOk result (λ said. IsAloneSaid lists.now set.now event.now steps.now said) }
{
    put_met(&mut room.met, lists, steps)?;
    put_kinds(&mut room.kinds, event_cpu(event, set), &room.met)?;
    if !is_row(event, first_crossing(&room.met), &room.kinds) {
        return Ok(None);
    }
    Ok(Some(MadeLine {
        answer: event_says(event, &room.met),
        shows: event_shows(event, &room.met),
    }))
}

fn act_says(act: InsideAct, met: &[KeptStep]) -> MadeLine
    ensures { result ≡ act_says act met.now }
{
    match act {
        InsideAct::Wipe => MadeLine {
            answer: Answer::Ok,
            shows: ShownRecipe::Nothing,
        },
        InsideAct::Vread(_) => MadeLine {
            answer: system_says(0, met),
            shows: ShownRecipe::Served(last_served(met)),
        },
        InsideAct::Reseed => MadeLine {
            answer: reseed_says(met),
            shows: ShownRecipe::Nothing,
        },
    }
}

/// The answer and data of an act that was not done.
pub fn unused() -> MadeLine
    ensures { result ≡ unused }
{
    MadeLine {
        answer: Answer::Unused,
        shows: ShownRecipe::Nothing,
    }
}

/// The answer and data of an act inside a `vread`. `None` if the steps of its line match no form of the act. An act
/// whose point was not reached must have no steps.
///
/// # Errors
///
/// `AllocError` if there is no memory for the data of its steps.
pub fn act_said(
    room: &mut LineSpace,
    lists: &Lists,
    set: &LineSetting,
    reached: bool,
    act: InsideAct,
    steps: &[Step],
) -> Result<Option<MadeLine>, AllocError>
    ensures { IfOk result (λ said. IsActSaid lists.now set.now reached act steps.now said) }
{
    if !reached {
        return Ok(if steps.is_empty() {
            Some(unused())
        } else {
            None
        });
    }
    put_met(&mut room.met, lists, steps)?;
    put_kinds(&mut room.kinds, set.cpu(), &room.met)?;
    if !is_act_row(act, &room.kinds) {
        return Ok(None);
    }
    Ok(Some(act_says(act, &room.met)))
}

/// Whether the steps of a caller's last line match a form of the caller's end.
///
/// # Errors
///
/// `AllocError` if there is no memory for the data of its steps.
pub fn end_conforms(
    room: &mut LineSpace,
    lists: &Lists,
    set: &LineSetting,
    steps: &[Step],
) -> Result<bool, AllocError>
    ensures { IfOk result (λ conforms. IsTrue conforms ↔ EndConforms lists.now set.now steps.now) }
{
    put_met(&mut room.met, lists, steps)?;
    put_kinds(&mut room.kinds, set.cpu(), &room.met)?;
    Ok(is_end(&room.kinds))
}
