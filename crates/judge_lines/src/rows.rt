//! Whether the kinds of some steps are a row: a list of kinds that the steps of a line can have.
ghost use Rattle.std.specs.Prelude.{◌≡◌, ◌↔◌, IsTrue, ℕ};
ghost use Rattle.judge_lines.specs.Rows.{IsDraw, IsCpuRead, IsRead, IsAfterLook, IsSystemCall, IsLookedRead};
ghost use Rattle.judge_lines.specs.Rows.{IsPlainRead, IsInt, IsReseed, IsAfterCredit, IsCredit, IsInterrupt};
ghost use Rattle.judge_lines.specs.Rows.{IsTick, IsFork, IsVmfork, IsEnd, IsRow, IsActRow};

use crate::kind::Kind;
use input_pool::Crossing;
use key_names::{Event, InsideAct, flags};

/// Whether `kinds` are the step kinds of a draw: a read of bytes from the base while the core is not ready.
fn is_draw(kinds: &[Kind]) -> bool
    ensures { IsTrue result ↔ IsDraw kinds.now }
{
    matches!(kinds, [Kind::Pool, Kind::Base] | [Kind::Base])
}

/// Whether `kinds` are the step kinds of a read from a CPU, which first takes a new key from the base if the CPU needs
/// one.
fn is_cpu_read(kinds: &[Kind]) -> bool
    ensures { IsTrue result ↔ IsCpuRead kinds.now }
{
    matches!(
        kinds,
        [Kind::Ready, Kind::Cpu] | [Kind::Ready, Kind::Base, Kind::Cpu]
    )
}

/// Whether `kinds` are the step kinds of a read after its first look. `ready` is whether that look found the core
/// ready.
fn is_read(ready: bool, kinds: &[Kind]) -> bool
    ensures { IsTrue result ↔ IsRead ready kinds.now }
{
    (!ready && is_draw(kinds)) || is_cpu_read(kinds)
}

/// Whether `kinds` are the step kinds of a system call of `len` bytes (getrandom(2)) after its first look. `ready` is
/// whether that look found the core ready.
fn is_after_look(len: u32, flags: u32, ready: bool, kinds: &[Kind]) -> bool
    ensures { IsTrue result ↔ IsAfterLook len flags ready kinds.now }
{
    if ready || flags::is_insecure(flags) {
        if len == 0 {
            kinds.is_empty()
        } else {
            is_read(ready, kinds)
        }
    } else if flags::is_nonblock(flags) {
        kinds.is_empty()
    } else {
        match kinds {
            [Kind::Base, Kind::Base] => true,
            [Kind::Base, Kind::Resumed, rest @ ..] => {
                if len == 0 {
                    rest.is_empty()
                } else {
                    is_cpu_read(rest)
                }
            }
            _ => false,
        }
    }
}

/// Whether `kinds` are the step kinds of a system call of `len` bytes with these flags (getrandom(2)).
fn is_system_call(len: u32, flags: u32, kinds: &[Kind]) -> bool
    ensures { IsTrue result ↔ IsSystemCall len flags kinds.now }
{
    if flags::are_bad(flags) {
        return kinds.is_empty();
    }
    match kinds {
        [Kind::Unready, rest @ ..] => is_after_look(len, flags, false, rest),
        [Kind::Ready, rest @ ..] => is_after_look(len, flags, true, rest),
        _ => false,
    }
}

/// Whether `kinds` are the step kinds of a read that begins with a look.
fn is_looked_read(kinds: &[Kind]) -> bool
    ensures { IsTrue result ↔ IsLookedRead kinds.now }
{
    match kinds {
        [Kind::Unready, rest @ ..] => is_read(false, rest),
        [Kind::Ready, rest @ ..] => is_read(true, rest),
        _ => false,
    }
}

/// Whether `kinds` are the step kinds of a read of `len` bytes by the kernel or into user memory. A read of no bytes
/// has no steps.
fn is_plain_read(len: u32, kinds: &[Kind]) -> bool
    ensures { IsTrue result ↔ IsPlainRead len kinds.now }
{
    if len == 0 {
        kinds.is_empty()
    } else {
        is_looked_read(kinds)
    }
}

/// Whether `kinds` are the step kinds of a random integer (`get_random_u8` to `get_random_u64`).
fn is_int(kinds: &[Kind]) -> bool
    ensures { IsTrue result ↔ IsInt kinds.now }
{
    match kinds {
        [Kind::Unready, rest @ ..] => is_draw(rest) || is_cpu_read(rest),
        [Kind::Ready, rest @ ..] => is_cpu_read(rest),
        _ => false,
    }
}

/// Whether `kinds` are the step kinds of a forced reseed, which is refused while the core is not ready.
fn is_reseed(kinds: &[Kind]) -> bool
    ensures { IsTrue result ↔ IsReseed kinds.now }
{
    matches!(
        kinds,
        [Kind::Unready] | [Kind::Ready, Kind::Pool, Kind::Base]
    )
}

/// Whether `kinds` are those of the steps after a credit of the pool. `crossed` is the threshold that the credit
/// crossed, if any.
fn is_after_credit(crossed: Crossing, kinds: &[Kind]) -> bool
    ensures { IsTrue result ↔ IsAfterCredit crossed kinds.now }
{
    match crossed {
        Crossing::None => kinds.is_empty(),
        Crossing::Early => matches!(kinds, [Kind::Pool, Kind::Base] | [Kind::Base]),
        Crossing::Ready => matches!(kinds, [Kind::Pool, Kind::Base]),
    }
}

/// Whether `kinds` are the step kinds of a credit of the pool and the steps after it. `crossed` is the threshold that
/// the credit crossed, if any.
fn is_credit(crossed: Crossing, kinds: &[Kind]) -> bool
    ensures { IsTrue result ↔ IsCredit crossed kinds.now }
{
    match kinds {
        [Kind::Pool, rest @ ..] => is_after_credit(crossed, rest),
        _ => false,
    }
}

/// Whether `kinds` are the step kinds of an interrupt: its sample and perhaps a dump of the fast pool, the mix of this
/// dump into the pool, and the steps after the mix.
fn is_interrupt(crossed: Crossing, kinds: &[Kind]) -> bool
    ensures { IsTrue result ↔ IsInterrupt crossed kinds.now }
{
    match kinds {
        [Kind::Cpu] => true,
        [Kind::Cpu, Kind::Cpu, Kind::Pool, rest @ ..] => is_after_credit(crossed, rest),
        _ => false,
    }
}

/// Whether `kinds` are the step kinds of a tick of the reseed timer, which may fire.
fn is_tick(kinds: &[Kind]) -> bool
    ensures { IsTrue result ↔ IsTick kinds.now }
{
    matches!(kinds, [Kind::Base] | [Kind::Pool, Kind::Base])
}

/// Whether `kinds` are the step kinds of a fork. If the child ran in its parent's thread, the line has two more visits
/// of the base.
fn is_fork(kinds: &[Kind]) -> bool
    ensures { IsTrue result ↔ IsFork kinds.now }
{
    matches!(kinds, [Kind::Base] | [Kind::Base, Kind::Base, Kind::Base])
}

/// Whether `kinds` are the step kinds of a fork of the virtual machine (`add_vmfork_randomness`).
fn is_vmfork(kinds: &[Kind]) -> bool
    ensures { IsTrue result ↔ IsVmfork kinds.now }
{
    matches!(
        kinds,
        [Kind::Pool, Kind::Unready] | [Kind::Pool, Kind::Ready, Kind::Pool, Kind::Base]
    )
}

/// Whether `kinds` are those of the line of a caller's end.
pub fn is_end(kinds: &[Kind]) -> bool
    ensures { IsTrue result ↔ IsEnd kinds.now }
{
    matches!(kinds, [Kind::Base])
}

/// Whether `kinds` are a row of `event` outside a `vread`. `crossed` is the threshold that the line's first visit of
/// the pool crossed, if any. A `vread` and the acts inside it have forms of their own.
pub fn is_row(event: &Event, crossed: Crossing, kinds: &[Kind]) -> bool
    ensures { IsTrue result ↔ IsRow event.now crossed kinds.now }
{
    match event {
        Event::Write { .. } | Event::Device { .. } | Event::Bits => matches!(kinds, [Kind::Pool]),
        Event::Add { .. } | Event::Credit { .. } | Event::Input { .. } => is_credit(crossed, kinds),
        Event::Kread { len } | Event::Uread { len } => is_plain_read(*len, kinds),
        Event::Read { len, flags } => is_system_call(*len, *flags, kinds),
        Event::Dread { len, flag } => is_system_call(*len, *flag, kinds),
        Event::Int8 | Event::Int16 | Event::Int32 | Event::Int64 => is_int(kinds),
        Event::Reseed => is_reseed(kinds),
        Event::Tick => is_tick(kinds),
        Event::Fork { .. } => is_fork(kinds),
        Event::Prepare { .. } | Event::Online { .. } => matches!(kinds, [Kind::Cpu]),
        Event::Vmfork { .. } => is_vmfork(kinds),
        Event::Irq { .. } => is_interrupt(crossed, kinds),
        Event::Vread { .. } | Event::Inside { .. } => false,
        _ => kinds.is_empty(),
    }
}

/// Whether `kinds` are a row of the act `act` inside a `vread`.
pub fn is_act_row(act: InsideAct, kinds: &[Kind]) -> bool
    ensures { IsTrue result ↔ IsActRow act kinds.now }
{
    match act {
        InsideAct::Wipe => kinds.is_empty(),
        InsideAct::Vread(len) => is_system_call(len, 0, kinds),
        InsideAct::Reseed => is_reseed(kinds),
    }
}
