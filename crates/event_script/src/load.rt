//! The script of a load: each caller, on its own CPU, makes eight kinds of calls in turn.

ghost use Rattle.std.specs.Prelude.{◌≡◌, ◌<◌, ◌≤◌, IfOk, map};
ghost use Rattle.std.specs.Int.{w64, to_le_bytes};
ghost use Rattle.std.specs.List.{range_with_len};
ghost use Rattle.event_script.specs.LoadScript.{call, load_events, opening, read_len, turn};

use key_names::{Event, Text};
use std::alloc::{AllocError, Global};

/// The bytes that caller 0 adds, with `SEED_BITS` bits of credit, to make the core ready.
const SEED: [u8; 32] = [
    0, 1, 2, 3, 4, 5, 6, 7, 8, 9, 10, 11, 12, 13, 14, 15, 16, 17, 18, 19, 20, 21, 22, 23, 24, 25,
    26, 27, 28, 29, 30, 31,
];

/// How many bits of credit make the core ready.
const SEED_BITS: u32 = 256;

fn read_len(start: u32, number: u32) -> u32
    ensures { result ≡ read_len start number }
{
    let spread = 17 * u64::from(number) + u64::from(start);
    1 + (spread % 100) as u32
}

fn turn(start: u32, caller: u32, number: u32) -> u8
    ensures { result ≡ turn start caller number }
{
    let turns = u64::from(start) + 3 * u64::from(caller) + u64::from(number);
    (turns % 8) as u8
}

/// A number as eight bytes, least significant first.
fn number_text(alloc: Global, number: u32) -> Result<Text, AllocError>
    ensures { IfOk result (λ text. text ≡ to_le_bytes w64 number) }
{
    let bytes = Vec::from_slice(alloc, &u64::from(number).to_le_bytes())?;
    Text::of(alloc, bytes)
}

fn call(alloc: Global, start: u32, caller: u32, number: u32) -> Result<Event, AllocError>
    ensures { IfOk result (λ event. event ≡ call start caller number) }
{
    let len = read_len(start, number);
    match turn(start, caller, number) {
        0 => Ok(Event::Read { len, flags: 0 }),
        1 => Ok(Event::Vread { len, flags: 0 }),
        2 => Ok(Event::Kread { len }),
        3 => Ok(Event::Int64),
        4 => Ok(Event::Irq {
            v1: u64::from(number),
            v2: u64::from(caller),
        }),
        5 => Ok(Event::Write {
            text: number_text(alloc, number)?,
        }),
        6 => Ok(Event::Uread { len }),
        _ => Ok(Event::Reseed),
    }
}

/// The opening events of a caller. Caller 0 makes the core ready and forks all others; no other caller has opening
/// events.
fn opening(alloc: Global, callers: u32, caller: u32) -> Result<Vec<Event>, AllocError>
    ensures { IfOk result (λ events. events.items ≡ opening callers caller) }
{
    let mut events = Vec::new(alloc);
    if caller != 0 {
        return Ok(events);
    }
    let text = Text::of(alloc, Vec::from_slice(alloc, &SEED)?)?;
    events.push(Event::Add {
        text,
        bits: SEED_BITS,
    })?;
    for child in 1..callers {
        events.push(Event::Fork { child })?;
    }
    Ok(events)
}

/// The events of one caller.
fn load_events(
    alloc: Global,
    start: u32,
    callers: u32,
    count: u32,
    caller: u32,
) -> Result<Vec<Event>, AllocError>
    ensures { IfOk result (λ events. events.items ≡ load_events start callers count caller) }
{
    let mut events = opening(alloc, callers, caller)?;
    events.push(Event::On { cpu: caller })?;
    for number in 0..count {
        events.push(call(alloc, start, caller, number)?)?;
    }
    Ok(events)
}

/// The events of all callers, with `count` calls each.
pub(crate) fn load_blocks(
    alloc: Global,
    start: u32,
    callers: u32,
    count: u32,
) -> Result<Vec<Vec<Event>>, AllocError>
    ensures { IfOk result (λ blocks. map (λ events. events.items) blocks.items
        ≡ map (load_events start callers count) (range_with_len 0 callers)) }
{
    let mut blocks = Vec::new(alloc);
    for caller in 0..callers {
        blocks.push(load_events(alloc, start, callers, count, caller)?)?;
    }
    Ok(blocks)
}
