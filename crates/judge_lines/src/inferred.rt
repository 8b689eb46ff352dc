//! Infers the entry of a visit from the steps before and after it. The functions are total: if a visit cannot occur in
//! its line, they return an arbitrary entry.
ghost use Rattle.std.specs.Prelude.{◌≡◌};
ghost use Rattle.judge_lines.specs.Inferred as inferred;

use crate::setting::LineSetting;
use key_names::{BaseEntry, CpuEntry, Event, Taken};

/// The part of a step that is used to infer entries: the generation that a look found, or the lane and place of a
/// visit.
#[derive(Clone, Copy, Debug, PartialEq, Eq)]
pub enum Sign {
    /// A look that found this generation.
    Saw(u64),
    /// A visit of the pool, by its place.
    InPool(u64),
    /// A visit of the base, by its place.
    InBase(u64),
    /// A visit of a CPU, by its number and its place.
    InCpu(u32, u64),
    /// No step: the line begins or ends here.
    Nowhere,
}

/// The signs of the two steps before a visit, and of the step after it. A step that the line does not have is
/// `Sign::Nowhere`.
#[derive(Clone, Copy, Debug, PartialEq, Eq)]
pub struct Neighbours {
    pub second_before: Sign,
    pub before: Sign,
    pub following: Sign,
}

/// The inferred entry of a visit of the pool.
#[derive(Clone, Copy, Debug, PartialEq, Eq)]
pub enum PoolInferred {
    /// The entry that the line's event makes itself, such as a mix.
    Own,
    /// An extraction for the entry of the base at this place.
    Extracted(u64),
    /// The mix of a fast pool's dump; the dump is at this place of this CPU's list.
    Dumped(u32, u64),
}

/// The inferred entry of a visit of the base.
#[derive(Clone, Copy, Debug, PartialEq, Eq)]
pub enum BaseInferred {
    /// This entry.
    Is(BaseEntry),
    /// The base's entry after a credit crossed a threshold. If the credit at place `credit` of the pool made the core
    /// ready, this is a reseed with this root at the moment `now`. Otherwise it is an early key from the root.
    Crossed { root: u64, now: u64, credit: u64 },
    /// The end of a wait. The caller resumed if the base had a generation above 0, and was interrupted otherwise.
    Woken,
}

/// The inferred entry of a visit of a CPU.
#[derive(Clone, Copy, Debug, PartialEq, Eq)]
pub enum CpuInferred {
    /// This entry.
    Is(CpuEntry),
    /// A random integer of `width` bytes, after a look that found the generation `look`. The CPU's state determines
    /// whether the integer fills its batch.
    Batch { look: u64, width: u8 },
}

fn root_before(sign: Sign) -> Option<u64>
    ensures { result ≡ inferred.root_before sign }
{
    match sign {
        Sign::InPool(place) => Some(place),
        _ => None,
    }
}

fn pool_place_in(sign: Sign) -> u64
    ensures { result ≡ inferred.pool_place_in sign }
{
    match sign {
        Sign::InPool(place) => place,
        _ => 0,
    }
}

/// The place of a step that visits the base, or 0 for any other step.
pub fn base_place_in(sign: Sign) -> u64
    ensures { result ≡ inferred.base_place_in sign }
{
    match sign {
        Sign::InBase(place) => place,
        _ => 0,
    }
}

fn look_in(sign: Sign) -> u64
    ensures { result ≡ inferred.look_in sign }
{
    match sign {
        Sign::Saw(look) => look,
        _ => 0,
    }
}

fn own_or_extracted(following: Sign, before: Sign) -> PoolInferred
    ensures { result ≡ inferred.own_or_extracted following before }
{
    match before {
        Sign::Nowhere => PoolInferred::Own,
        _ => PoolInferred::Extracted(base_place_in(following)),
    }
}

fn dumped_or_extracted(following: Sign, before: Sign) -> PoolInferred
    ensures { result ≡ inferred.dumped_or_extracted following before }
{
    match before {
        Sign::InCpu(cpu, place) => PoolInferred::Dumped(cpu, place),
        _ => PoolInferred::Extracted(base_place_in(following)),
    }
}

/// The inferred entry of a visit of the pool in the line of `event`.
pub fn pool_inferred(set: &LineSetting, event: &Event, neighbours: Neighbours) -> PoolInferred
    ensures { result ≡ inferred.pool_inferred (inferred.telling set.now event.now) neighbours }
{
    match event {
        Event::Write { .. }
        | Event::Device { .. }
        | Event::Bits
        | Event::Add { .. }
        | Event::Credit { .. }
        | Event::Input { .. }
        | Event::Vmfork { .. } => own_or_extracted(neighbours.following, neighbours.before),
        Event::Irq { .. } => dumped_or_extracted(neighbours.following, neighbours.before),
        _ => PoolInferred::Extracted(base_place_in(neighbours.following)),
    }
}

fn drawn_or_woken(taken: Taken, before: Sign) -> BaseInferred
    ensures { result ≡ inferred.drawn_or_woken taken before }
{
    match before {
        Sign::InBase(_) => BaseInferred::Woken,
        _ => BaseInferred::Is(BaseEntry::Draw {
            root: root_before(before),
            taken,
        }),
    }
}

/// The inferred entry of a visit of the base, during a read or a system call that takes the bytes `taken`.
pub fn read_inferred(set: &LineSetting, taken: Taken, neighbours: Neighbours) -> BaseInferred
    ensures { result ≡ inferred.read_inferred set.now taken neighbours }
{
    match neighbours.following {
        Sign::InCpu(_, place) => BaseInferred::Is(BaseEntry::Refill {
            cpu: set.cpu(),
            cpu_place: place,
        }),
        Sign::InBase(_) => BaseInferred::Is(BaseEntry::Wait),
        _ => drawn_or_woken(taken, neighbours.before),
    }
}

fn crossed_inferred(set: &LineSetting, second_before: Sign, before: Sign) -> BaseInferred
    ensures { result ≡ inferred.crossed_inferred set.now second_before before }
{
    match second_before {
        Sign::InPool(credit) => BaseInferred::Crossed {
            root: pool_place_in(before),
            now: set.moment(),
            credit,
        },
        _ => BaseInferred::Is(BaseEntry::Early { root: None }),
    }
}

fn forked_inferred(child: u32, second_before: Sign, before: Sign) -> BaseInferred
    ensures { result ≡ inferred.forked_inferred child second_before before }
{
    match (second_before, before) {
        (_, Sign::Nowhere) => BaseInferred::Is(BaseEntry::Fork { child }),
        (Sign::Nowhere, _) => BaseInferred::Is(BaseEntry::Stall),
        _ => BaseInferred::Is(BaseEntry::Unstall),
    }
}

/// The inferred entry of a visit of the base in the line of `event`. For the line of a caller's end, the entry is
/// inferred as for an event that never visits the base.
pub fn base_inferred(set: &LineSetting, event: &Event, neighbours: Neighbours) -> BaseInferred
    ensures { result ≡ inferred.base_inferred set.now (inferred.telling set.now event.now) neighbours }
{
    match event {
        Event::Kread { len } => read_inferred(set, Taken::Kernel(*len), neighbours),
        Event::Uread { len } | Event::Read { len, .. } | Event::Dread { len, .. } => {
            read_inferred(set, Taken::User(*len), neighbours)
        }
        Event::Int8 => read_inferred(set, Taken::Kernel(1), neighbours),
        Event::Int16 => read_inferred(set, Taken::Kernel(2), neighbours),
        Event::Int32 => read_inferred(set, Taken::Kernel(4), neighbours),
        Event::Int64 => read_inferred(set, Taken::Kernel(8), neighbours),
        Event::Add { .. } | Event::Credit { .. } | Event::Input { .. } | Event::Irq { .. } => {
            crossed_inferred(set, neighbours.second_before, neighbours.before)
        }
        Event::Reseed | Event::Vmfork { .. } => {
            BaseInferred::Is(BaseEntry::Reseed {
                root: pool_place_in(neighbours.before),
                now: set.moment(),
            })
        }
        Event::Tick => BaseInferred::Is(BaseEntry::Tick {
            now: set.moment(),
            root: root_before(neighbours.before),
        }),
        Event::Fork { child } => forked_inferred(
            *child,
            neighbours.second_before,
            neighbours.before,
        ),
        _ => BaseInferred::Is(BaseEntry::End),
    }
}

/// The inferred entry of a visit of a CPU, during a read or a system call that takes the bytes `taken`. It is inferred
/// from the two steps before the visit.
pub fn cpu_read_inferred(taken: Taken, second_before: Sign, before: Sign) -> CpuInferred
    ensures { result ≡ inferred.cpu_read_inferred taken second_before before }
{
    match before {
        Sign::InBase(place) => {
            CpuInferred::Is(CpuEntry::Read {
                look: look_in(second_before),
                refill: Some(place),
                taken,
            })
        }
        _ => CpuInferred::Is(CpuEntry::Read {
            look: look_in(before),
            refill: None,
            taken,
        }),
    }
}

fn cpu_int_inferred(width: u8, second_before: Sign, before: Sign) -> CpuInferred
    ensures { result ≡ inferred.cpu_int_inferred width second_before before }
{
    match before {
        Sign::InBase(place) => CpuInferred::Is(CpuEntry::Int {
            look: look_in(second_before),
            refill: Some(place),
            width,
            filled: true,
        }),
        _ => CpuInferred::Batch {
            look: look_in(before),
            width,
        },
    }
}

fn int_inferred(width: u8, found: u64, second_before: Sign, before: Sign) -> CpuInferred
    ensures { result ≡ inferred.int_inferred width found second_before before }
{
    if found == 0 {
        cpu_read_inferred(Taken::Kernel(u32::from(width)), second_before, before)
    } else {
        cpu_int_inferred(width, second_before, before)
    }
}

/// The inferred entry of a visit of a CPU in the line of `event`, whose first step is `first`.
pub fn cpu_inferred(
    set: &LineSetting,
    event: &Event,
    first: Sign,
    neighbours: Neighbours,
) -> CpuInferred
    ensures { result ≡ inferred.cpu_inferred set.now (inferred.telling set.now event.now) first neighbours }
{
    match event {
        Event::Kread { len } => cpu_read_inferred(
            Taken::Kernel(*len),
            neighbours.second_before,
            neighbours.before,
        ),
        Event::Uread { len } | Event::Read { len, .. } | Event::Dread { len, .. } => {
            cpu_read_inferred(
                Taken::User(*len),
                neighbours.second_before,
                neighbours.before,
            )
        }
        Event::Int8 => int_inferred(
            1,
            look_in(first),
            neighbours.second_before,
            neighbours.before,
        ),
        Event::Int16 => int_inferred(
            2,
            look_in(first),
            neighbours.second_before,
            neighbours.before,
        ),
        Event::Int32 => int_inferred(
            4,
            look_in(first),
            neighbours.second_before,
            neighbours.before,
        ),
        Event::Int64 => int_inferred(
            8,
            look_in(first),
            neighbours.second_before,
            neighbours.before,
        ),
        Event::Irq { v1, v2 } => match neighbours.before {
            Sign::Nowhere => CpuInferred::Is(CpuEntry::Irq {
                v1: *v1,
                v2: *v2,
                now: set.moment(),
            }),
            _ => CpuInferred::Is(CpuEntry::Dump { now: set.moment() }),
        },
        Event::Online { .. } => CpuInferred::Is(CpuEntry::Online),
        _ => CpuInferred::Is(CpuEntry::Prepare),
    }
}
