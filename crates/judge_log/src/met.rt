//! Looks up the data that the replay kept about a line's steps, and makes the line's seen steps and kinds from them.
ghost use Rattle.std.specs.Prelude.{◌≡◌, ℕ, List, [], OnOk, slice_get, unwrap_or};
ghost use Rattle.key_names.specs.Keys.KeyInUse.{zero_key};
ghost use Rattle.judge_lines.specs.Kinds.{is_resume};
ghost use Rattle.judge_vread.specs.Seen.{seen_kind};
ghost use Rattle.judge_log.specs.Met.{pool_met, base_met, lane_met, met_at, met_in, base_seen, cpu_seen, seen_of};
ghost use Rattle.judge_log.specs.Met.{seen_in, kind_met, kinds_met};

use crate::{KeptBase, KeptCpu, KeptPool, Lists};
use judge_lines::kind::Kind;
use judge_vread::seen::SeenStep;
use key_names::{BaseEntry, LaneId, Step};
use std::alloc::{AllocError, Global};

/// A step, with the data kept about its visit.
#[derive(Clone, Copy)]
pub enum KeptStep {
    Looked(u64),
    InPool(KeptPool),
    InBase(KeptBase),
    /// A visit of the CPU with this number.
    InCpu(u32, KeptCpu),
    /// A visit of which no data were kept.
    Nothing,
}

fn pool_met(lane: &[KeptPool], place: u64) -> KeptStep
    ensures { result ≡ pool_met (slice_get lane.now place) }
{
    match lane.get(place as usize) {
        Some(kept) => KeptStep::InPool(*kept),
        None => KeptStep::Nothing,
    }
}

fn base_met(lane: &[KeptBase], place: u64) -> KeptStep
    ensures { result ≡ base_met (slice_get lane.now place) }
{
    match lane.get(place as usize) {
        Some(kept) => KeptStep::InBase(*kept),
        None => KeptStep::Nothing,
    }
}

fn cpu_met(lanes: &[Vec<KeptCpu>], cpu: u32, place: u64) -> KeptStep
    ensures { result ≡ lane_met cpu place (slice_get lanes.now cpu) }
{
    let Some(lane) = lanes.get(cpu as usize) else {
        return KeptStep::Nothing;
    };
    match lane.get(place as usize) {
        Some(kept) => KeptStep::InCpu(cpu, *kept),
        None => KeptStep::Nothing,
    }
}

fn met_at(lists: &Lists, step: Step) -> KeptStep
    ensures { result ≡ met_at lists.now step }
{
    let mark = match step {
        Step::Look(found) => return KeptStep::Looked(found),
        Step::Visit(mark) => mark,
    };
    match mark.lane {
        LaneId::Pool => pool_met(&lists.pool, mark.place),
        LaneId::Base => base_met(&lists.base, mark.place),
        LaneId::Cpu(cpu) => cpu_met(&lists.cpus, cpu, mark.place),
    }
}

/// Memory for one line at a time: the kept data, the seen steps and the kinds of its steps.
#[derive(Drop)]
pub struct LineSpace {
    pub met: Vec<KeptStep>,
    pub seen: Vec<SeenStep>,
    pub kinds: Vec<Kind>,
}

impl LineSpace {
    /// Empty memory for the steps of a line.
    pub fn new(alloc: Global) -> LineSpace
        ensures met { result.met.items ≡ [] }
        ensures seen { result.seen.items ≡ [] }
        ensures kinds { result.kinds.items ≡ [] }
    {
        LineSpace {
            met: Vec::new(alloc),
            seen: Vec::new(alloc),
            kinds: Vec::new(alloc),
        }
    }
}

/// Replaces the content of `met` by the steps of a line, with their kept data.
///
/// # Errors
///
/// `AllocError` if there is no memory for the steps.
pub fn put_met(met: &mut Vec<KeptStep>, lists: &Lists, steps: &[Step]) -> Result<(), AllocError>
    ensures { OnOk result (met.new.items ≡ met_in lists.now steps.now) }
{
    met.clear();
    for step in steps {
        met.push(met_at(lists, *step))?;
    }
    Ok(())
}

fn base_seen(kept: &KeptBase) -> SeenStep
    ensures { result ≡ base_seen (is_resume kept.now.entry) (unwrap_or kept.now.key zero_key) }
{
    match kept.entry {
        BaseEntry::Resume => SeenStep::Resumed,
        _ => SeenStep::Base(kept.key.unwrap_or([0; 32])),
    }
}

// The seen step (kind, found generation or key) made from the kept data; `cpu` is the line's CPU.
fn seen_of(cpu: u32, met: &KeptStep) -> SeenStep
    ensures { result ≡ seen_of cpu met.now }
{
    match met {
        KeptStep::Looked(0) => SeenStep::Unready,
        KeptStep::Looked(found) => SeenStep::Ready(*found),
        KeptStep::InPool(_) => SeenStep::Pool,
        KeptStep::InBase(kept) => base_seen(kept),
        KeptStep::InCpu(on, kept) if *on == cpu => SeenStep::Cpu(
            kept.source.key.unwrap_or([0; 32]),
        ),
        KeptStep::InCpu(..) | KeptStep::Nothing => SeenStep::Elsewhere,
    }
}

/// Replaces the content of `seen` by the seen steps of a line, made from the kept data `met`; `cpu` is the line's CPU.
///
/// # Errors
///
/// `AllocError` if there is no memory for the seen steps.
pub fn put_seen(seen: &mut Vec<SeenStep>, cpu: u32, met: &[KeptStep]) -> Result<(), AllocError>
    ensures { OnOk result (seen.new.items ≡ seen_in cpu met.now) }
{
    seen.clear();
    for one in met {
        seen.push(seen_of(cpu, one))?;
    }
    Ok(())
}

fn base_kind(entry: BaseEntry) -> Kind
    ensures { (key : List ℕ) → result ≡ seen_kind (base_seen (is_resume entry) key) }
{
    match entry {
        BaseEntry::Resume => Kind::Resumed,
        _ => Kind::Base,
    }
}

// The kind of a step. This copies no key.
fn kind_met(cpu: u32, met: &KeptStep) -> Kind
    ensures { result ≡ kind_met cpu met.now }
{
    match met {
        KeptStep::Looked(0) => Kind::Unready,
        KeptStep::Looked(_) => Kind::Ready,
        KeptStep::InPool(_) => Kind::Pool,
        KeptStep::InBase(kept) => base_kind(kept.entry),
        KeptStep::InCpu(on, _) if *on == cpu => Kind::Cpu,
        KeptStep::InCpu(..) | KeptStep::Nothing => Kind::OtherCpu,
    }
}

/// Replaces the content of `kinds` by the kinds of the steps of a line on this CPU.
///
/// # Errors
///
/// `AllocError` if there is no memory for the kinds.
pub fn put_kinds(kinds: &mut Vec<Kind>, cpu: u32, met: &[KeptStep]) -> Result<(), AllocError>
    ensures { OnOk result (kinds.new.items ≡ kinds_met cpu met.now) }
{
    kinds.clear();
    for one in met {
        kinds.push(kind_met(cpu, one))?;
    }
    Ok(())
}
