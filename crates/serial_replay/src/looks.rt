//! Whether each look is lawful. A lawful look finds at least the greatest generation that its caller has seen, and at
//! most the last generation of the base.
ghost use Rattle.std.specs.Prelude.{◌≡◌, slice_get, option_map};
ghost use Rattle.serial_replay.specs.Seen.{left_at, seen_more, seen_past, MayLook, reseeds_in};

use judge_lines::along::Carry;
use judge_log::{KeptBase, KeptCpu, Lists};
use key_names::{LaneId, Mark, Step};

/// Goes along a caller's steps in their order, and keeps the generation that the caller has seen. This is the greatest
/// generation that a look has found so far, or that a visit of the base or of a CPU has left.
#[derive(Drop)]
pub(crate) struct Looks<'a> {
    lists: &'a Lists,
    reseeds: u64,
}

fn reseeds_in(base: &[KeptBase]) -> u64
    ensures { result ≡ reseeds_in base.now }
{
    match base.last() {
        Some(kept) => kept.generation,
        None => 0,
    }
}

impl<'a> Looks<'a> {
    pub(crate) fn of(lists: &'a Lists) -> Looks<'a>
        ensures lists { result.lists.now ≡ lists.now }
        ensures reseeds { result.reseeds ≡ reseeds_in lists.now.base.items }
    {
        Looks {
            lists,
            reseeds: reseeds_in(&lists.base),
        }
    }

    // The generation after a visit, or none for a visit of the pool.
    fn left_by(&self, mark: Mark) -> Option<u64>
        ensures { result ≡ left_at self.now.lists.now mark.lane mark.place }
    {
        match mark.lane {
            LaneId::Pool => None,
            LaneId::Base => left_by_base(&self.lists.base, mark.place),
            LaneId::Cpu(cpu) => left_by_cpu(self.lists.cpus.get(cpu as usize)?, mark.place),
        }
    }
}

fn left_by_base(base: &[KeptBase], place: u64) -> Option<u64>
    ensures { result ≡ option_map (λ kept. kept.generation) (slice_get base.now place) }
{
    Some(base.get(place as usize)?.generation)
}

fn left_by_cpu(lane: &[KeptCpu], place: u64) -> Option<u64>
    ensures { result ≡ option_map (λ kept. kept.generation) (slice_get lane.now place) }
{
    Some(lane.get(place as usize)?.generation)
}

fn seen_more(carried: Option<u64>, found: Option<u64>) -> Option<u64>
    ensures { result ≡ seen_more carried found }
{
    match found {
        Some(found) => Some(carried.unwrap_or(0).max(found)),
        None => carried,
    }
}

impl Carry for Looks<'_> {
    ghost after = { λ looks carried step. seen_past looks.lists.now carried step };

    ghost MayFollow = { λ looks carried step. MayLook looks.reseeds carried step };

    fn may_follow(&self, carried: Option<u64>, step: Step) -> bool {
        match step {
            Step::Look(found) => carried.unwrap_or(0) <= found && found <= self.reseeds,
            Step::Visit(_) => true,
        }
    }

    fn after(&self, carried: Option<u64>, step: Step) -> Option<u64> {
        match step {
            Step::Look(found) => seen_more(carried, Some(found)),
            Step::Visit(mark) => seen_more(carried, self.left_by(mark)),
        }
    }
}
