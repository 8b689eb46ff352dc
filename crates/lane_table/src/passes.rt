//! The start and the end of a table, and the split and the join of passes.
ghost use Rattle.std.specs.Prelude.{◌≡◌, ◌+◌, ◌*◌, ◌^◌, ◌<◌, ◌≤◌, ℕ, [], IfOk, length, replicate, slice_set, slice_get, Some, vec_len};
ghost use Rattle.std.specs.List.{sum_by};
ghost use Rattle.lane_table.specs.WorldRule.{Replays, words_of};
ghost use Rattle.lane_table.specs.RuleLaws.{NumbersAre};
ghost use Rattle.lane_table.specs.Steps.{first_view, halved, child, both_of};
ghost use Rattle.lane_table.specs.Calls.{view, slots, count_of, first_of, plan_of, made_in, IsPassOf, IsSamePass, IsIdle, Ended, AreStarts};

use crate::lanes::{GENERATION, LINE, Lanes, Pass};
use crate::plays::{Halves, Merges, Settle};
use crate::slot::Slot;
use crate::values::{BaseLane, Boxed, CpuLane, LaneState, PoolLane};
use crate::view::{Content, TableSize};
use atomic_table::Table;
use base_gen::Base;
use cpu_gen::Cpu;
use input_pool::Pool;
use int_batch::Batch;
use sample_credit::{FastPool, InputTimer};
use std::alloc::{AllocError, Global};

// The value of a lane at the start, before its first visit.
fn start_state(lane: usize) -> LaneState
    ensures { (first : ℕ) → Replays lane first [] (record { state = result; place = 0; stamp = first }) }
{
    match lane {
        0 => LaneState::Pool(PoolLane {
            pool: Pool::start(),
            timer: InputTimer::start(),
        }),
        1 => LaneState::Base(BaseLane {
            base: Base::start(),
        }),
        _ => LaneState::Cpu(CpuLane {
            cpu: Cpu::start(),
            b8: Batch::start(),
            b16: Batch::start(),
            b32: Batch::start(),
            b64: Batch::start(),
            fast: FastPool::start(),
        }),
    }
}

fn start_content(alloc: Global, lane: usize, first: u64) -> Result<Content, AllocError>
    ensures { IfOk result (λ c. Replays lane first [] c) }
{
    let state = Boxed::new(alloc, start_state(lane))?;
    Ok(Content {
        state,
        place: 0,
        stamp: first,
    })
}

fn start_contents(alloc: Global, count: usize, first: u64) -> Result<Vec<Slot>, AllocError>
    ensures { IfOk result (λ v. AreStarts first count v.items) }
{
    let mut slots = Vec::with_capacity(alloc, count)?;
    for lane in 0..count {
        let content = start_content(alloc, lane, first)?;
        slots.push(Slot::of(Some(content)))?;
    }
    Ok(slots)
}

fn start_words(alloc: Global, count: usize, first: u64) -> Result<Vec<u64>, AllocError>
    requires { count ≤ 258 }
    ensures { IfOk result (λ v. v.items ≡ slice_set (replicate (words_of count) first) 0 0) }
{
    let mut words = Vec::from_elem(alloc, first, LINE * count + LINE)?;
    words[GENERATION] = 0;
    Ok(words)
}

impl Lanes {
    /// Makes a table with `cpus` CPUs, 1 to 256, and the pass of caller 0, which has the whole share. Each lane is in
    /// its starting state, and the generation is 0. Stamps, tickets and serving numbers start at `first`, at most 2^62.
    ///
    /// # Errors
    ///
    /// `AllocError` if memory ran out.
    pub fn start(alloc: Global, cpus: u32, first: u64) -> Result<(Lanes, Pass), AllocError>
        requires cpus { (1 ≤ cpus) × (cpus ≤ 256) }
        requires first { first ≤ 2 ^ 62 }
        ensures table { IfOk result (λ r. (r.0.cpus ≡ cpus) × (first_of r.0 ≡ first)) }
        ensures pass { IfOk result (λ r. IsPassOf r.0 r.1 × (r.1.caller ≡ 0)) }
        ensures seat { IfOk result (λ r. r.1.seat.me ≡ (first_view (plan_of (cpus + 2) first), [])) }
        ensures numbers { IfOk result (λ r. NumbersAre first (view r.1)) }
    {
        let count = cpus as usize + 2;
        let words = start_words(alloc, count, first)?;
        let slots = start_contents(alloc, count, first)?;
        let plan = TableSize { count, first };
        match Table::new(alloc, words.as_slice(), slots, &plan) {
            Ok((table, seat)) => Ok((
                Lanes { table, cpus },
                Pass {
                    seat,
                    stamp: first,
                    caller: 0,
                },
            )),
            Err(_) => Err(AllocError),
        }
    }

    /// Makes a pass for another caller, with the knowledge and the stamp of `pass`. Each of these two passes has half
    /// of the share that `pass` had.
    pub fn split(&self, pass: &mut Pass, caller: u32) -> Pass
        requires { IsPassOf self.now pass.old }
        ensures pass { IsSamePass self.now pass.old pass.new }
        ensures child { IsPassOf self.now result × (result.caller ≡ caller) }
        ensures halved { pass.new.seat.me ≡ (halved (view pass.old), slots pass.old) }
        ensures seat { result.seat.me ≡ (child (view pass.old), []) }
    {
        let seat = self.table.shared.split_seat::<Halves>(&mut pass.seat);
        Pass {
            seat,
            stamp: pass.stamp,
            caller,
        }
    }

    /// Joins `other` to `pass`. Then `pass` has the knowledge, the visits and the shares of both, and the greater
    /// stamp.
    pub fn join(&self, pass: &mut Pass, other: Pass)
        requires pass { IsPassOf self.now pass.old }
        requires other { IsPassOf self.now other }
        requires idle { IsIdle (view other) × (slots other ≡ []) }
        ensures pass { IsSamePass self.now pass.old pass.new }
        ensures both { pass.new.seat.me ≡ (both_of (view pass.old) (view other), slots pass.old) }
    {
        let Pass {
            seat,
            stamp,
            caller: _,
        } = other;
        self.table.shared.join_seat::<Merges>(&mut pass.seat, seat);
        pass.stamp = pass.stamp.max(stamp);
    }

    /// Changes nothing, and is called for its contract: an idle pass that has the whole share knows each lane's whole
    /// list, and has counted all visits. A pass has the whole share once it has joined all other passes.
    pub fn settle(&self, pass: &mut Pass)
        requires { IsPassOf self.now pass.old }
        ensures pass { IsSamePass self.now pass.old pass.new }
        ensures same { pass.new.seat.me ≡ pass.old.seat.me }
        ensures ended { (view pass.old).share ≡ 2 ^ (view pass.old).halvings → IsIdle (view pass.old)
            → Ended (count_of self.now) (view pass.old) }
    {
        let _generation = self.table.shared.load::<Settle>(&mut pass.seat, GENERATION);
    }

    /// Takes the table apart, and returns the number of visits in all lanes together.
    pub fn close(self, pass: Pass) -> u128
        requires pass { IsPassOf self pass }
        requires idle { IsIdle (view pass) }
        requires whole { (view pass).share ≡ 2 ^ (view pass).halvings }
        ensures count { result ≡ sum_by made_in (view pass).lanes }
        ensures ended { Ended (count_of self) (view pass) }
    {
        let Lanes { table, cpus } = self;
        let Pass {
            seat,
            stamp: _,
            caller: _,
        } = pass;
        let mut closed = table.close_with(seat);
        let mut visits = 0u128;
        for lane in 0..cpus as usize + 2 {
            match closed.take(lane).into_content() {
                Some(content) => visits += u128::from(content.place()),
                None => unreachable!(),
            }
        }
        closed.free();
        visits
    }
}
