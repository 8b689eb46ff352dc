//! The site of a call, and its visits of the lanes. A call holds at most two lanes.
ghost use Rattle.std.specs.Prelude.{◌≡◌, ◌<◌, ◌≤◌, length};
ghost use Rattle.lane_table.specs.LaneNumbers.{index_of};
ghost use Rattle.lane_table.specs.Calls.{IsPassOf, IsAway, CanPut, count_of, view};

use crate::setting::Setting;
use key_names::{BaseEntry, CpuEntry, LaneId, PoolNote, Step, Trace, Who};
use lane_table::{Entry, Held, Lanes, Pass};
use std::sync::Wait;

/// The site of a call: the table, the caller's pass, the steps so far, and the caller's setting.
///
/// A call begins and ends with no lane held, and its steps must fit into the trace, which has room for 20. If a call
/// uses `set.cpu`, the table must have that CPU. If a call samples with credit, reseeds or ticks, `set.now` must be
/// below 2^40. A read asks for at most 2^20 bytes.
#[derive(Drop)]
pub struct Site<'a> {
    pub lanes: &'a Lanes,
    pub pass: &'a mut Pass,
    pub trace: &'a mut Trace,
    pub set: Setting,
}

impl Site<'_> {
    ghost use Rattle.lane_table.specs.declared.view.LaneEntry.TheVariants.{Pool as OfPool, Base as OfBase, Cpu as OfCpu};
    ghost use Rattle.key_names.specs.Lanes.PoolNotes.{entry_of};
    ghost use Rattle.lane_table.specs.Advances.{maker};
    ghost use Rattle.rng_core.specs.Sites.{IsIdle, IsOnCpu, HasRoom, Holds, Took, Entered, EnteredCpu, CanVisit, IsMade, VisitedIdly, Visits, Looked, LookedIdly, GaveBack, pool_lane, base_lane, own_lane, last_stamp};

    // Takes a lane; other lanes may be held.
    pub(crate) fn take<R: Wait>(&mut self, rt: &R, lane: LaneId) -> Held
        requires pass { IsPassOf self.old.lanes.now self.old.pass.now }
        requires lane { index_of lane < count_of self.old.lanes.now }
        requires away { IsAway (index_of lane) (view self.old.pass.now) }
        ensures { Took (index_of lane) result self.old self.new }
    {
        match self.lanes.try_take(self.pass, lane) {
            Ok(held) => held,
            Err(_) => self.lanes.take(rt, self.pass, lane),
        }
    }

    /// Takes a lane while no other lane is held.
    pub(crate) fn enter<R: Wait>(&mut self, rt: &R, lane: LaneId) -> Held
        requires idle { IsIdle 0 self.old }
        requires lane { index_of lane < count_of self.old.lanes.now }
        ensures { Entered (index_of lane) result self.old self.new }
    {
        self.take(rt, lane)
    }

    /// Takes the CPU that the caller runs on, and looks at the generation while the CPU is held.
    pub(crate) fn enter_cpu<R: Wait>(&mut self, rt: &R) -> (Held, u64)
        requires idle { IsIdle 1 self.old }
        requires cpu { IsOnCpu self.old }
        ensures { EnteredCpu result.0 result.1 self.old self.new }
    {
        let cpu = self.set.cpu;
        let held = self.enter(rt, LaneId::Cpu(cpu));
        let look = self.look_on();
        (held, look)
    }

    // Makes one look; lanes may be held.
    fn look_on(&mut self) -> u64
        requires pass { IsPassOf self.old.lanes.now self.old.pass.now }
        requires room { HasRoom 1 self.old }
        ensures { Looked result self.old self.new }
    {
        let generation = self.lanes.generation(self.pass);
        self.trace.push(Step::Look(generation));
        generation
    }

    /// Makes one look while no lane is held.
    pub(crate) fn look(&mut self) -> u64
        requires { IsIdle 1 self.old }
        ensures { LookedIdly result self.old self.new }
    {
        self.look_on()
    }

    /// Releases the base unchanged, without a visit.
    pub(crate) fn give_back(&mut self, base: Held)
        requires { Holds base_lane base self.old }
        ensures { GaveBack self.old self.new }
    {
        self.lanes.back(self.pass, base);
    }

    fn maker(&self) -> Who
        ensures { result ≡ maker self.now.set.caller self.now.set.event (length self.now.trace.now) }
    {
        Who {
            caller: self.set.caller,
            event: self.set.event,
            step: self.trace.len(),
        }
    }

    // Makes a visit; other lanes may be held.
    pub(crate) fn put<E: Entry>(&mut self, held: Held, entry: E)
        requires pass { IsPassOf self.old.lanes.now self.old.pass.now }
        requires own { self.old.pass.now.caller ≡ self.old.set.caller }
        requires entry { CanPut self.old.lanes.now self.old.pass.now held (E.entry entry) }
        requires room { HasRoom 1 self.old }
        requires early { self.old.pass.now.stamp ≤ last_stamp }
        ensures { Visits held (E.entry entry) self.old self.new }
    {
        let who = self.maker();
        let mark = self.lanes.put(self.pass, held, who, entry);
        self.trace.push(Step::Visit(mark));
    }

    /// Makes a visit of the only lane that is held. The visit's entry hands no key to another lane.
    pub(crate) fn visit<E: Entry>(&mut self, held: Held, entry: E)
        requires ready { CanVisit held.turn.lane held (E.entry entry) self.old }
        requires makes { IsMade held.turn.lane held (E.entry entry) self.old }
        ensures { VisitedIdly held.turn.lane held (E.entry entry) self.old self.new }
    {
        self.put(held, entry);
    }

    /// Makes a visit of the pool, which is the only held lane.
    pub(crate) fn visit_pool(&mut self, pool: Held, note: PoolNote)
        requires ready { CanVisit pool_lane pool (OfPool (entry_of note)) self.old }
        requires makes { IsMade pool_lane pool (OfPool (entry_of note)) self.old }
        ensures { VisitedIdly pool_lane pool (OfPool (entry_of note.entry)) self.old self.new }
    {
        self.visit(pool, note);
    }

    /// Makes a visit of the base, which is the only held lane.
    pub(crate) fn visit_base(&mut self, base: Held, entry: BaseEntry)
        requires ready { CanVisit base_lane base (OfBase entry) self.old }
        requires makes { IsMade base_lane base (OfBase entry) self.old }
        ensures { VisitedIdly base_lane base (OfBase entry) self.old self.new }
    {
        self.visit(base, entry);
    }

    /// Makes a visit of the caller's CPU, which is the only held lane.
    pub(crate) fn visit_cpu(&mut self, cpu: Held, entry: CpuEntry)
        requires ready { CanVisit (own_lane self.old) cpu (OfCpu entry) self.old }
        requires makes { IsMade (own_lane self.old) cpu (OfCpu entry) self.old }
        ensures { VisitedIdly (own_lane self.old) cpu (OfCpu entry) self.old self.new }
    {
        self.visit(cpu, entry);
    }
}
