//! Takes a lane without a wait.
ghost use Rattle.std.specs.Prelude.{◌≡◌, ◌≢◌, ◌+◌, ◌*◌, ◌^◌, ◌<◌, ◌≤◌, ◌∷◌, None, IfOk, IfErr};
ghost use Rattle.atomic_table.specs.Table.{rest};
ghost use Rattle.lane_table.specs.declared.view.TicketStage.TheVariants.{Queued, Holding};
ghost use Rattle.lane_table.specs.WorldRule.{at, known_of, Replays};
ghost use Rattle.lane_table.specs.Steps.{Got, OwesNothing, queued_found, found, loaded, left};
ghost use Rattle.lane_table.specs.LaneNumbers.{index_of};
ghost use Rattle.lane_table.specs.Calls.{view, slots, count_of, IsPassOf, IsSamePass, IsAway, Taken, Tried, Unspent, Refused};

use crate::lanes::{Held, Lanes, Pass, TakeFault, index_of, serving_word, ticket_word};
use crate::plays::{Find, Leave, LoadServing, Serve, TryTicket};
use crate::takes::{LAST, held};
use crate::view::Content;
use key_names::LaneId;

impl Lanes {
    fn load_serving(&self, pass: &mut Pass, lane: usize) -> u64
        requires pass { IsPassOf self.now pass.old }
        requires lane { lane < count_of self.now }
        ensures pass { IsSamePass self.now pass.old pass.new }
        ensures seat { pass.new.seat.me ≡ loaded lane result pass.old.seat.me }
    {
        self.table
            .shared
            .load::<LoadServing>(&mut pass.seat, serving_word(lane))
    }

    fn find_ticket(&self, pass: &mut Pass, lane: usize) -> u64
        requires pass { IsPassOf self.now pass.old }
        requires lane { lane < count_of self.now }
        ensures pass { IsSamePass self.now pass.old pass.new }
        ensures above { (at lane (view pass.old)).loaded ≤ result }
        ensures seat { pass.new.seat.me ≡ found lane result pass.old.seat.me }
    {
        self.table
            .shared
            .load::<Find>(&mut pass.seat, ticket_word(lane))
    }

    fn try_draw(&self, pass: &mut Pass, lane: usize, ticket: u64) -> u64
        requires pass { IsPassOf self.now pass.old }
        requires lane { (lane < count_of self.now) × IsAway lane (view pass.old) }
        requires early { ticket < 2 ^ 62 }
        ensures pass { IsSamePass self.now pass.old pass.new }
        ensures above { (at lane (view pass.old)).loaded ≤ result }
        ensures drawn { result ≡ ticket → pass.new.seat.me ≡ queued_found lane ticket pass.old.seat.me }
        ensures not_drawn { result ≢ ticket → pass.new.seat.me ≡ found lane result pass.old.seat.me }
    {
        self.table
            .shared
            .compare_exchange::<TryTicket>(&mut pass.seat, ticket_word(lane), ticket, ticket + 1)
    }

    // Gets the lane at once: the pass's ticket is the serving number that it loaded.
    fn turn(&self, pass: &mut Pass, lane: usize, ticket: u64)
        requires pass { IsPassOf self.now pass.old }
        requires lane { (lane < count_of self.now) × ((at lane (view pass.old)).stage ≡ Queued ticket) }
        requires served { ticket ≤ (at lane (view pass.old)).loaded }
        ensures pass { IsSamePass self.now pass.old pass.new }
        ensures got { Got lane ticket pass.old.seat.me pass.new.seat.me }
    {
        let _serving = self
            .table
            .shared
            .load::<Serve>(&mut pass.seat, serving_word(lane));
    }

    // Gives back a lane with an unchanged value.
    pub(crate) fn leave(&self, pass: &mut Pass, lane: usize, ticket: u64, content: Content)
        requires pass { IsPassOf self.now pass.old }
        requires lane { (lane < count_of self.now) × ((at lane (view pass.old)).stage ≡ Holding ticket)
            × (ticket < 2 ^ 62) }
        requires out { slots pass.old ≡ (lane, None) ∷ rest (slots pass.old) }
        requires free { OwesNothing lane (view pass.old) }
        requires replays { Replays lane (view pass.old).first (known_of (view pass.old) lane) content }
        ensures pass { IsSamePass self.now pass.old pass.new }
        ensures seat { pass.new.seat.me ≡ left lane pass.old.seat.me }
    {
        self.put_content(pass, lane, content);
        self.table
            .shared
            .store::<Leave>(&mut pass.seat, serving_word(lane), ticket + 1);
    }

    fn try_take_at(&self, pass: &mut Pass, lane: usize) -> Result<Held, TakeFault>
        requires pass { IsPassOf self.now pass.old }
        requires lane { (lane < count_of self.now) × IsAway lane (view pass.old) }
        ensures pass { IsSamePass self.now pass.old pass.new }
        ensures taken { IfOk result (λ h. Taken lane h pass.old.seat.me pass.new.seat.me) }
        ensures unspent { IfOk result (λ h. Unspent lane pass.old.seat.me pass.new.seat.me) }
        ensures tried { IfErr result (λ e. Tried lane pass.old.seat.me pass.new.seat.me) }
        ensures refused { IfErr result (λ e. Refused lane pass.old.seat.me pass.new.seat.me e) }
    {
        if pass.stamp >= LAST {
            return Err(TakeFault::Spent);
        }
        let serving = self.load_serving(pass, lane);
        if self.find_ticket(pass, lane) >= LAST {
            return Err(TakeFault::Spent);
        }
        let ticket = self.try_draw(pass, lane, serving);
        if ticket >= LAST {
            return Err(TakeFault::Spent);
        }
        if ticket != serving {
            return Err(TakeFault::Busy { serving, ticket });
        }
        self.turn(pass, lane, serving);
        let content = self.take_content(pass, lane);
        if content.stamp >= LAST {
            self.leave(pass, lane, serving, content);
            return Err(TakeFault::Spent);
        }
        Ok(held(lane, serving, content))
    }

    /// Takes a lane if that needs no wait. A refusal changes neither the lane's value nor its place nor its stamp. A
    /// refused call draws a ticket only if the lane's last stamp is 2^62 or more. It reads that stamp after it drew the
    /// ticket, and then gives the lane back.
    ///
    /// # Errors
    ///
    /// `Spent` if and only if a number that would have to grow is 2^62 or more. These numbers are the stamp of the
    /// pass, the ticket word as read last, and, if the call got the lane, the lane's last stamp. `Busy` if the number
    /// read from the ticket word was above the loaded serving number; then no ticket was drawn.
    pub fn try_take(&self, pass: &mut Pass, lane: LaneId) -> Result<Held, TakeFault>
        requires pass { IsPassOf self.now pass.old }
        requires lane { index_of lane < count_of self.now }
        requires away { IsAway (index_of lane) (view pass.old) }
        ensures pass { IsSamePass self.now pass.old pass.new }
        ensures taken { IfOk result (λ h. Taken (index_of lane) h pass.old.seat.me pass.new.seat.me) }
        ensures unspent { IfOk result (λ h. Unspent (index_of lane) pass.old.seat.me pass.new.seat.me) }
        ensures tried { IfErr result (λ e. Tried (index_of lane) pass.old.seat.me pass.new.seat.me) }
        ensures refused { IfErr result (λ e. Refused (index_of lane) pass.old.seat.me pass.new.seat.me e) }
    {
        self.try_take_at(pass, index_of(lane))
    }
}
