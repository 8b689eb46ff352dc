//! Takes a lane and waits for it.
ghost use Rattle.std.specs.Prelude.{◌≡◌, ◌+◌, ◌*◌, ◌^◌, ◌<◌, ◌≤◌, ◌∷◌, None, Some};
ghost use Rattle.atomic_table.specs.Table.{rest};
ghost use Rattle.lane_table.specs.declared.view.Content.{Content};
ghost use Rattle.lane_table.specs.declared.view.TicketStage.TheVariants.{Queued};
ghost use Rattle.lane_table.specs.WorldRule.{at};
ghost use Rattle.lane_table.specs.Steps.{Got, queued};
ghost use Rattle.lane_table.specs.LaneNumbers.{index_of};
ghost use Rattle.lane_table.specs.Calls.{view, slots, count_of, IsPassOf, IsSamePass, IsAway, Taken};

use crate::lanes::{Held, Lanes, Pass, TakenTurn, index_of, serving_word, ticket_word};
use crate::plays::{DrawTicket, Serve};
use crate::view::Content;
use crossbeam_utils::Backoff;
use key_names::LaneId;
use std::sync::Wait;

// The limit of tickets and stamps: if one of them is this number or more, no pass gets the lane.
pub(crate) const LAST: u64 = 1 << 62;

pub(crate) fn wait_for_ever<R: Wait>(rt: &R)
    ensures { ⊥ }
{
    let backoff = Backoff::new();
    for _ in rt.forever() {
        backoff.snooze();
    }
    unreachable!()
}

// Makes the hold of a lane from the content of the lane's slot.
pub(crate) fn held(lane: usize, ticket: u64, content: Content) -> Held
    requires near { lane < 258 }
    requires early { (ticket < 2 ^ 62) × (content.place ≤ content.stamp) × (content.stamp < 2 ^ 62) }
    ensures turn { (result.turn.lane ≡ lane) × (result.turn.ticket ≡ ticket) }
    ensures list { (result.turn.place ≡ content.place) × (result.turn.stamp ≡ content.stamp) }
    ensures state { result.state ≡ content.state }
{
    let Content {
        state,
        place,
        stamp,
    } = content;
    Held {
        turn: TakenTurn {
            lane,
            ticket,
            place,
            stamp,
        },
        state,
    }
}

impl Lanes {
    // Draws a ticket by a compare and exchange, with retries.
    fn draw<R: Wait>(&self, rt: &R, pass: &mut Pass, lane: usize) -> u64
        requires pass { IsPassOf self.now pass.old }
        requires lane { (lane < count_of self.now) × IsAway lane (view pass.old) }
        ensures pass { IsSamePass self.now pass.old pass.new }
        ensures drawn { pass.new.seat.me ≡ queued lane result pass.old.seat.me }
        ensures early { result < 2 ^ 62 }
    {
        let words = &self.table.shared;
        let word = ticket_word(lane);
        let backoff = Backoff::new();
        for _ in rt.forever() {
            let ticket = words.peek(word);
            if ticket >= LAST {
                backoff.snooze();
            } else if words.compare_exchange::<DrawTicket>(&mut pass.seat, word, ticket, ticket + 1)
                == ticket
            {
                return ticket;
            } else {
                backoff.spin();
            }
        }
        unreachable!()
    }

    // Waits until the lane serves the ticket. A load that finds another number does not change the view.
    fn wait_for<R: Wait>(&self, rt: &R, pass: &mut Pass, lane: usize, ticket: u64)
        requires pass { IsPassOf self.now pass.old }
        requires lane { (lane < count_of self.now) × ((at lane (view pass.old)).stage ≡ Queued ticket) }
        ensures pass { IsSamePass self.now pass.old pass.new }
        ensures got { Got lane ticket pass.old.seat.me pass.new.seat.me }
    {
        let words = &self.table.shared;
        let backoff = Backoff::new();
        for _ in rt.forever() {
            if words.load::<Serve>(&mut pass.seat, serving_word(lane)) == ticket {
                return;
            }
            backoff.snooze();
        }
        unreachable!()
    }

    // Takes the value out of the slot that the pass took last.
    pub(crate) fn take_content(&self, pass: &mut Pass, lane: usize) -> Content
        requires pass { IsPassOf self.now pass.old }
        requires out { (c : Content) × (slots pass.old ≡ (lane, Some c) ∷ rest (slots pass.old)) }
        ensures pass { IsSamePass self.now pass.old pass.new }
        ensures value { slots pass.old ≡ (lane, Some result) ∷ rest (slots pass.old) }
        ensures seat { pass.new.seat.me ≡ (view pass.old, (lane, None) ∷ rest (slots pass.old)) }
    {
        match pass.seat.slot_mut(&self.table.shared, lane).replace(None) {
            Some(content) => content,
            None => unreachable!(),
        }
    }

    fn take_at<R: Wait>(&self, rt: &R, pass: &mut Pass, lane: usize) -> Held
        requires pass { IsPassOf self.now pass.old }
        requires lane { (lane < count_of self.now) × IsAway lane (view pass.old) }
        ensures pass { IsSamePass self.now pass.old pass.new }
        ensures taken { Taken lane result pass.old.seat.me pass.new.seat.me }
    {
        let ticket = self.draw(rt, pass, lane);
        self.wait_for(rt, pass, lane, ticket);
        let content = self.take_content(pass, lane);
        if content.stamp >= LAST {
            wait_for_ever(rt);
        }
        held(lane, ticket, content)
    }

    /// Takes a lane: draws a ticket, and waits until the lane serves it. If `try_take` would return `Spent`, `take`
    /// waits for ever. No clause promises when the turn comes.
    pub fn take<R: Wait>(&self, rt: &R, pass: &mut Pass, lane: LaneId) -> Held
        requires pass { IsPassOf self.now pass.old }
        requires lane { index_of lane < count_of self.now }
        requires away { IsAway (index_of lane) (view pass.old) }
        ensures pass { IsSamePass self.now pass.old pass.new }
        ensures taken { Taken (index_of lane) result pass.old.seat.me pass.new.seat.me }
        ensures early { pass.new.stamp < 2 ^ 62 }
    {
        if pass.stamp >= LAST {
            wait_for_ever(rt);
        }
        self.take_at(rt, pass, index_of(lane))
    }
}
