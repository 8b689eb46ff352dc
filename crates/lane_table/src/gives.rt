//! Releases a held lane, with a visit or without.
ghost use Rattle.std.specs.Prelude.{◌≡◌, ◌+◌, ◌*◌, ◌-◌, ◌^◌, ◌<◌, ◌++◌, ◌∷◌, [], Some, None, max};
ghost use Rattle.atomic_table.specs.Table.{rest};
ghost use Rattle.lane_table.specs.declared.view.TicketStage.TheVariants.{Holding};
ghost use Rattle.lane_table.specs.Meaning.{IsOf, Fits, replay};
ghost use Rattle.lane_table.specs.WorldRule.{at, known_of, last_stamp, Replays, Consistent};
ghost use Rattle.lane_table.specs.Steps.{MayName, handed, filled, after};
ghost use Rattle.lane_table.specs.LaneNumbers.{index_of};
ghost use Rattle.lane_table.specs.Calls.{view, slots, count_of, visit_by, IsPassOf, IsSamePass, CanPut, CanLeave, Added, Left};

use crate::entry::Entry;
use crate::lanes::{Held, Lanes, Pass, TakenTurn, lane_at, serving_word};
use crate::plays::{Put, Tells};
use crate::view::Content;
use key_names::{Mark, Who};
use std::marker::Brand;

impl Lanes {
    // Puts a lane's value back into the lane's slot, which is the slot that the pass took last.
    pub(crate) fn put_content(&self, pass: &mut Pass, lane: usize, content: Content)
        requires pass { IsPassOf self.now pass.old }
        requires out { slots pass.old ≡ (lane, None) ∷ rest (slots pass.old) }
        ensures pass { IsSamePass self.now pass.old pass.new }
        ensures seat { pass.new.seat.me ≡ (view pass.old, (lane, Some content) ∷ rest (slots pass.old)) }
    {
        match pass
            .seat
            .slot_mut(&self.table.shared, lane)
            .replace(Some(content))
        {
            None => {}
            Some(_) => unreachable!(),
        }
    }

    // Makes the visit that `N` describes: puts the value back into the table, and gives the visit's stamp to the pass.
    fn decide<N: Tells, E: Entry>(
        &self,
        pass: &mut Pass,
        lane: usize,
        ticket: u64,
        content: Content,
        _who: Who,
        _entry: E,
    )
        requires pass { IsPassOf self.now pass.old }
        requires lane { (lane < count_of self.now) × ((at lane (view pass.old)).stage ≡ Holding ticket)
            × (ticket < 2 ^ 62) }
        requires out { slots pass.old ≡ (lane, None) ∷ rest (slots pass.old) }
        requires visit { N.visit ≡ visit_by _who content.stamp (E.entry _entry) }
        requires above { last_stamp (view pass.old).first (known_of (view pass.old) lane) < content.stamp }
        requires later { (view pass.old).stamp < content.stamp }
        requires kind { IsOf lane (E.entry _entry) }
        requires fits { Fits (replay (known_of (view pass.old) lane)) (handed lane (E.entry _entry) (view pass.old))
            (E.entry _entry) }
        requires names { MayName lane (E.entry _entry) (view pass.old) }
        requires replays { Replays lane (view pass.old).first
            (known_of (view pass.old) lane ++ filled lane (visit_by _who content.stamp (E.entry _entry))
            (view pass.old) ∷ []) content }
        ensures pass { IsSamePass self.now pass.old pass.new }
        ensures seat { pass.new.seat.me ≡ (
          after lane (filled lane (visit_by _who content.stamp (E.entry _entry))
              (view pass.old)) (view pass.old),
          rest (slots pass.old),
        ) }
        ensures consistent { Consistent (view pass.new) }
    {
        let stamp = content.stamp;
        self.put_content(pass, lane, content);
        self.table
            .shared
            .store::<Put<N>>(&mut pass.seat, serving_word(lane), ticket + 1);
        pass.stamp = stamp;
    }

    /// Releases the lane with a visit at the held place. The visit's stamp is one above the greater of the pass's stamp
    /// and the lane's last stamp. This stamp becomes the pass's stamp and the lane's last stamp.
    pub fn put<E: Entry>(&self, pass: &mut Pass, held: Held, who: Who, entry: E) -> Mark
        requires pass { IsPassOf self.now pass.old }
        requires entry { CanPut self.now pass.old held (E.entry entry) }
        requires who { who.caller ≡ pass.old.caller }
        requires stamp { pass.old.stamp < 2 ^ 63 - 1 }
        ensures pass { IsSamePass self.now pass.old pass.new }
        ensures lane { index_of result.lane ≡ held.turn.lane }
        ensures place { result.place ≡ held.turn.place }
        ensures stamp { result.stamp ≡ max pass.old.stamp held.turn.stamp + 1 }
        ensures added { Added held.turn.lane (filled held.turn.lane (visit_by who result.stamp (E.entry entry))
            (view pass.old)) pass.old.seat.me pass.new.seat.me }
    {
        let Held { turn, state } = held;
        let TakenTurn {
            lane,
            ticket,
            place,
            stamp: last,
        } = turn;
        let stamp = pass.stamp.max(last) + 1;
        let content = Content {
            state,
            place: place + 1,
            stamp,
        };
        self.decide::<Brand, E>(pass, lane, ticket, content, who, entry);
        Mark {
            lane: lane_at(lane),
            place,
            stamp,
        }
    }

    /// Releases the lane without a visit. The lane's value must be unchanged since the take.
    pub fn back(&self, pass: &mut Pass, held: Held)
        requires pass { IsPassOf self.now pass.old }
        requires held { CanLeave self.now pass.old held }
        ensures pass { IsSamePass self.now pass.old pass.new }
        ensures left { Left held.turn.lane pass.old.seat.me pass.new.seat.me }
    {
        let Held { turn, state } = held;
        let TakenTurn {
            lane,
            ticket,
            place,
            stamp,
        } = turn;
        let content = Content {
            state,
            place,
            stamp,
        };
        self.leave(pass, lane, ticket, content);
    }
}
