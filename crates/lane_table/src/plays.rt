//! The rule of the table, and the contract of each kind of atomic step. These types are for the proofs alone.

use crate::slot::Slot;
use crate::view::{TableSize, View, Visit};
use atomic_table::{Join, Play, Split, TableRule};
use std::marker::{Brand, PhantomData};

/// The rule of all lanes' words, slots and passes.
pub struct World;

impl TableRule<Slot, View, TableSize> for World {
    ghost use Rattle.lane_table.specs.WorldRule.{WorldRule};
    ghost use Rattle.lane_table.specs.Steps.{first_view};

    ghost holds = { λ plan. WorldRule plan.first };

    ghost first = { first_view };
}

/// A type that determines the visit that a step makes.
pub trait Tells {
    ghost use Rattle.lane_table.specs.declared.view.Visit.{Visit};

    ghost visit: { Visit };
}

impl Tells for Brand {
    ghost use Rattle.lane_table.specs.Meaning.{no_visit};

    ghost visit = { no_visit };
}

/// A compare and exchange of the ticket word. It draws a ticket if the word is as expected.
pub struct DrawTicket;

impl Play<Slot, View> for DrawTicket {
    ghost use Rattle.lane_table.specs.Steps.{draws};

    ghost then = { draws };
}

/// As `DrawTicket`, but the pass also keeps the number that it found in the ticket word.
pub struct TryTicket;

impl Play<Slot, View> for TryTicket {
    ghost use Rattle.lane_table.specs.Steps.{tries};

    ghost then = { tries };
}

/// A load of the ticket word.
pub struct Find;

impl Play<Slot, View> for Find {
    ghost use Rattle.lane_table.specs.Steps.{finds};

    ghost then = { finds };
}

/// A load of the serving word by a pass without a ticket.
pub struct LoadServing;

impl Play<Slot, View> for LoadServing {
    ghost use Rattle.lane_table.specs.Steps.{loads};

    ghost then = { loads };
}

/// A load of the serving word by a waiting pass. If it finds the pass's ticket, the pass gets the slot.
pub struct Serve;

impl Play<Slot, View> for Serve {
    ghost use Rattle.lane_table.specs.Steps.{serves};

    ghost then = { serves };
}

/// The store of the serving word at a release with the visit that `N` describes. The slot goes back to the table.
pub struct Put<N> {
    marker: PhantomData<N>,
}

impl<N: Tells> Play<Slot, View> for Put<N> {
    ghost use Rattle.lane_table.specs.Steps.{puts};

    ghost then = { puts N.visit };
}

/// The store of the serving word at a release without a visit. The slot goes back to the table.
pub struct Leave;

impl Play<Slot, View> for Leave {
    ghost use Rattle.lane_table.specs.Steps.{leaves};

    ghost then = { leaves };
}

/// A load of the generation word.
pub struct Look;

impl Play<Slot, View> for Look {
    ghost use Rattle.lane_table.specs.Steps.{looks};

    ghost then = { looks };
}

/// A load that changes nothing.
pub struct Settle;

impl Play<Slot, View> for Settle {
    ghost use Rattle.lane_table.specs.Calls.{settles};

    ghost then = { settles };
}

/// The store of the generation word by a pass that raises the generation.
pub struct Raise;

impl Play<Slot, View> for Raise {
    ghost use Rattle.lane_table.specs.Steps.{raises_generation};

    ghost then = { raises_generation };
}

/// The split of a pass.
pub struct Halves;

impl Split<View> for Halves {
    ghost use Rattle.lane_table.specs.Steps.{halved, child};

    ghost left = { halved };

    ghost right = { child };
}

/// The join of another pass.
pub struct Merges;

impl Join<View> for Merges {
    ghost use Rattle.lane_table.specs.Steps.{both_of, nobody};

    ghost both = { both_of };

    ghost spent = { nobody };
}
