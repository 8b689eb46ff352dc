//! The slot of a lane.
ghost use Rattle.std.specs.Prelude.{◌≡◌};

use crate::view::Content;
use crossbeam_utils::CachePadded;
use std::marker::Model;
use std::mem;

/// The slot of a lane, alone on its cache lines, so that callers on neighbouring CPUs do not fetch each other's
/// slots. In contracts a slot is its content, or `None` while a pass has the content.
#[derive(Drop)]
pub struct Slot {
    padded: CachePadded<Option<Content>>,
}

impl Model for Slot {
    ghost use Rattle.std.specs.Prelude.{Option};
    ghost use Rattle.crossbeam_utils.specs.Padded.{padded_value};
    ghost use Rattle.lane_table.specs.declared.view.Content.{Content};

    ghost Value = { Option Content };

    ghost view = { λ s. padded_value s.padded };
}

impl Slot {
    pub(crate) fn of(content: Option<Content>) -> Slot
        ensures { result ≡ content }
    {
        Slot {
            padded: CachePadded::new(content),
        }
    }

    pub(crate) fn into_content(self) -> Option<Content>
        ensures { result ≡ self }
    {
        self.padded.into_inner()
    }

    /// Puts this content into the slot, and returns the old one. A move of the whole slot would also write the unused
    /// bytes around the content.
    pub(crate) fn replace(&mut self, content: Option<Content>) -> Option<Content>
        ensures before { result ≡ self.old }
        ensures now { self.new ≡ content }
    {
        mem::replace(&mut *self.padded, content)
    }
}
