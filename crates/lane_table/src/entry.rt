//! The values that represent an entry of some lane.

use key_names::{BaseEntry, CpuEntry, PoolNote};

/// A value that represents one entry.
pub trait Entry: Drop {
    ghost use Rattle.lane_table.specs.declared.view.LaneEntry.{LaneEntry};

    ghost entry: { Self → LaneEntry };
}

impl Entry for PoolNote<'_> {
    ghost use Rattle.key_names.specs.Lanes.PoolNotes.{entry_of};
    ghost use Rattle.lane_table.specs.declared.view.LaneEntry.TheVariants.{Pool};

    ghost entry = { λ note. Pool (entry_of note) };
}

impl Entry for BaseEntry {
    ghost use Rattle.lane_table.specs.declared.view.LaneEntry.TheVariants.{Base};

    ghost entry = { Base };
}

impl Entry for CpuEntry {
    ghost use Rattle.lane_table.specs.declared.view.LaneEntry.TheVariants.{Cpu};

    ghost entry = { Cpu };
}
