//! The values that all callers of a run share.

use crate::forking::children::Children;
use event_script::Script;
use lane_table::Lanes;

/// The values that all callers of a run share: the handles, the table, the script, the gate that is called before each
/// event, and where children run.
#[derive(Drop)]
pub struct Shared<'a, R, G> {
    pub rt: &'a R,
    pub lanes: &'a Lanes,
    pub script: &'a Script,
    pub gate: &'a G,
    pub children: Children,
}
