//! The state of a caller between its calls.
use crate::Lists;
use crate::met::LineSpace;
use crate::notes::Notes;
use crate::said::Note;
use crate::states::ReplayedStates;

/// How far the code is with a caller's calls: the replayed lists, the caller's vgetrandom states, memory for the steps
/// of a line, and the notes of the caller's lines.
#[derive(Drop)]
pub struct CallerWalk<'a, N: Note> {
    pub lists: &'a Lists,
    pub states: ReplayedStates,
    pub room: LineSpace,
    pub notes: Notes<'a, N>,
}
