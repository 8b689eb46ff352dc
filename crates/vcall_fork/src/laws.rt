//! The laws of forks inside vgetrandom calls, each as the contract of a function without code.
ghost use Rattle.vcall_fork.specs.Forks.{ForksAreRecorded, ChildTakesKey, ForksShareNothing};

/// A fork at a point does not change the parent's call. The child's call has the parent's steps before the point, a
/// wipe at the point, and the child's own steps after the point.
pub fn forks_are_recorded()
    ensures { ForksAreRecorded }
{}

/// If a child gives out bytes of its state, the child read a key after the fork, in the attempt that gave the bytes.
pub fn child_takes_key()
    ensures { ChildTakesKey }
{}

/// In a lawful book the vgetrandom states of two callers never use the same byte of a key's keystream. A parent and its
/// child are two callers.
pub fn forks_share_nothing()
    ensures { ForksShareNothing }
{}
