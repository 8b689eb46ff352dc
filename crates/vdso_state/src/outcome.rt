//! How calls on a state end.

/// The result of [`local`](crate::local).
#[derive(Clone, Copy, Debug, PartialEq, Eq)]
pub enum Local {
    /// Nothing was copied: only [`vgetrandom`](crate::vgetrandom) can serve.
    NeedsSystem,
    /// The bytes were copied.
    Served,
}

/// How a call of [`vgetrandom`](crate::vgetrandom) ended.
#[derive(Clone, Copy, Debug, PartialEq, Eq)]
pub enum VEnd {
    /// The call asked for no bytes.
    Zero,
    /// The bytes came from the state.
    Batch,
    /// The system call wrote the bytes.
    System,
}
