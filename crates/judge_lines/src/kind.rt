//! The kinds of the steps in a line.

/// The kind of a step: whether it is a look or a visit, and what is visible of the step. A row is a list of kinds that
/// the steps of a line can have.
#[derive(Clone, Copy, Debug, PartialEq, Eq)]
pub enum Kind {
    /// A look that found generation 0: the core was not ready.
    Unready,
    /// A look that found a generation above 0: the core was ready.
    Ready,
    /// A visit of the pool.
    Pool,
    /// A visit of the base.
    Base,
    /// A visit of the base that ended a wait because the core was ready.
    Resumed,
    /// A visit of the line's CPU: the CPU that the event names, or else the caller's CPU.
    Cpu,
    /// A visit of another CPU, or a visit that is in no list.
    OtherCpu,
}
