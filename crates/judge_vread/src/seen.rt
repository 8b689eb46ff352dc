//! Seen steps: what is kept of a line's steps to make the line's bytes.
ghost use Rattle.std.specs.Prelude.{◌≡◌};
ghost use Rattle.judge_vread.specs.Seen.{rises};

/// A seen step: its kind, and the generation that a look found. A visit that may serve bytes also has the key in use
/// before the visit erases it.
#[derive(Clone, Copy, Debug, PartialEq, Eq)]
pub enum SeenStep {
    /// A look that found generation 0: the core was not ready.
    Unready,
    /// A look that found this generation, 1 or more.
    Ready(u64),
    /// A visit of the pool.
    Pool,
    /// A visit of the base with this key in use.
    Base([u8; 32]),
    /// A visit of the base that ended a wait because the core was ready.
    Resumed,
    /// A visit of the caller's CPU with this key in use.
    Cpu([u8; 32]),
    /// A visit of another CPU, or a visit that is in no list.
    Elsewhere,
}

/// Whether the found generations never fall from one look to the next.
pub(crate) fn rises(seen: &[SeenStep]) -> bool
    ensures { result ≡ rises 0 seen.now }
{
    let mut last = 0;
    for step in seen {
        match step {
            SeenStep::Unready => {
                if last != 0 {
                    return false;
                }
            }
            SeenStep::Ready(found) => {
                if *found < last {
                    return false;
                }
                last = *found;
            }
            _ => {}
        }
    }
    true
}
