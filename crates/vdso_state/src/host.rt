//! The surroundings of a vgetrandom call: the published generation, the system call, and memory that may be wiped.

ghost use Rattle.std.specs.Prelude.{◌≡◌, ◌^◌, ◌<◌, ◌≤◌, ℕ, suc, Bool, length};
ghost use Rattle.key_names.specs.declared.point.Point.{Point};
ghost use Rattle.key_names.specs.Kernel.VgetrandomState.{state_left};
ghost use Rattle.key_names.specs.Kernel.Vgetrandom.{SystemAnswer};
ghost use Rattle.vdso_state.specs.Host.{IsAnswer};

use crate::state::VState;
use key_names::{Errno, Point};

/// The host of vgetrandom calls.
///
/// Three relations describe what a host publishes, answers and wipes. Each relates the host before a step, the input
/// and the result of the step, and the host after the step. A call needs a number of looks and of system calls;
/// `looks_left` and `calls_left` are the numbers that the host has left.
pub trait VHost {
    /// The host publishes a generation.
    ghost publishes: { Self → ℕ → Self → Type 0 };

    /// The host answers a system call for a number of bytes with some flags.
    ghost answers: { Self → ℕ → ℕ → SystemAnswer → Self → Type 0 };

    /// At a point the host wipes the state, or leaves it as it is.
    ghost passes: { Self → Point → Bool → Self → Type 0 };

    ghost looks_left: { Self → ℕ };

    ghost calls_left: { Self → ℕ };

    /// The least generation that the host may publish from now on.
    ghost floor: { Self → ℕ };

    /// The generation that the core publishes now: no lower than any before it, or 0 before the core is ready.
    fn published(&mut self) -> u64
        requires { 0 < looks_left self.old }
        ensures publishes { publishes self.old result self.new }
        ensures not_below { floor self.old ≤ result }
        ensures floor { result ≤ floor self.new }
        ensures looks { looks_left self.old ≡ suc (looks_left self.new) }
        ensures calls { calls_left self.new ≡ calls_left self.old };

    /// The system call getrandom(2). After an error the buffer is unspecified.
    fn getrandom(&mut self, buf: &mut [u8], flags: u32) -> Result<(), Errno>
        requires short { length buf.old ≤ 2 ^ 20 }
        requires calls { 0 < calls_left self.old }
        ensures answers { (answer : SystemAnswer) × IsAnswer answer result buf.new
            × answers self.old (length buf.old) flags answer self.new }
        ensures floor { floor self.old ≤ floor self.new }
        ensures looks { looks_left self.new ≡ looks_left self.old }
        ensures calls { calls_left self.old ≡ suc (calls_left self.new) };

    /// Called at a point of the call: the host may wipe the state's memory.
    fn at(&mut self, point: Point, st: &mut VState)
        ensures passes { (wiped : Bool) × (st.new ≡ state_left wiped st.old) × passes self.old point wiped self.new }
        ensures floor { floor self.old ≤ floor self.new }
        ensures looks { looks_left self.new ≡ looks_left self.old }
        ensures calls { calls_left self.new ≡ calls_left self.old };
}
