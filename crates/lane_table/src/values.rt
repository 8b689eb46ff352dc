//! The values that the lanes' locks guard.
ghost use Rattle.std.specs.Prelude.{◌≡◌, IfOk};

use base_gen::Base;
use cpu_gen::Cpu;
use input_pool::Pool;
use int_batch::Batch;
use sample_credit::{FastPool, InputTimer};
use std::alloc::{AllocError, Global};
use std::marker::Model;

/// The input pool, and the timer that credits input events.
#[derive(Drop)]
pub struct PoolLane {
    pub pool: Pool,
    pub timer: InputTimer,
}

/// The base (`base_crng`), as `base_gen` defines it.
#[derive(Drop)]
pub struct BaseLane {
    pub base: Base,
}

/// One CPU: its generator, a batch for each width of integers, and the samples of its interrupts.
#[derive(Drop)]
pub struct CpuLane {
    pub cpu: Cpu,
    pub b8: Batch<1>,
    pub b16: Batch<2>,
    pub b32: Batch<4>,
    pub b64: Batch<8>,
    pub fast: FastPool,
}

/// The value of a lane. A lane never changes its kind.
#[derive(Drop)]
pub enum LaneState {
    Pool(PoolLane),
    Base(BaseLane),
    Cpu(CpuLane),
}

/// A lane's value in a box, so that `take` and `put` move a pointer instead of the value. In contracts a box is its
/// value.
#[derive(Drop)]
pub struct Boxed {
    inner: Box<LaneState>,
}

impl Model for Boxed {
    ghost use Rattle.lane_table.specs.declared.values.LaneState.{LaneState};

    ghost Value = { LaneState };

    ghost view = { λ b. b.inner.value };
}

impl Boxed {
    ghost use Rattle.lane_table.specs.LendingBoxed.{LendsBoxed};
    ghost use Rattle.std.specs.Borrow.{sem};

    pub(crate) fn new(alloc: Global, state: LaneState) -> Result<Boxed, AllocError>
        ensures { IfOk result (λ b. b ≡ state) }
    {
        let inner = Box::new(alloc, state)?;
        Ok(Boxed { inner })
    }

    pub(crate) fn get(&self) -> &LaneState
        ensures { result.now ≡ self.now }
    {
        &self.inner
    }

    pub(crate) fn get_mut(&mut self) -> &mut LaneState
        ensures* writes_back { sem 𝓛 (LendsBoxed self.entry result) }
        ensures value { result.now ≡ self.old }
    {
        &mut self.inner
    }
}
