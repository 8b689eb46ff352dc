//! Macros that take a lane's value as the value of the pool, of the base or of a CPU. A function that uses a macro
//! ensures by its contract that the value is of this kind.

/// Runs an expression with the value of the pool's lane.
macro_rules! with_pool {
    ($state:expr, $lane:ident => $does:expr) => {
        match $state {
            lane_table::LaneState::Pool($lane) => $does,
            _ => unreachable!(),
        }
    };
}

/// Runs an expression with the value of the base's lane.
macro_rules! with_base {
    ($state:expr, $lane:ident => $does:expr) => {
        match $state {
            lane_table::LaneState::Base($lane) => $does,
            _ => unreachable!(),
        }
    };
}

/// Runs an expression with the value of a CPU's lane.
macro_rules! with_cpu {
    ($state:expr, $lane:ident => $does:expr) => {
        match $state {
            lane_table::LaneState::Cpu($lane) => $does,
            _ => unreachable!(),
        }
    };
}

pub(crate) use with_base;
pub(crate) use with_cpu;
pub(crate) use with_pool;
