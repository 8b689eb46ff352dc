//! A sink in memory.
ghost use Rattle.std.specs.Prelude.{◌≡◌, [], Some};

use io_edges::{Failed, Sink};
use std::alloc::Global;

/// A sink that keeps the bytes put into it. A put fails if there is no memory for its bytes.
#[derive(Drop)]
pub(crate) struct Written {
    pub bytes: Vec<u8>,
    faults: u64,
}

impl Written {
    pub(crate) fn new(alloc: Global) -> Written
        ensures { result.bytes.items ≡ [] }
    {
        Written {
            bytes: Vec::new(alloc),
            faults: 0,
        }
    }
}

impl Sink for Written {
    ghost held = { λ s. Some s.bytes.items };

    ghost kept_back = { λ _. [] };

    ghost faults = { λ s. s.faults };

    fn put(&mut self, piece: &[u8]) -> Result<usize, Failed> {
        match self.bytes.extend_from_slice(piece) {
            Ok(()) => Ok(piece.len()),
            Err(_) => {
                self.faults = self.faults.saturating_add(1);
                Err(Failed)
            }
        }
    }

    fn flush(&mut self) -> Result<(), Failed> {
        Ok(())
    }
}
