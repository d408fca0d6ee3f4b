//! A sink in memory that never fails.

ghost use Rattle.std.specs.Prelude.{◌≡◌, Some, []};

use crate::sink::{Sink, SinkFault};
use std::alloc::Global;

/// A sink in memory that tells what it took and whose count of faults is 0 always.
#[derive(Debug, Drop)]
pub struct SteadySink {
    bytes: Vec<u8>,
}

impl SteadySink {
    /// A sink that has taken nothing yet. Nothing is allocated.
    pub fn new(alloc: Global) -> SteadySink
        ensures { ⟦<SteadySink as Sink>⟧.seen result ≡ record { taken = Some []; faults = 0 } }
    {
        SteadySink {
            bytes: Vec::new(alloc),
        }
    }

    /// The bytes taken so far.
    pub fn bytes(&self) -> &[u8]
        ensures { (⟦<SteadySink as Sink>⟧.seen self.now).taken ≡ Some result.now }
    {
        &self.bytes
    }
}

impl Sink for SteadySink {
    ghost use Rattle.std.specs.Prelude.{Some};

    ghost seen = { λ s. record { taken = Some s.bytes.items; faults = 0 } };

    fn write(&mut self, piece: &[u8]) -> Result<usize, SinkFault> {
        self.bytes.extend_from_slice(piece)?;
        Ok(piece.len())
    }
}
