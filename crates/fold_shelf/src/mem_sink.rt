//! A sink in memory that fails at chosen writes.

ghost use Rattle.std.specs.Prelude.{◌≡◌, ◌≤◌, Some, []};

use crate::schedule::Schedule;
use crate::sink::{Sink, SinkFault};
use std::alloc::Global;

/// A sink in memory that tells what it took. Its writes are numbered from 1: each whose number is in `fail`
/// answers `Failed`, and no write takes more than `most` bytes.
#[derive(Debug, Drop)]
pub struct MemSink {
    bytes: Vec<u8>,
    schedule: Schedule,
    faults: u64,
}

impl MemSink {
    /// A sink that has taken nothing yet. Nothing is allocated.
    pub fn new(alloc: Global, fail: Vec<u64>, most: usize) -> MemSink
        requires { 1 ≤ most }
        ensures { ⟦<MemSink as Sink>⟧.seen result ≡ record { taken = Some []; faults = 0 } }
    {
        MemSink {
            bytes: Vec::new(alloc),
            schedule: Schedule::new(fail, most),
            faults: 0,
        }
    }

    /// The bytes taken so far.
    pub fn bytes(&self) -> &[u8]
        ensures { (⟦<MemSink as Sink>⟧.seen self.now).taken ≡ Some result.now }
    {
        &self.bytes
    }
}

impl Sink for MemSink {
    ghost use Rattle.std.specs.Prelude.{Some};

    ghost seen = { λ s. record { taken = Some s.bytes.items; faults = s.faults } };

    fn write(&mut self, piece: &[u8]) -> Result<usize, SinkFault> {
        if self.schedule.next_fails() {
            self.faults = self.faults.saturating_add(1);
            return Err(SinkFault::Failed);
        }
        let count = self.schedule.moved(piece.len());
        self.bytes.extend_from_slice(&piece[..count])?;
        Ok(count)
    }
}

#[cfg(test)]
mod tests {
    use super::*;
    use std::test::Fail;

    #[test]
    fn each_write_of_the_list_fails(rt: HostRuntime) -> Result<(), Fail> {
        let alloc = rt.alloc();
        let mut sink = MemSink::new(alloc, [1, 3].to_vec(alloc)?, 2);
        let failed = Err(SinkFault::Failed);
        for (piece, took) in [(b"abc", failed), (b"def", Ok(2)), (b"ghi", failed)] {
            assert_eq!(rt; sink.write(piece), took);
        }
        assert_eq!(rt; sink.bytes(), b"de".as_slice());
        Ok(())
    }
}
