//! A real writer as a sink.

ghost use Rattle.std.specs.Prelude.{◌≡◌, None};

use crate::sink::{Sink, SinkFault};
use std::io::Write;

/// A writer as a sink. It tells no content, and counts each error of the writer, and each write that takes
/// nothing of a piece that is not empty.
#[derive(Drop)]
pub struct StreamSink<W: Write> {
    writer: W,
    faults: u64,
}

impl<W: Write> StreamSink<W> {
    /// The writer, at which nothing has failed yet.
    pub fn new(writer: W) -> StreamSink<W>
        ensures { ⟦<StreamSink<W> as Sink>⟧.seen result ≡ record { taken = None; faults = 0 } }
    {
        StreamSink { writer, faults: 0 }
    }
}

impl<W: Write> Sink for StreamSink<W> {
    ghost use Rattle.std.specs.Prelude.{None};

    ghost seen = { λ s. record { taken = None; faults = s.faults } };

    fn write(&mut self, piece: &[u8]) -> Result<usize, SinkFault> {
        match self.writer.write(piece) {
            Ok(count) if count > 0 || piece.is_empty() => Ok(count),
            _ => {
                self.faults = self.faults.saturating_add(1);
                Err(SinkFault::Failed)
            }
        }
    }
}

#[cfg(test)]
mod tests {
    use super::*;
    use crate::put;
    use std::alloc::Global;
    use std::io;
    use std::test::Fail;

    const TEXT: &[u8] = b"a text that takes a few writes";

    /// Takes at most so many bytes at a call, or fails.
    #[derive(Drop)]
    struct Slow {
        written: Vec<u8>,
        most: Option<usize>,
    }

    impl Slow {
        fn new(alloc: Global, most: Option<usize>) -> Slow {
            Slow {
                written: Vec::new(alloc),
                most,
            }
        }
    }

    impl Write for Slow {
        fn write(&mut self, piece: &[u8]) -> io::Result<usize> {
            let Some(most) = self.most else {
                return Err(io::Error::from(io::ErrorKind::InvalidInput));
            };
            let count = piece.len().min(most);
            self.written.extend_from_slice(&piece[..count])?;
            Ok(count)
        }

        fn flush(&mut self) -> io::Result<()> {
            Ok(())
        }
    }

    #[test]
    fn a_writer_of_a_few_bytes_a_call_gets_all(rt: HostRuntime) -> Result<(), Fail> {
        let mut writer = Slow::new(rt.alloc(), Some(7));
        put(&mut StreamSink::new(&mut writer), TEXT)?;
        assert_eq!(rt; writer.written.as_slice(), TEXT);
        Ok(())
    }

    #[test]
    fn a_writer_that_takes_nothing_or_fails_is_a_fault(rt: HostRuntime) {
        for most in [Some(0), None] {
            let mut writer = Slow::new(rt.alloc(), most);
            let put = put(&mut StreamSink::new(&mut writer), TEXT);
            assert_eq!(rt; put, Err(SinkFault::Failed));
        }
    }
}
