//! What takes bytes, and how a whole text is given to it.

ghost use Rattle.std.specs.Prelude.{◌≡◌, ◌≤◌, IfOk, IfErr, OnOk, OnErr, take};
ghost use Rattle.fold_shelf.specs.Outside.{Stream, ForBoth, TakesSome, Took, TookPart, IsSinkCause};

use std::alloc::AllocError;

/// Why a sink refuses a write.
#[derive(Clone, Copy, Debug, PartialEq, Eq, Drop)]
pub enum SinkFault {
    /// Something went wrong outside, and the sink has counted it.
    Failed,
    /// Memory ran out, which may happen at any call that allocates.
    Memory,
}

impl From<AllocError> for SinkFault {
    ghost use Rattle.std.specs.Prelude.{◌≡◌};
    ghost use Rattle.fold_shelf.specs.declared.sink.SinkFault.TheVariants.{Memory};

    ghost from_gives = { λ _ fault. fault ≡ Memory };

    fn from(_: AllocError) -> SinkFault {
        SinkFault::Memory
    }
}

/// What takes bytes. A write that fails has raised the count of faults, which never falls; the bytes taken are
/// then as before.
pub trait Sink {
    /// The bytes taken so far, where the sink tells them, and how often a write has failed. No call changes whether
    /// the bytes are told.
    ghost seen: { Self → Stream };

    /// Takes the first bytes of `piece` and says how many: at least one where it is not empty.
    fn write(&mut self, piece: &[u8]) -> Result<usize, SinkFault>
        ensures some { IfOk result (TakesSome piece.now) }
        ensures took { IfOk result (λ n. ForBoth (seen self.old).taken (seen self.new).taken (Took
            (take n piece.now))) }
        ensures kept { OnErr result ((seen self.new).taken ≡ (seen self.old).taken) }
        ensures cause { IfErr result (IsSinkCause (seen self.old) (seen self.new)) }
        ensures later { (seen self.old).faults ≤ (seen self.new).faults };
}

/// Gives all of `bytes` to the sink. After a fault it has taken a first part of them.
pub fn put<K: Sink>(sink: &mut K, bytes: &[u8]) -> Result<(), SinkFault>
    ensures took { OnOk result (ForBoth (K.seen sink.old).taken (K.seen sink.new).taken (Took bytes.now)) }
    ensures part { OnErr result (ForBoth (K.seen sink.old).taken (K.seen sink.new).taken (TookPart bytes.now)) }
    ensures cause { IfErr result (IsSinkCause (K.seen sink.old) (K.seen sink.new)) }
    ensures later { (K.seen sink.old).faults ≤ (K.seen sink.new).faults }
{
    let mut rest = bytes;
    while !rest.is_empty() {
        let count = sink.write(rest)?;
        rest = &rest[count..];
    }
    Ok(())
}

#[cfg(test)]
mod tests {
    use super::*;
    use crate::{MemSink, SteadySink, StreamSink};
    use std::test::Fail;

    const TEXT: &[u8] = b"a text that takes three writes of 16";

    #[test]
    fn a_text_is_put_whole(rt: HostRuntime) -> Result<(), Fail> {
        let alloc = rt.alloc();
        let mut steady = SteadySink::new(alloc);
        put(&mut steady, TEXT)?;
        assert_eq!(rt; steady.bytes(), TEXT);
        let mut slow = MemSink::new(alloc, Vec::new(alloc), 16);
        put(&mut slow, TEXT)?;
        assert_eq!(rt; slow.bytes(), TEXT);
        let mut written = Vec::new(alloc);
        put(&mut StreamSink::new(&mut written), TEXT)?;
        assert_eq!(rt; written.as_slice(), TEXT);
        Ok(())
    }

    #[test]
    fn a_failed_write_leaves_the_first_part(rt: HostRuntime) -> Result<(), Fail> {
        let alloc = rt.alloc();
        let mut sink = MemSink::new(alloc, [2].to_vec(alloc)?, 16);
        assert_eq!(rt; put(&mut sink, TEXT), Err(SinkFault::Failed));
        assert_eq!(rt; sink.bytes(), b"a text that take".as_slice());
        Ok(())
    }
}
