//! The events of a round: one atomic step of one worker each.

use thiserror::Error;

/// A step of a worker. Workers and lengths count from 0; `expected` is 0, or a length plus 1.
#[derive(Clone, Copy, Debug, PartialEq, Eq, Drop)]
pub enum Event {
    /// The worker takes the next length, or finds that none is left.
    Claim {
        worker: u32,
    },
    /// The worker stores the high half of the gain of a length that it owns.
    StoreHigh {
        worker: u32,
        length: u32,
    },
    /// The worker stores the low half.
    StoreLow {
        worker: u32,
        length: u32,
    },
    /// The worker reads which length is the best; where that beats the length named by `settles`, or this has no
    /// gain, the length is beaten.
    LoadBest {
        worker: u32,
        settles: Option<u32>,
    },
    /// The worker reads the high half of the gain of the length that it saw as the best.
    LoadHigh {
        worker: u32,
        length: u32,
    },
    /// The worker reads the low half.
    LoadLow {
        worker: u32,
        length: u32,
    },
    /// The worker offers a length as the best, in place of the one that it saw.
    Exchange {
        worker: u32,
        expected: u32,
        length: u32,
    },
    /// The worker splits off a fresh one, which knows what it knows.
    SplitSeat {
        worker: u32,
        fresh: u32,
    },
    /// The worker takes over what another one knows and owns.
    JoinSeat {
        worker: u32,
        from: u32,
    },
}

/// An event that may not come in the state that the round is in.
#[derive(Clone, Copy, Debug, PartialEq, Eq, Drop, Error)]
#[error("not allowed: {event:?}")]
pub struct NotAllowed {
    pub event: Event,
}
