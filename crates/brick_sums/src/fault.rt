//! Why a list of sums is refused.

ghost use Rattle.brick_sums.specs.declared.fault.SumsFault.TheVariants.{Memory};
ghost use Rattle.std.specs.Prelude.{◌≡◌};

use std::alloc::{AllocError, AllocFailed};

/// Why a list of sums is refused.
#[derive(Clone, Copy, Debug, PartialEq, Eq, Drop)]
pub enum SumsFault {
    /// There are more sums than the caller allows.
    Limit,
    /// Memory ran out.
    Memory,
}

impl From<AllocError> for SumsFault {
    ghost from_gives = { λ _ fault. fault ≡ Memory };

    fn from(_error: AllocError) -> SumsFault {
        SumsFault::Memory
    }
}

impl<T: Drop> From<AllocFailed<T>> for SumsFault {
    ghost from_gives = { λ _ fault. fault ≡ Memory };

    fn from(_failed: AllocFailed<T>) -> SumsFault {
        SumsFault::Memory
    }
}
