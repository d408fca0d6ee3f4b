//! Why there is no slack basis within the limits.

ghost use Rattle.std.specs.Prelude.{◌≡◌};
ghost use Rattle.pottier.specs.declared.fault.BasisFault.TheVariants.{Memory};

use std::alloc::{AllocError, AllocFailed};
use thiserror::Error;

/// Why a slack basis is refused.
#[derive(Clone, Copy, Debug, PartialEq, Eq, Drop, Error)]
pub enum BasisFault {
    /// The basis has more elements than the limit, or one with an entry past `2^31 - 1` in absolute value.
    #[error("the basis is past a limit")]
    Limit,
    /// Memory ran out.
    #[error("out of memory")]
    Memory,
}

impl From<AllocError> for BasisFault {
    ghost from_gives = { λ _ fault. fault ≡ Memory };

    fn from(_error: AllocError) -> BasisFault {
        BasisFault::Memory
    }
}

impl<T: Drop> From<AllocFailed<T>> for BasisFault {
    ghost from_gives = { λ _ fault. fault ≡ Memory };

    fn from(_error: AllocFailed<T>) -> BasisFault {
        BasisFault::Memory
    }
}
