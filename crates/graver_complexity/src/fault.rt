//! Why there is no link matrix.

ghost use Rattle.std.specs.Prelude.{◌≡◌};
ghost use Rattle.graver_complexity.specs.declared.fault.LinkFault.TheVariants.{Memory};

use std::alloc::{AllocError, AllocFailed};
use thiserror::Error;

/// Why a link matrix is refused. Rows and columns are numbered from 1.
#[derive(Clone, Copy, Debug, PartialEq, Eq, Drop, Error)]
pub enum LinkFault {
    /// The first entry, row by row, that is past `2^31 - 1` in absolute value.
    #[error("the entry of the link matrix in row {row} and column {col} is too large")]
    WideEntry { row: u32, col: u32 },
    /// Memory ran out.
    #[error("out of memory")]
    Memory,
}

impl From<AllocError> for LinkFault {
    ghost from_gives = { λ _ fault. fault ≡ Memory };

    fn from(_error: AllocError) -> LinkFault {
        LinkFault::Memory
    }
}

impl<T: Drop> From<AllocFailed<T>> for LinkFault {
    ghost from_gives = { λ _ fault. fault ≡ Memory };

    fn from(_error: AllocFailed<T>) -> LinkFault {
        LinkFault::Memory
    }
}
