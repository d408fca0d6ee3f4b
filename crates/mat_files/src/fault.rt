//! Why a text, and why a matrix file, is refused.

ghost use Rattle.std.specs.Prelude.{◌≡◌};
ghost use Rattle.mat_files.specs.declared.fault.MatFault.TheVariants.{Memory};

use std::alloc::{AllocError, AllocFailed};
use thiserror::Error;

/// What is wrong with the first token that is refused.
#[derive(Clone, Copy, Debug, PartialEq, Eq, Drop, Error)]
pub enum FaultKind {
    /// A fixed word is wanted, and the token is another.
    #[error("another word is wanted")]
    Word,
    /// A number or a count is wanted, and the token is none.
    #[error("no number")]
    NotNumber,
    /// A number is wanted, and the token is `*`, which stands for no bound.
    #[error("no bound")]
    NoBound,
    /// The number passes the largest of its place in absolute value.
    #[error("number too big")]
    TooBig,
    /// The count passes the largest number of things of its kind.
    #[error("too many")]
    TooMany,
    /// The number is not within `from` and `to`.
    #[error("{got} is not within {from} and {to}")]
    Size { got: i64, from: u32, to: u32 },
    /// The text ends where one more token is wanted.
    #[error("the text ends early")]
    EndsEarly,
    /// The token follows the last one that may stand there.
    #[error("extra token")]
    Extra,
    /// Memory ran out, which may happen at any call that allocates.
    #[error("out of memory")]
    Memory,
}

/// The fault of the first token that a text cannot have where it stands. `at` is the place of the token's first byte
/// in the text, from 0, or the length of the text where it ends early; of `Memory` it has no meaning.
#[derive(Clone, Copy, Debug, PartialEq, Eq, Drop, Error)]
#[error("the text is refused at byte {at}: {kind}")]
pub struct TokenFault {
    pub at: usize,
    pub kind: FaultKind,
}

impl TokenFault {
    /// The fault of the token that begins at `at`.
    pub fn new(at: usize, kind: FaultKind) -> TokenFault
        ensures { result ≡ record { at = at; kind = kind } }
    {
        TokenFault { at, kind }
    }
}

impl From<AllocError> for TokenFault {
    ghost use Rattle.mat_files.specs.declared.fault.FaultKind.TheVariants as kind;

    ghost from_gives = { λ _ f. f.kind ≡ kind.Memory };

    fn from(_e: AllocError) -> TokenFault {
        TokenFault::new(0, FaultKind::Memory)
    }
}

impl<T: Drop> From<AllocFailed<T>> for TokenFault {
    ghost use Rattle.mat_files.specs.declared.fault.FaultKind.TheVariants as kind;

    ghost from_gives = { λ _ f. f.kind ≡ kind.Memory };

    fn from(_e: AllocFailed<T>) -> TokenFault {
        TokenFault::new(0, FaultKind::Memory)
    }
}

/// The fault of the first token that a matrix file cannot have where it stands. `at` is the place of the
/// token's first byte in the file, from 0.
#[derive(Clone, Copy, Debug, PartialEq, Eq, Drop, Error)]
pub enum MatFault {
    /// The token is neither a number nor `*`.
    #[error("no number at byte {at}")]
    NotNumber {
        at: usize,
    },
    /// The token is `*`, which stands for no bound.
    #[error("no bound at byte {at}")]
    NoBound {
        at: usize,
    },
    /// The number passes the largest absolute value of an entry, or `2^62` where it is one of the first two.
    #[error("number too big at byte {at}")]
    TooBig {
        at: usize,
    },
    /// The tokens end before the last entry. `at` is the length of the file.
    #[error("the file ends early at byte {at}")]
    EndsEarly {
        at: usize,
    },
    /// The token follows the last entry.
    #[error("extra token at byte {at}")]
    Extra {
        at: usize,
    },
    /// The number of rows, or else of columns, is not within `from` and `to`.
    #[error("size {got} at byte {at} is not within {from} and {to}")]
    Shape {
        at: usize,
        got: i64,
        from: u32,
        to: u32,
    },
    /// Memory ran out.
    #[error("out of memory")]
    Memory,
}

impl From<AllocError> for MatFault {
    ghost from_gives = { λ _ e. e ≡ Memory };

    fn from(_e: AllocError) -> MatFault {
        MatFault::Memory
    }
}

impl<T: Drop> From<AllocFailed<T>> for MatFault {
    ghost from_gives = { λ _ e. e ≡ Memory };

    fn from(_e: AllocFailed<T>) -> MatFault {
        MatFault::Memory
    }
}

impl From<TokenFault> for MatFault {
    ghost use Rattle.mat_files.specs.MatrixText.{mat_fault};

    ghost from_gives = { λ f e. e ≡ mat_fault f };

    fn from(f: TokenFault) -> MatFault {
        let at = f.at;
        match f.kind {
            FaultKind::Word | FaultKind::NotNumber => MatFault::NotNumber { at },
            FaultKind::NoBound => MatFault::NoBound { at },
            FaultKind::TooBig | FaultKind::TooMany => MatFault::TooBig { at },
            FaultKind::Size { got, from, to } => MatFault::Shape { at, got, from, to },
            FaultKind::EndsEarly => MatFault::EndsEarly { at },
            FaultKind::Extra => MatFault::Extra { at },
            FaultKind::Memory => MatFault::Memory,
        }
    }
}
