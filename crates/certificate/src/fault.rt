//! Why a certificate is refused.

ghost use Rattle.std.specs.Prelude.{◌≡◌};

use mat_files::{FaultKind, TokenFault};
use thiserror::Error;

/// What is wrong with the first token that is refused.
#[derive(Clone, Copy, Debug, PartialEq, Eq, Drop, Error)]
pub enum CertKind {
    /// A fixed word is wanted, and the token is another.
    #[error("another word is wanted")]
    Word,
    /// A number, a count or `none` is wanted, and the token is none that may stand there.
    #[error("no number")]
    NotNumber,
    /// The number passes the largest of its place.
    #[error("number too big")]
    TooBig,
    /// The tokens end before the word `end`.
    #[error("the text ends early")]
    EndsEarly,
    /// The token follows the word `end`.
    #[error("extra token")]
    Extra,
    /// There are more rows or columns than a matrix may have at this place.
    #[error("too many rows or columns")]
    TooMany,
    /// Memory ran out, which may happen at any call that allocates.
    #[error("out of memory")]
    Memory,
}

/// The fault of the first token that a certificate cannot have where it stands. `at` is the place of the token's
/// first byte in the text, from 0, or the length of the text where it ends early; of `Memory` it has no meaning.
#[derive(Clone, Copy, Debug, PartialEq, Eq, Drop, Error)]
#[error("the certificate is refused at byte {at}: {kind}")]
pub struct CertFault {
    pub at: usize,
    pub kind: CertKind,
}

impl From<TokenFault> for CertFault {
    ghost use Rattle.certificate.specs.CertificateText.{cert_fault};

    ghost from_gives = { λ f e. e ≡ cert_fault f };

    fn from(f: TokenFault) -> CertFault {
        let kind = match f.kind {
            FaultKind::Word => CertKind::Word,
            FaultKind::NotNumber | FaultKind::NoBound => CertKind::NotNumber,
            FaultKind::TooBig => CertKind::TooBig,
            FaultKind::TooMany | FaultKind::Size { .. } => CertKind::TooMany,
            FaultKind::EndsEarly => CertKind::EndsEarly,
            FaultKind::Extra => CertKind::Extra,
            FaultKind::Memory => CertKind::Memory,
        };
        CertFault { at: f.at, kind }
    }
}
