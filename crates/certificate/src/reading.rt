//! Reading certificates.

mod fold;

ghost use Rattle.std.specs.Prelude.{◌≡◌, ◌≤◌, ◌^◌, Ok, MatchResult, IfOk, All, length, unsigned_abs};
ghost use Rattle.mat_files.specs.Reading.{Gives, IsTokenFault, only};
ghost use Rattle.certificate.specs.CertificateText.{next_size, next_part, next_head, next_claim, fold_after};
ghost use Rattle.certificate.specs.CertificateText.{next_certificate, parsed_certificate, IsCertFault};
ghost use Rattle.certificate.specs.Readable.{IsNumbered, FitsClaim};

use crate::certificate::Certificate;
use crate::fault::CertFault;
use crate::fold_part::FoldPart;
use mat_files::{FaultKind, Matrix, Scanner, TokenFault};
use run_theory::Claim;
use std::alloc::Global;

/// The most rows and columns of a matrix, and the largest absolute value of an entry.
struct Limits {
    rows: u32,
    cols: u32,
    largest: u64,
}

const POINT: Limits = Limits {
    rows: 10_000,
    cols: 32,
    largest: 1 << 62,
};

const BRICKS: Limits = Limits {
    rows: 2_000,
    cols: 48,
    largest: (1 << 31) - 1,
};

/// The certificate that a text holds: tokens with white space between them, and nothing else.
///
/// They are the words `nfold-certificate` and `1`; the word `claim` and the claim, which is `optimal`,
/// `infeasible-link`, or `infeasible-brick` and the brick's number, of at most 10,000; the word `point` and a matrix;
/// the word `bricks` and a matrix; for a claim on all bricks the word `links` and a matrix, the word `bound` and a
/// count, the word `sums` and a matrix whose rows begin with a count, and the word `potentials` and a table whose
/// entries are numbers or `none`; and the word `end`. A matrix or a table is its numbers of rows and columns and then
/// its entries, row by row. The limits on sizes and entries are those of `Certificate` and `FoldPart`, whatever the
/// program is.
///
/// The answer is the fault of the first token that is refused, in the order of the text, or `Memory`. No memory is
/// asked for before there are entries to keep in it.
pub fn parse(alloc: Global, bytes: &[u8]) -> Result<Certificate, CertFault>
    ensures { MatchResult result (λ c. parsed_certificate bytes.now ≡ Ok c)
        (IsCertFault (parsed_certificate bytes.now)) }
{
    Ok(certificate(alloc, bytes)?)
}

/// The certificate that is all that the bytes spell.
fn certificate(alloc: Global, bytes: &[u8]) -> Result<Certificate, TokenFault>
    ensures { MatchResult result (λ c. only next_certificate bytes.now ≡ Ok c)
        (IsTokenFault (only next_certificate bytes.now)) }
{
    let mut tokens = Scanner::new(bytes);
    head(&mut tokens)?;
    let claim = claim(&mut tokens)?;
    let point = part(alloc, &mut tokens, b"point", &POINT)?;
    let bricks = part(alloc, &mut tokens, b"bricks", &BRICKS)?;
    let fold = fold_after(alloc, &mut tokens, claim)?;
    tokens.word(b"end")?;
    tokens.end()?;
    Ok(Certificate::new(claim, point, bricks, fold))
}

/// The words of the first line, and the word before the claim.
fn head(tokens: &mut Scanner<'_>) -> Result<(), TokenFault>
    ensures { Gives (next_head tokens.old) result tokens.new }
{
    tokens.word(b"nfold-certificate")?;
    tokens.word(b"1")?;
    tokens.word(b"claim")
}

/// The claim: its word, and the number of the brick where it is on one.
fn claim(tokens: &mut Scanner<'_>) -> Result<Claim, TokenFault>
    ensures claim { Gives (next_claim tokens.old) result tokens.new }
    ensures number { IfOk result IsNumbered }
{
    let token = tokens.token()?;
    if token.text == b"optimal".as_slice() {
        return Ok(Claim::Optimal);
    }
    if token.text == b"infeasible-link".as_slice() {
        return Ok(Claim::InfeasibleLink);
    }
    if token.text == b"infeasible-brick".as_slice() {
        let brick = tokens.count(0, 10_000, FaultKind::TooBig)? as u32;
        return Ok(Claim::InfeasibleBrick { brick });
    }
    Err(TokenFault::new(token.at, FaultKind::Word))
}

/// This word, and the matrix after it.
fn part(
    alloc: Global,
    tokens: &mut Scanner<'_>,
    word: &[u8],
    limits: &Limits,
) -> Result<Matrix, TokenFault>
    requires { limits.now.largest ≤ 2 ^ 62 }
    ensures read { MatchResult result
        (λ m. next_part word.now limits.now.rows limits.now.cols limits.now.largest tokens.old ≡ Ok (m, tokens.new))
        (IsTokenFault (next_part word.now limits.now.rows limits.now.cols limits.now.largest tokens.old)) }
    ensures rows { IfOk result (λ m. length m.rows ≤ limits.now.rows) }
    ensures cols { IfOk result (λ m. m.cols ≤ limits.now.cols) }
    ensures entries { IfOk result (λ m. All (λ row. All (λ a. unsigned_abs a ≤ limits.now.largest) row) m.rows) }
{
    tokens.word(word)?;
    let rows = size(tokens, limits.rows)?;
    let cols = size(tokens, limits.cols)?;
    tokens.matrix(alloc, rows, cols, limits.largest)
}

/// The next number of rows or columns, of at most `most`.
fn size(tokens: &mut Scanner<'_>, most: u32) -> Result<u32, TokenFault>
    ensures size { Gives (next_size most tokens.old) result tokens.new }
    ensures most { IfOk result (λ n. n ≤ most) }
{
    Ok(tokens.count(0, u64::from(most), FaultKind::TooMany)? as u32)
}

/// The parts about the linking rows, where the claim is on all bricks.
fn fold_after(
    alloc: Global,
    tokens: &mut Scanner<'_>,
    claim: Claim,
) -> Result<Option<FoldPart>, TokenFault>
    requires { IsNumbered claim }
    ensures read { MatchResult result (λ f. fold_after claim tokens.old ≡ Ok (f, tokens.new))
        (IsTokenFault (fold_after claim tokens.old)) }
    ensures parts { IfOk result (FitsClaim claim) }
{
    match claim {
        Claim::InfeasibleBrick { .. } => Ok(None),
        Claim::Optimal | Claim::InfeasibleLink => Ok(Some(fold::fold(alloc, tokens)?)),
    }
}
