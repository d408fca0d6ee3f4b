//! A certificate and its text.

mod printing;

ghost use Rattle.std.specs.Prelude.{◌≡◌, ◌≤◌, Some, None, Ok, All, length, option_copied};
ghost use Rattle.lattice_theory.specs.BasisLimits.{IsNarrow};
ghost use Rattle.certificate.specs.CertificateText.{certificate_text, parsed_certificate};
ghost use Rattle.lattice_theory.specs.Vectors.{IsBoundedRow};
ghost use Rattle.certificate.specs.Readable.{IsOnAllBricks, FitsClaim};

use crate::fold_part::FoldPart;
use mat_files::Matrix;
pub use printing::print;
use run_theory::Claim;
use std::marker::Model;

/// What is claimed, and what shows it: a point, the slack basis of the matrix of all bricks, and, exactly where the
/// claim is on all bricks, the parts about the linking rows.
///
/// Each certificate can be printed and read back.
#[derive(Debug, Drop)]
pub struct Certificate {
    claim: Claim,
    point: Matrix,
    bricks: Matrix,
    fold: Option<FoldPart>,
}

impl Model for Certificate {
    ghost use Rattle.run_theory.specs.Certificates as certificates;
    ghost use Rattle.certificate.specs.CertificateText.{certificate_text, parsed_certificate};
    ghost use Rattle.certificate.specs.Readable.{IsReadable};

    ghost Value = { certificates.Certificate };

    ghost view = { λ c. record { claim = c.claim; point = c.point; bricks = c.bricks; fold = c.fold } };

    ghost invariant = { λ c. IsReadable
        (record { claim = c.claim; point = c.point; bricks = c.bricks; fold = c.fold }) };
}

impl Certificate {
    /// The certificate that brick number `brick` cannot meet its rows. The point has the brick's vector as its one
    /// row, and `bricks` has the elements of the slack basis as its rows.
    pub fn on_brick(brick: u32, point: Matrix, bricks: Matrix) -> Certificate
        requires number { brick ≤ 10000 }
        requires point_rows { length point.rows ≤ 10000 }
        requires point_cols { point.cols ≤ 32 }
        requires bounded { All IsBoundedRow point.rows }
        requires brick_rows { length bricks.rows ≤ 2000 }
        requires brick_cols { bricks.cols ≤ 48 }
        requires narrow { All IsNarrow bricks.rows }
        ensures { result ≡ record { claim = Claim.InfeasibleBrick brick; point = point; bricks = bricks; fold = None } }
    {
        Certificate::new(Claim::InfeasibleBrick { brick }, point, bricks, None)
    }

    /// The certificate of a claim on all bricks, `Optimal` or `InfeasibleLink`. The point has a row for each brick,
    /// and `bricks` has the elements of the slack basis as its rows.
    pub fn on_all_bricks(claim: Claim, point: Matrix, bricks: Matrix, fold: FoldPart) -> Certificate
        requires claim { IsOnAllBricks claim }
        requires point_rows { length point.rows ≤ 10000 }
        requires point_cols { point.cols ≤ 32 }
        requires bounded { All IsBoundedRow point.rows }
        requires brick_rows { length bricks.rows ≤ 2000 }
        requires brick_cols { bricks.cols ≤ 48 }
        requires narrow { All IsNarrow bricks.rows }
        ensures { result ≡ record { claim = claim; point = point; bricks = bricks; fold = Some fold } }
    {
        fold.is_within_limits();
        Certificate::new(claim, point, bricks, Some(fold))
    }

    /// The certificate of these parts.
    pub(crate) fn new(
        claim: Claim,
        point: Matrix,
        bricks: Matrix,
        fold: Option<FoldPart>,
    ) -> Certificate
        requires parts { FitsClaim claim fold }
        requires point_rows { length point.rows ≤ 10000 }
        requires point_cols { point.cols ≤ 32 }
        requires bounded { All IsBoundedRow point.rows }
        requires brick_rows { length bricks.rows ≤ 2000 }
        requires brick_cols { bricks.cols ≤ 48 }
        requires narrow { All IsNarrow bricks.rows }
        ensures { result ≡ record { claim = claim; point = point; bricks = bricks; fold = fold } }
    {
        prove!(point.cols() <= 32 && bricks.cols() <= 48);
        Certificate {
            claim,
            point,
            bricks,
            fold,
        }
    }

    /// What is claimed. The parts about the linking rows are there exactly where that is on all bricks.
    pub fn claim(&self) -> Claim
        ensures claim { result ≡ self.now.claim }
        ensures parts { FitsClaim result self.now.fold }
    {
        self.claim
    }

    /// The point: at most 10,000 rows and 32 columns, with entries of at most `2^62` in absolute value.
    pub fn point(&self) -> &Matrix
        ensures point { result.now ≡ self.now.point }
        ensures rows { length self.now.point.rows ≤ 10000 }
        ensures cols { self.now.point.cols ≤ 32 }
        ensures bounded { All IsBoundedRow self.now.point.rows }
    {
        &self.point
    }

    /// The slack basis of the matrix of all bricks, an element a row: at most 2,000 rows and 48 columns, with entries
    /// of at most `2^31 - 1` in absolute value.
    pub fn bricks(&self) -> &Matrix
        ensures bricks { result.now ≡ self.now.bricks }
        ensures rows { length self.now.bricks.rows ≤ 2000 }
        ensures cols { self.now.bricks.cols ≤ 48 }
        ensures narrow { All IsNarrow self.now.bricks.rows }
    {
        &self.bricks
    }

    /// The parts about the linking rows, where the claim is on all bricks.
    pub fn fold(&self) -> Option<&FoldPart>
        ensures fold { option_copied result ≡ self.now.fold }
        ensures parts { FitsClaim self.now.claim self.now.fold }
    {
        self.fold.as_ref()
    }

    /// The text of each certificate is read as that certificate: a law.
    pub fn is_read_back(&self)
        ensures { parsed_certificate (certificate_text self.now) ≡ Ok self.now }
    {
        let _claim = self.claim;
    }
}
