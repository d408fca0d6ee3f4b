//! The parts of a certificate about the linking rows.

ghost use Rattle.std.specs.Prelude.{◌≡◌, ◌≤◌, ◌*◌, ◌^◌, All, length};
ghost use Rattle.lattice_theory.specs.BasisLimits.{IsNarrow};
ghost use Rattle.certificate.specs.Readable.{IsSumRow, IsCell, IsReadablePart};

use crate::table::Table;
use mat_files::Matrix;
use std::marker::Model;

/// What a certificate about all bricks has beside the point and the basis of the bricks: the slack basis of the link
/// matrix, an element a row; the bound on how many generators a step needs; the sums, each row the level and then the
/// sum; and the table of potentials, with a row for each layer and a column for each sum.
#[derive(Debug, Drop)]
pub struct FoldPart {
    links: Matrix,
    bound: u64,
    sums: Matrix,
    potentials: Table,
}

impl Model for FoldPart {
    ghost use Rattle.run_theory.specs.Certificates as certificates;
    ghost use Rattle.certificate.specs.Readable.{IsReadablePart};

    ghost Value = { certificates.FoldPart };

    ghost view = { λ f. record { links = f.links; bound = f.bound; sums = f.sums; potentials = f.potentials } };

    ghost invariant = { λ f. IsReadablePart
        (record { links = f.links; bound = f.bound; sums = f.sums; potentials = f.potentials }) };
}

impl FoldPart {
    /// The parts about the linking rows. Each matrix and the table are within what can be read back.
    pub fn new(links: Matrix, bound: u64, sums: Matrix, potentials: Table) -> FoldPart
        requires link_rows { length links.rows ≤ 2000 }
        requires link_cols { links.cols ≤ 2016 }
        requires narrow { All IsNarrow links.rows }
        requires bound { bound ≤ 2 ^ 62 }
        requires sum_count { length sums.rows ≤ 20000 }
        requires sum_cols { sums.cols ≤ 33 }
        requires sum_rows { All IsSumRow sums.rows }
        requires layers { length potentials.rows ≤ 10001 }
        requires nodes { potentials.cols ≤ 20000 }
        requires product { length potentials.rows * potentials.cols ≤ 2 ^ 20 }
        requires cells { All (λ row. All IsCell row) potentials.rows }
        ensures { result ≡ record { links = links; bound = bound; sums = sums; potentials = potentials } }
    {
        prove!(links.cols() <= 2_016 && sums.cols() <= 33 && potentials.cols() <= 20_000);
        FoldPart {
            links,
            bound,
            sums,
            potentials,
        }
    }

    /// The slack basis of the link matrix, an element a row: at most 2,000 rows and 2,016 columns, with entries of at
    /// most `2^31 - 1` in absolute value.
    pub fn links(&self) -> &Matrix
        ensures links { result.now ≡ self.now.links }
        ensures rows { length self.now.links.rows ≤ 2000 }
        ensures cols { self.now.links.cols ≤ 2016 }
        ensures narrow { All IsNarrow self.now.links.rows }
    {
        &self.links
    }

    /// The bound on how many generators a step needs: at most `2^62`.
    pub fn bound(&self) -> u64
        ensures bound { result ≡ self.now.bound }
        ensures small { result ≤ 2 ^ 62 }
    {
        self.bound
    }

    /// The sums, each row the level and then the sum: at most 20,000 rows and 33 columns. A level is a count of at most
    /// `2^62`, and the other entries are at most `2^47` in absolute value.
    pub fn sums(&self) -> &Matrix
        ensures sums { result.now ≡ self.now.sums }
        ensures rows { length self.now.sums.rows ≤ 20000 }
        ensures cols { self.now.sums.cols ≤ 33 }
        ensures entries { All IsSumRow self.now.sums.rows }
    {
        &self.sums
    }

    /// The potentials, a row for each layer: at most 10,001 rows and 20,000 columns, and at most `2^20` entries, each
    /// at most `2^124` in absolute value.
    pub fn potentials(&self) -> &Table
        ensures potentials { result.now ≡ self.now.potentials }
        ensures rows { length self.now.potentials.rows ≤ 10001 }
        ensures cols { self.now.potentials.cols ≤ 20000 }
        ensures product { length self.now.potentials.rows * self.now.potentials.cols ≤ 2 ^ 20 }
        ensures cells { All (λ row. All IsCell row) self.now.potentials.rows }
    {
        &self.potentials
    }

    /// The parts are within what can be read back.
    pub(crate) fn is_within_limits(&self)
        ensures { IsReadablePart self.now }
    {
        let _bound = self.bound;
    }
}
