//! The link matrix: the products of the linking rows and the vectors that keep a brick's rows met.

ghost use Rattle.std.specs.Prelude.{◌≡◌, ◌≤◌, ◌<◌, ◌^◌, ◌++◌, length, map, All, IfOk, IfErr, OnOk, SomeIff};
ghost use Rattle.std.specs.Prelude.{unsigned_abs};
ghost use Rattle.lattice_theory.specs.Vectors as vector;
ghost use Rattle.lattice_theory.specs.BasisLimits.{IsNarrow};
ghost use Rattle.run_theory.specs.Links as links;
ghost use Rattle.graver_complexity.specs.Refusals.{IsWideEntry, IsWideInRow};

use crate::fault::LinkFault;
use int_vectors::dot;
use mat_files::Matrix;
use std::alloc::Global;

/// The matrix with a row for each row of `a1` and a column `a1·v` for each row `v` of `g2`, in their order.
///
/// `a1` and `g2` have the same number of columns, at most 32, and each entry of the two is at most `2^31 - 1` in
/// absolute value. So is each entry of the answer: `WideEntry` names the first that is not, row by row.
pub fn link_matrix(alloc: Global, a1: &Matrix, g2: &Matrix) -> Result<Matrix, LinkFault>
    requires cols { a1.now.cols ≡ g2.now.cols }
    requires few { a1.now.cols ≤ 32 }
    requires link { All IsNarrow a1.now.rows }
    requires kernel { All IsNarrow g2.now.rows }
    ensures links { IfOk result (λ m. m ≡ links.link_matrix a1.now g2.now.rows) }
    ensures small { IfOk result (λ m. All IsNarrow m.rows) }
    ensures refused { IfErr result (IsWideEntry (links.link_matrix a1.now g2.now.rows)) }
{
    let mut entries = Vec::new(alloc);
    for i in 0..a1.rows() {
        let row = i + 1;
        add_row(&mut entries, row, a1.row(row), g2)?;
    }
    Ok(Matrix::new(a1.rows(), g2.rows(), entries))
}

/// Adds the products of the linking row with this number and the vectors.
fn add_row(entries: &mut Vec<i64>, row: u32, link: &[i64], g2: &Matrix) -> Result<(), LinkFault>
    requires same { length link.now ≡ g2.now.cols }
    requires few { g2.now.cols ≤ 32 }
    requires link { IsNarrow link.now }
    requires kernel { All IsNarrow g2.now.rows }
    ensures products { OnOk result (entries.new.items ≡ entries.old.items ++ map (vector.dot link.now) g2.now.rows) }
    ensures small { OnOk result (IsNarrow (map (vector.dot link.now) g2.now.rows)) }
    ensures refused { IfErr result (IsWideInRow row (map (vector.dot link.now) g2.now.rows)) }
{
    for j in 0..g2.rows() {
        let col = j + 1;
        let Some(entry) = narrow_product(link, g2.row(col)) else {
            return Err(LinkFault::WideEntry { row, col });
        };
        entries.push(entry)?;
    }
    Ok(())
}

/// The product of two vectors, where it is at most `2^31 - 1` in absolute value.
fn narrow_product(link: &[i64], v: &[i64]) -> Option<i64>
    requires same { length link.now ≡ length v.now }
    requires few { length link.now ≤ 32 }
    requires first { IsNarrow link.now }
    requires second { IsNarrow v.now }
    ensures { SomeIff result (unsigned_abs (vector.dot link.now v.now) < 2 ^ 31) (vector.dot link.now v.now) }
{
    let product = dot(link, v);
    if product.unsigned_abs() < 1 << 31 {
        Some(product as i64)
    } else {
        None
    }
}
