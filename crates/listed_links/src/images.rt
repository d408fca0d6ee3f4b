//! The link matrix: its columns are the images of the generators under the linking matrix.

ghost use Rattle.std.specs.Prelude.{◌≡◌, ◌≤◌, length, option_map, All, IfOk};
ghost use Rattle.lattice_theory.specs.BasisLimits.{IsNarrow};
ghost use Rattle.listed_links.specs.Images.{IsNarrowProduct, AreImages, IsLinkMatrix};

use int_vectors::dot;
use mat_files::Matrix;
use std::alloc::{AllocError, Global};

/// The matrix whose columns are the products of the linking matrix with the generators, in order; None where an entry
/// is past `2^31 - 1` in absolute value. Then no list of vectors within that range is complete for its lattice.
pub fn link_matrix(
    alloc: Global,
    link: &Matrix,
    generators: &Matrix,
) -> Result<Option<Matrix>, AllocError>
    requires cols { generators.now.cols ≡ link.now.cols }
    requires width { link.now.cols ≤ 32 }
    requires rows { length link.now.rows ≤ 16 }
    requires few { length generators.now.rows ≤ 2000 }
    requires narrow { All IsNarrow link.now.rows }
    requires narrower { All IsNarrow generators.now.rows }
    ensures { IfOk result (IsLinkMatrix link.now generators.now.rows) }
{
    let mut entries = Vec::new(alloc);
    for row in 0..link.rows() {
        let Some(images) = images(alloc, link.row(row + 1), generators)? else {
            return Ok(None);
        };
        entries.extend_from_slice(&images)?;
    }
    Ok(Some(Matrix::new(link.rows(), generators.rows(), entries)))
}

/// The products of a row with the generators; None where one is past `2^31 - 1` in absolute value.
fn images(alloc: Global, row: &[i64], generators: &Matrix) -> Result<Option<Vec<i64>>, AllocError>
    requires cols { generators.now.cols ≡ length row.now }
    requires width { length row.now ≤ 32 }
    requires few { length generators.now.rows ≤ 2000 }
    requires narrow { IsNarrow row.now }
    requires narrower { All IsNarrow generators.now.rows }
    ensures { IfOk result (λ found. AreImages row.now generators.now.rows (option_map (λ images. images.items) found)) }
{
    let mut images = Vec::new(alloc);
    for generator in 0..generators.rows() {
        let Some(image) = narrow_product(row, generators.row(generator + 1)) else {
            return Ok(None);
        };
        images.push(image)?;
    }
    Ok(Some(images))
}

/// The product; None where it is past `2^31 - 1` in absolute value.
fn narrow_product(row: &[i64], v: &[i64]) -> Option<i64>
    requires same { length v.now ≡ length row.now }
    requires width { length row.now ≤ 32 }
    requires narrow { IsNarrow row.now }
    requires narrower { IsNarrow v.now }
    ensures { IsNarrowProduct row.now v.now result }
{
    let product = dot(row, v);
    if product.unsigned_abs() < 1 << 31 {
        Some(product as i64)
    } else {
        None
    }
}
