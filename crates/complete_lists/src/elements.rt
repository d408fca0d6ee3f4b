//! Elements of the lattice of a matrix: whether rows are elements, and the elements of unit vectors.

ghost use Rattle.std.specs.Prelude.{◌≡◌, ◌≤◌, ◌<◌, ◌+◌, length, All, IfOk};
ghost use Rattle.std.specs.List.{list_all};
ghost use Rattle.std.specs.Ordering.{int_eq};
ghost use Rattle.lattice_theory.specs.Vectors.{same};
ghost use Rattle.lattice_theory.specs.Matrices.{product, element, unit_vector};
ghost use Rattle.lattice_theory.specs.Lattices as lattice;
ghost use Rattle.lattice_theory.specs.BasisLimits.{IsNarrow};

use int_vectors::{dot, leads_positive};
use mat_files::Matrix;
use std::alloc::{AllocError, Global};

/// Whether each row has the form `(v, A·v)` and begins with a positive entry.
pub fn are_elements(matrix: &Matrix, basis: &Matrix) -> bool
    requires narrow { All IsNarrow matrix.now.rows }
    requires few { matrix.now.cols ≤ 2000 }
    requires width { basis.now.cols ≡ matrix.now.cols + length matrix.now.rows }
    requires narrower { All IsNarrow basis.now.rows }
    ensures { result ≡ list_all (lattice.is_signed_element matrix.now) basis.now.rows }
{
    for row in 0..basis.rows() {
        if !is_signed_element(matrix, basis.row(row + 1)) {
            return false;
        }
    }
    true
}

/// Whether `z` has the form `(v, A·v)`, and its first nonzero entry is positive.
fn is_signed_element(matrix: &Matrix, z: &[i64]) -> bool
    requires narrow { All IsNarrow matrix.now.rows }
    requires few { matrix.now.cols ≤ 2000 }
    requires width { length z.now ≡ matrix.now.cols + length matrix.now.rows }
    requires narrower { IsNarrow z.now }
    ensures { result ≡ lattice.is_signed_element matrix.now z.now }
{
    let (v, image) = z.split_at(matrix.cols() as usize);
    leads_positive(z) && is_image(matrix, v, image)
}

/// Whether the image is the matrix times `v`.
fn is_image(matrix: &Matrix, v: &[i64], image: &[i64]) -> bool
    requires narrow { All IsNarrow matrix.now.rows }
    requires few { matrix.now.cols ≤ 2000 }
    requires width { length v.now ≡ matrix.now.cols }
    requires height { length image.now ≡ length matrix.now.rows }
    requires narrower { IsNarrow v.now }
    ensures { result ≡ same image.now (product matrix.now v.now) }
{
    for row in 0..matrix.rows() {
        if !is_product(image[row as usize], dot(matrix.row(row + 1), v)) {
            return false;
        }
    }
    true
}

/// Whether an entry is this product.
fn is_product(entry: i64, product: i128) -> bool
    ensures { result ≡ int_eq entry product }
{
    i128::from(entry) == product
}

/// The element of the unit vector with its 1 at `col`, from 0: the vector, and that column of the matrix.
pub fn unit_element(alloc: Global, matrix: &Matrix, col: u32) -> Result<Vec<i64>, AllocError>
    requires { col < matrix.now.cols }
    ensures { IfOk result (λ z. z.items ≡ element matrix.now (unit_vector matrix.now.cols col)) }
{
    let mut element = vec![in alloc; 0; matrix.cols() as usize]?;
    element[col as usize] = 1;
    for row in 0..matrix.rows() {
        element.push(matrix.entry(row + 1, col + 1))?;
    }
    Ok(element)
}
