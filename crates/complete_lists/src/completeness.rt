//! Whether a list of rows is complete for the lattice of a matrix: each row is an element of the lattice whose first
//! nonzero entry is positive, the rows rise, the elements of the unit vectors are among them, and what each two rows
//! clash in is settled by a prefix of their sum.

ghost use Rattle.std.specs.Prelude.{◌≡◌, ◌≤◌, ◌+◌, length, All, IfOk};
ghost use Rattle.std.specs.List.{list_all};
ghost use Rattle.lattice_theory.specs.Lists.{numbers_from};
ghost use Rattle.lattice_theory.specs.Vectors.{same, lex_less};
ghost use Rattle.lattice_theory.specs.Vectors as vector;
ghost use Rattle.lattice_theory.specs.Matrices.{element, unit_vector};
ghost use Rattle.lattice_theory.specs.Lattices.{is_complete_for};
ghost use Rattle.lattice_theory.specs.BasisLimits.{IsNarrow};

use crate::clashes::clashes_settle;
use crate::elements::{are_elements, unit_element};
use int_vectors::cmp_lex;
use mat_files::Matrix;
use std::alloc::{AllocError, Global};

/// Whether the rows of `basis` are complete for the lattice of all `(v, A·v)` of the matrix `A`. They are as wide as
/// its elements.
///
/// By L. Pottier, "The Euclidean algorithm in dimension n" (1996): each two rows of which the list has many are looked
/// at once, and only those that first clash behind their first parts are compared with the other rows.
pub fn is_complete(alloc: Global, matrix: &Matrix, basis: &Matrix) -> Result<bool, AllocError>
    requires narrow { All IsNarrow matrix.now.rows }
    requires few { matrix.now.cols ≤ 2000 }
    requires width { basis.now.cols ≡ matrix.now.cols + length matrix.now.rows }
    requires narrower { All IsNarrow basis.now.rows }
    ensures { IfOk result (λ b. b ≡ is_complete_for matrix.now basis.now.rows) }
{
    if !are_elements(matrix, basis) || !is_rising(basis) {
        return Ok(false);
    }
    if !units_are_listed(alloc, matrix, basis)? {
        return Ok(false);
    }
    clashes_settle(alloc, basis, matrix.cols())
}

/// Whether each row is less than the next one.
fn is_rising(basis: &Matrix) -> bool
    ensures { result ≡ vector.is_rising basis.now.rows }
{
    for row in 1..basis.rows() {
        if !is_less(basis.row(row), basis.row(row + 1)) {
            return false;
        }
    }
    true
}

/// Whether `u` comes before `v`.
fn is_less(u: &[i64], v: &[i64]) -> bool
    requires { length u.now ≡ length v.now }
    ensures { result ≡ lex_less u.now v.now }
{
    cmp_lex(u, v).is_lt()
}

/// Whether the elements of all unit vectors are rows.
fn units_are_listed(alloc: Global, matrix: &Matrix, basis: &Matrix) -> Result<bool, AllocError>
    ensures { IfOk result (λ b. b ≡
        list_all (λ j. vector.is_listed basis.now.rows (element matrix.now (unit_vector matrix.now.cols j)))
        (numbers_from 0 matrix.now.cols)) }
{
    for col in 0..matrix.cols() {
        if !is_listed(basis, &unit_element(alloc, matrix, col)?) {
            return Ok(false);
        }
    }
    Ok(true)
}

/// Whether `z` is a row.
fn is_listed(basis: &Matrix, z: &[i64]) -> bool
    ensures { result ≡ vector.is_listed basis.now.rows z.now }
{
    for row in 0..basis.rows() {
        if is_same(basis.row(row + 1), z) {
            return true;
        }
    }
    false
}

/// Whether the two vectors are equal.
fn is_same(u: &[i64], v: &[i64]) -> bool
    ensures { result ≡ same u.now v.now }
{
    u == v
}
