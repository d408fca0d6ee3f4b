//! The shapes of matrices.

ghost use Rattle.std.specs.Prelude.{◌≡◌};
ghost use Rattle.lattice_theory.specs.Matrices.{has_shape};

use mat_files::Matrix;

/// Whether the matrix has so many rows and columns.
pub(crate) fn has_shape(matrix: &Matrix, rows: u32, cols: u32) -> bool
    ensures { result ≡ has_shape rows cols matrix.now }
{
    matrix.rows() == rows && matrix.cols() == cols
}
