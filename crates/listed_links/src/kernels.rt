//! The generators that a list of elements has.

ghost use Rattle.std.specs.Prelude.{◌≡◌, ◌≤◌, length, All, IfOk};
ghost use Rattle.lattice_theory.specs.Lattices.{kernel};
ghost use Rattle.lattice_theory.specs.BasisLimits.{IsNarrow};

use int_vectors::is_zero;
use mat_files::Matrix;
use std::alloc::{AllocError, Global};

/// The vectors `v` of `cols` entries of the rows `(v, 0)`, in their order.
pub fn generators(alloc: Global, basis: &Matrix, cols: u32) -> Result<Matrix, AllocError>
    requires wide { cols ≤ basis.now.cols }
    requires few { length basis.now.rows ≤ 2000 }
    requires narrow { All IsNarrow basis.now.rows }
    ensures rows { IfOk result (λ m. m.rows ≡ kernel cols basis.now.rows) }
    ensures cols { IfOk result (λ m. m.cols ≡ cols) }
    ensures narrow { IfOk result (λ m. All IsNarrow m.rows) }
    ensures few { IfOk result (λ m. length m.rows ≤ 2000) }
{
    let mut count = 0;
    let mut entries = Vec::new(alloc);
    for row in 0..basis.rows() {
        let (first, image) = basis.row(row + 1).split_at(cols as usize);
        if is_zero(image) {
            entries.extend_from_slice(first)?;
            count += 1;
        }
    }
    Ok(Matrix::new(count, cols, entries))
}
