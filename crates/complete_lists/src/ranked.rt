//! The rows of a list in the order in which they are looked through. A row that is below many sums has a small norm,
//! so it is met early, wherever it stands in the list.

ghost use Rattle.std.specs.Prelude.{◌≡◌, length, All, IfOk};
ghost use Rattle.std.specs.List.Sorted.{IsPermutation};
ghost use Rattle.complete_lists.specs.Ranks.{rows_in};

use int_vectors::norm1;
use mat_files::Matrix;
use std::alloc::{AllocError, Global};

/// A row with its norm.
#[derive(Debug, PartialEq, Eq, PartialOrd, Ord, Drop)]
pub struct Ranked {
    /// The sum of the absolute values.
    pub norm: u128,
    /// The entries.
    pub row: Vec<i64>,
}

/// The rows, those of the least norm first.
pub fn by_norm(alloc: Global, basis: &Matrix) -> Result<Vec<Ranked>, AllocError>
    ensures rows { IfOk result (λ ranked. IsPermutation basis.now.rows (rows_in ranked.items)) }
    ensures widths { IfOk result (λ ranked. All (λ v. length v ≡ basis.now.cols) (rows_in ranked.items)) }
{
    let mut ranked = Vec::with_capacity(alloc, basis.rows() as usize)?;
    for place in 0..basis.rows() {
        let row = Vec::from_slice(alloc, basis.row(place + 1))?;
        ranked.push(Ranked {
            norm: norm1(&row),
            row,
        })?;
    }
    ranked.sort()?;
    Ok(ranked)
}
