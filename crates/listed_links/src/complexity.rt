//! Whether a number is at least the complexity that a list of elements shows.

ghost use Rattle.std.specs.Prelude.{◌≡◌, ◌+◌, length, nat_le};
ghost use Rattle.fold_theory.specs.Programs.{keeps_row};
ghost use Rattle.fold_theory.specs.Programs as programs;
ghost use Rattle.run_theory.specs.Links.{complexity};
ghost use Rattle.run_theory.specs.Links as links;
ghost use Rattle.listed_links.specs.Bounds.{counts, is_bounded_at};

use fold_theory::{Phase, Relation};
use int_vectors::{is_zero, norm1};
use mat_files::Matrix;

/// Whether `bound` is at least the complexity of the matrix: at least 1, at least 2 where the matrix has an entry that
/// is not 0, and at least the 1-norm of the first part of each listed element that counts in the phase. In phase
/// Closed an element counts where its image is 0 in each row that is an equation.
pub fn is_bound(
    phase: Phase,
    relations: &[Relation],
    matrix: &Matrix,
    basis: &Matrix,
    bound: u64,
) -> bool
    requires width { basis.now.cols ≡ matrix.now.cols + length matrix.now.rows }
    requires relations { length relations.now ≡ length matrix.now.rows }
    ensures { result ≡ nat_le (complexity phase relations.now matrix.now basis.now.rows) bound }
{
    if bound < least_complexity(matrix) {
        return false;
    }
    for row in 0..basis.rows() {
        if !is_bounded(phase, relations, basis.row(row + 1), matrix.cols(), bound) {
            return false;
        }
    }
    true
}

/// 2 where the matrix has an entry that is not 0, and else 1.
fn least_complexity(matrix: &Matrix) -> u64
    ensures { result ≡ links.least_complexity matrix.now }
{
    for row in 0..matrix.rows() {
        if !is_zero(matrix.row(row + 1)) {
            return 2;
        }
    }
    1
}

/// Whether the element does not count in the phase, or the 1-norm of its first `cols` entries is at most `bound`.
fn is_bounded(phase: Phase, relations: &[Relation], z: &[i64], cols: u32, bound: u64) -> bool
    requires { length z.now ≡ cols + length relations.now }
    ensures { result ≡ is_bounded_at phase relations.now cols bound z.now }
{
    let (first, image) = z.split_at(cols as usize);
    !counts(phase, relations, image) || norm1(first) <= u128::from(bound)
}

/// Whether an element with this image counts in the phase.
fn counts(phase: Phase, relations: &[Relation], image: &[i64]) -> bool
    requires { length relations.now ≡ length image.now }
    ensures { result ≡ counts phase relations.now image.now }
{
    match phase {
        Phase::Closed => keeps_equations(relations, image),
        Phase::Counted => true,
    }
}

/// Whether rows that change by this much rest as they were, where they are equations.
fn keeps_equations(relations: &[Relation], image: &[i64]) -> bool
    requires { length relations.now ≡ length image.now }
    ensures { result ≡ programs.keeps_equations relations.now image.now }
{
    for (relation, change) in relations.iter().zip(image) {
        if !keeps_row(*relation, *change) {
            return false;
        }
    }
    true
}

/// Whether a row of this relation that changes by this much rests as it was, where it is an equation.
fn keeps_row(relation: Relation, change: i64) -> bool
    ensures { result ≡ keeps_row relation change }
{
    match relation {
        Relation::Equal => change == 0,
        Relation::Less | Relation::Greater => true,
    }
}
