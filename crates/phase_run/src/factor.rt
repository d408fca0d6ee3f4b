//! The bound number of a fold.

ghost use Rattle.std.specs.Prelude.{◌≡◌, ◌≤◌, ◌^◌, ◌++◌, length, map, unsigned_abs};
ghost use Rattle.lattice_theory.specs.Lists.{greatest};
ghost use Rattle.lattice_theory.specs.Matrices.{product};
ghost use Rattle.lattice_theory.specs.SignedSums.{vectors};
ghost use Rattle.run_theory.specs.Outcomes as outcomes;
ghost use Rattle.run_theory.specs.Folds.{IsSmallImage, HasBrickSums};

use brick_dp::Fold;
use fold_program::Program;
use step_targets::image;

/// How many steps the rule takes at most to gain half of what is left to gain: twice the number of all columns and
/// linking rows times the greatest absolute entry of a sum and of what it changes the linking rows by.
///
/// The fold's sums are the brick sums of its program and phase. No memory is taken.
pub fn bound_number(fold: &Fold) -> u128
    requires { HasBrickSums fold.now }
    ensures { result ≡ outcomes.bound_number fold.now.program (vectors fold.now.sums) }
{
    let program = fold.program();
    let (n, t, r) = (program.n(), program.t(), program.r());
    let coordinates = u64::from(n) * u64::from(t) + u64::from(r);
    2 * u128::from(coordinates) * widest_entry(fold)
}

/// The greatest absolute entry of all sums and of what they change the linking rows by.
fn widest_entry(fold: &Fold) -> u128
    ensures widest { result ≡ outcomes.widest_entry fold.now.program (vectors fold.now.sums) }
    ensures small { result ≤ 2 ^ 63 }
{
    let program = fold.program();
    // the brick matrix has as many columns as the linking matrix
    prove!(program.n() > 0);
    let sums = fold.sums();
    let mut widest = 0;
    for i in 0..sums.len() {
        widest = widest_of(program, sums.get(i)).max(widest);
    }
    widest
}

/// The greatest absolute entry of a sum and of what it changes the linking rows by.
fn widest_of(program: &Program, sum: &[i64]) -> u128
    requires width { length sum.now ≡ program.now.link.cols }
    requires image { IsSmallImage program.now sum.now }
    ensures widest { result ≡ greatest (map unsigned_abs (sum.now ++ product program.now.link sum.now)) }
    ensures small { result ≤ 2 ^ 63 }
{
    prove!(program.t() <= 32);
    let mut widest = 0;
    for entry in sum {
        widest = u128::from(entry.unsigned_abs()).max(widest);
    }
    for row in 0..program.r() {
        widest = image(program.link().row(row + 1), sum)
            .unsigned_abs()
            .max(widest);
    }
    widest
}
