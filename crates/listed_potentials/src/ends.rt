//! The last layer: what the ends of walks cost.

ghost use Rattle.std.specs.Prelude.{◌≡◌, ◌≤◌, ◌+◌, length, All, IfOk};
ghost use Rattle.fold_theory.specs.Programs.{link_rests};
ghost use Rattle.run_theory.specs.Checker.{at_most};
ghost use Rattle.fold_program.specs.Points.{HasPointShape};
ghost use Rattle.listed_sums.specs.Places.{vectors_of, IsModest};
ghost use Rattle.listed_potentials.specs.Ends as ends;

use fold_program::{Phase, Point, Program};
use listed_sums::vector_of;
use mat_files::Matrix;
use std::alloc::{AllocError, Global};
use walk_ends::{end, missed_after};

/// Whether no walk ends at a cost below the potential of its sum in the last layer, which is `row`.
pub(crate) fn ends_hold(
    alloc: Global,
    program: &Program,
    phase: Phase,
    point: &Point,
    sums: &Matrix,
    row: &[Option<i128>],
) -> Result<bool, AllocError>
    requires shape { HasPointShape program.now point.now }
    requires few { length sums.now.rows ≤ 20000 }
    requires sums { sums.now.cols ≡ 1 + program.now.link.cols }
    requires modest { All IsModest (vectors_of sums.now.rows) }
    requires width { length row.now ≡ length sums.now.rows }
    ensures { IfOk result (λ b. b ≡ ends.ends_hold program.now phase (vectors_of sums.now.rows)
        (link_rests program.now point.now) row.now) }
{
    prove!(program.n() > 0);
    prove!(program.link().cols() == program.t());
    let rests = program.rests(alloc, point)?;
    let before = program.link_residual(point);
    for place in 0..sums.rows() {
        let after = missed_after(program, &rests, vector_of(sums, place), 0);
        if !is_at_most(row[place as usize], end(phase, before, after)) {
            return Ok(false);
        }
    }
    Ok(true)
}

/// Whether the first number is at most the second, where none stands for infinity.
pub(crate) fn is_at_most(first: Option<i128>, second: Option<i128>) -> bool
    ensures { result ≡ at_most first second }
{
    match (first, second) {
        (_, None) => true,
        (None, Some(_)) => false,
        (Some(first), Some(second)) => first <= second,
    }
}
