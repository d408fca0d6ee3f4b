//! The point of a certificate on all bricks.

ghost use Rattle.std.specs.Prelude.{◌≡◌, length, nat_eq, IfOk, IfSome};
ghost use Rattle.lattice_theory.specs.Lists.{all_zip};
ghost use Rattle.fold_theory.specs.Programs.{AreWithin, is_within, brick_residual};
ghost use Rattle.fold_program.specs.Points.{HasPointShape};
ghost use Rattle.cert_checker.specs.Folds.{IsPointOf};

use fold_program::{Point, Program};
use mat_files::Matrix;
use std::alloc::{AllocError, Global};

/// Whether each row is within the bounds of its brick.
pub(crate) fn are_within(program: &Program, point: &Matrix) -> bool
    requires bricks { length point.now.rows ≡ length program.now.bricks }
    requires width { point.now.cols ≡ program.now.link.cols }
    ensures { result ≡ all_zip is_within program.now.bricks point.now.rows }
{
    for before in 0..program.n() {
        if !program.is_within(before + 1, point.row(before + 1)) {
            return false;
        }
    }
    true
}

/// Whether each row meets the rows of its brick.
pub(crate) fn meet_brick_rows(program: &Program, point: &Matrix) -> bool
    requires bricks { length point.now.rows ≡ length program.now.bricks }
    requires width { point.now.cols ≡ program.now.link.cols }
    ensures { result ≡ all_zip (λ b v. nat_eq (brick_residual program.now b v) 0) program.now.bricks point.now.rows }
{
    for before in 0..program.n() {
        if program.residual(before + 1, point.row(before + 1)) != 0 {
            return false;
        }
    }
    true
}

/// The point with these rows, which are within the bounds of the bricks.
pub(crate) fn point_of(
    alloc: Global,
    program: &Program,
    point: &Matrix,
) -> Result<Option<Point>, AllocError>
    requires bricks { length point.now.rows ≡ length program.now.bricks }
    requires width { point.now.cols ≡ program.now.link.cols }
    requires within { AreWithin program.now.bricks point.now.rows }
    ensures rows { IfOk result (IsPointOf point.now.rows) }
    ensures shape { IfOk result (λ found. IfSome found (HasPointShape program.now)) }
{
    let cols = point.cols();
    prove!(cols == program.t());
    Ok(Point::new(program, point.entries().to_vec(alloc)?))
}
