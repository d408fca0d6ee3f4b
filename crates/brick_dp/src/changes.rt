//! What the moves of one brick change the cost by.

ghost use Rattle.std.specs.Prelude.{◌≡◌, ◌<◌, ◌≤◌, length, IfOk};
ghost use Rattle.fold_theory.specs.Programs.{IsWithin};
ghost use Rattle.fold_program.specs.Places.{OfBrick, ForBrick};
ghost use Rattle.brick_dp.specs.Changes.{IsChange};

use crate::folds::Fold;
use fold_program::Phase;
use std::alloc::{AllocError, Global};
use step_targets::target;

/// What one move of a brick changes the cost by, where it stays within the bounds.
pub(crate) fn change(
    alloc: Global,
    fold: &Fold,
    brick: u32,
    at: &[i64],
    part: &[i64],
    k: u32,
) -> Result<Option<i128>, AllocError>
    requires from { 1 ≤ brick }
    requires to { brick ≤ length fold.now.program.bricks }
    requires within { ForBrick fold.now.program brick (λ b. IsWithin b at.now) }
    requires size { length at.now ≡ fold.now.program.link.cols }
    requires width { length part.now ≡ fold.now.program.link.cols }
    requires short { k < 64 }
    ensures { IfOk result (λ c. OfBrick fold.now.program brick (λ b. IsChange fold.now.phase k b at.now part.now c)) }
{
    let program = fold.program();
    prove!(brick <= program.n());
    let (lower, upper) = (program.lower_row(brick), program.upper_row(brick));
    let Some(end) = target(alloc, lower, upper, at, part, k)? else {
        return Ok(None);
    };
    match fold.phase() {
        Phase::Counted => Ok(Some(0)),
        Phase::Closed => Ok(Some(program.brick_cost(brick, &end) - program.brick_cost(brick, at))),
    }
}
