//! The last layer: what the ends of walks cost.

ghost use Rattle.std.specs.Prelude.{◌<◌, IfOk};
ghost use Rattle.fold_theory.specs.Programs.{link_rests};
ghost use Rattle.fold_program.specs.Points.{HasPointShape};
ghost use Rattle.brick_dp.specs.Ends.{IsLastLayer};

use crate::folds::Fold;
use fold_program::Point;
use std::alloc::{AllocError, Global};
use walk_ends::{end, missed_after};

/// The last layer of walks from a point.
pub(crate) fn last_layer(
    alloc: Global,
    fold: &Fold,
    point: &Point,
    k: u32,
) -> Result<Vec<Option<i128>>, AllocError>
    requires shape { HasPointShape fold.now.program point.now }
    requires short { k < 64 }
    ensures { IfOk result (λ layer. IsLastLayer fold.now k (link_rests fold.now.program point.now) layer.items) }
{
    let program = fold.program();
    prove!(program.n() > 0);
    let rests = program.rests(alloc, point)?;
    let before = program.link_residual(point);
    let mut layer = Vec::with_capacity(alloc, fold.sums().len() as usize)?;
    for i in 0..fold.sums().len() {
        let after = missed_after(program, &rests, fold.sum(i), k);
        layer.push(end(fold.phase(), before, after))?;
    }
    Ok(layer)
}
