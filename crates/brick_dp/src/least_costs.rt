//! The least costs of all walks with steps of length 1.

ghost use Rattle.std.specs.Prelude.{◌^◌, All, IfOk};
ghost use Rattle.lattice_theory.specs.SignedSums.{vectors};
ghost use Rattle.run_theory.specs.Outcomes.{ArePotentials};
ghost use Rattle.run_theory.specs.Starts.{IsStart};
ghost use Rattle.run_theory.specs.Folds.{HasBrickSums};
ghost use Rattle.layer_sieve.specs.Reaching.{AreAtMost};

use crate::filling::layers;
use crate::folds::Fold;
use crate::menus::Menus;
use crate::tables::Potentials;
use fold_program::Point;
use layer_sieve::{Moves, Targets};
use std::alloc::{AllocError, Global};

/// The least costs of walks of length 1, from each sum in each layer to the end: of walks to any end in phase
/// `Counted`, and in phase `Closed` of those to ends that meet the linking rows. Each is at most `2^122` in absolute
/// value. Errors are those of `best_step`.
pub fn potentials(alloc: Global, fold: &Fold, point: &Point) -> Result<Potentials, AllocError>
    requires sums { HasBrickSums fold.now }
    requires start { IsStart fold.now.program fold.now.phase point.now }
    ensures potentials { IfOk result (ArePotentials fold.now.program fold.now.phase (vectors fold.now.sums) point.now) }
    ensures small { IfOk result (λ t. All (AreAtMost (2 ^ 122)) t.rows) }
{
    let bricks = fold.program().n();
    prove!(fold.sums().zero() < fold.sums().len());
    let targets = Targets::new(alloc, fold.sums())?;
    let menus = Menus::new(alloc, fold, point, 0)?;
    let mut moves = Moves::new();
    let layers = layers(alloc, fold, &targets, &menus, point, 0, &mut moves)?;
    Ok(Potentials::new(fold.sums().len(), bricks, layers))
}
