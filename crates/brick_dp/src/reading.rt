//! Reading the best step off the layers.

ghost use Rattle.std.specs.Prelude.{◌≡◌, ◌+◌, ◌<◌, ◌<ℤ◌, ◌-ℤ◌, pos, ◌++◌, ◌∷◌, [], length, IsTrue, IfOk, OnOk};
ghost use Rattle.lattice_theory.specs.Vectors.{is_rising};
ghost use Rattle.lattice_theory.specs.SignedSums.{vectors};
ghost use Rattle.fold_theory.specs.Programs.{IsLength, AreWithin};
ghost use Rattle.run_theory.specs.Outcomes.{nonzero_from, nonzero_entries};
ghost use Rattle.run_theory.specs.Bests.{IsFound};
ghost use Rattle.brick_dp.specs.Menus.{AreMenus};
ghost use Rattle.brick_dp.specs.Tables.{AreLayers, IsFirstCost};

use crate::answers::Step;
use crate::folds::Fold;
use crate::menus::Menus;
use fold_program::Point;
use int_vectors::is_zero;
use layer_sieve::{Layers, Targets, first_choice};
use std::alloc::{AllocError, Global};

/// The step that begins at zero in the first layer and takes from layer to layer the first move that costs as little
/// as walks do. Walks from zero cost `total`, and the layers are right for steps that gain as much. The last layer
/// stands first.
pub(crate) fn step_from(
    alloc: Global,
    fold: &Fold,
    targets: &Targets,
    menus: &Menus,
    _point: &Point,
    k: u32,
    layers: &Layers,
    total: i128,
) -> Result<Step, AllocError>
    requires rising { IsTrue (is_rising (vectors fold.now.sums)) }
    requires targets { targets.now ≡ fold.now.sums }
    requires menus { AreMenus fold.now _point.now k menus.now }
    requires within { AreWithin fold.now.program.bricks _point.now }
    requires length { IsLength fold.now.program k }
    requires layers { AreLayers fold.now _point.now k (length fold.now.program.bricks + 1) (pos 0 -ℤ total) layers.now }
    requires first { IsFirstCost fold.now layers.now total }
    requires lowers { total <ℤ pos 0 }
    ensures { IfOk result (IsFound fold.now _point.now k) }
{
    let bricks = fold.program().n();
    let mut moved = Vec::new(alloc);
    let mut entries = Vec::new(alloc);
    let mut sum = fold.sums().zero();
    let mut cost = total;
    for done in 0..bricks {
        let menu = menus.of(done + 1);
        let next = layers.get(bricks - done - 1);
        // a cost is that of some move
        let Some(choice) = first_choice(targets, menu, next, sum, cost) else {
            unreachable!()
        };
        note(&mut moved, &mut entries, done + 1, fold.sum(choice.place))?;
        sum = choice.to;
        cost = choice.rest;
    }
    Ok(Step {
        k,
        gain: total.unsigned_abs(),
        bricks: moved,
        entries,
    })
}

/// Writes down a brick's part of a step, where it is not zero.
fn note(
    bricks: &mut Vec<u32>,
    entries: &mut Vec<i64>,
    brick: u32,
    part: &[i64],
) -> Result<(), AllocError>
    ensures bricks { OnOk result (bricks.new.items ≡ bricks.old.items ++ nonzero_from brick (part.now ∷ [])) }
    ensures entries { OnOk result (entries.new.items ≡ entries.old.items ++ nonzero_entries (part.now ∷ [])) }
{
    if !is_zero(part) {
        bricks.push(brick)?;
        entries.extend_from_slice(part)?;
    }
    Ok(())
}
