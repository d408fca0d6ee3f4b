//! The run of one brick.

ghost use Rattle.std.specs.Prelude.{◌≤◌, length, IfOk};
ghost use Rattle.lattice_theory.specs.Lattices.{IsSlackBasis};
ghost use Rattle.brick_phase.specs.Offers.{IsStart};
ghost use Rattle.brick_phase.specs.Settled.{IsSettled};

use crate::moves::Moves;
use crate::offers::{Offer, Place, best_offer};
use crate::starts::nearest_point;
use crate::steps::BrickStep;
use fold_program::Program;
use pottier::Basis;
use std::alloc::{AllocError, Global};

/// The end of a brick's run, with the steps that led there.
#[derive(Debug, Drop)]
pub enum BrickEnd {
    /// The point meets the rows of the brick.
    Feasible {
        point: Vec<i64>,
        trace: Vec<BrickStep>,
    },
    /// The point misses them by the residual, which is above 0, and no step lowers it.
    Stuck {
        point: Vec<i64>,
        trace: Vec<BrickStep>,
        residual: u128,
    },
}

/// Brings brick number `i`, from 1, to meet its rows by the brick rule.
///
/// From the point of its bounds that is nearest to 0, each step is the best one: of those within the bounds that
/// lower the residual the one with the least residual after it, then the least length, then the least vector.
/// `basis` is the slack basis of the brick matrix. Each step lowers the residual, so the run ends. An error comes only
/// where memory runs out.
pub fn settle_brick(
    alloc: Global,
    program: &Program,
    i: u32,
    basis: &Basis,
) -> Result<BrickEnd, AllocError>
    requires from { 1 ≤ i }
    requires to { i ≤ length program.now.bricks }
    requires basis { IsSlackBasis program.now.brick basis.now.elements }
    ensures { IfOk result (IsSettled program.now basis.now.elements i) }
{
    let moves = Moves::new(alloc, program, basis)?;
    let mut at = start(alloc, program, i)?;
    let mut trace = Vec::new(alloc);
    while let Some(offer) = best_offer(alloc, program, i, &moves, &at)? {
        let Offer { step, place } = offer;
        trace.push(step)?;
        at = place;
    }
    let Place { point, residual } = at;
    if residual == 0 {
        Ok(BrickEnd::Feasible { point, trace })
    } else {
        Ok(BrickEnd::Stuck {
            point,
            trace,
            residual,
        })
    }
}

/// The place from which the run of a brick starts.
fn start(alloc: Global, program: &Program, brick: u32) -> Result<Place, AllocError>
    requires from { 1 ≤ brick }
    requires to { brick ≤ length program.now.bricks }
    ensures { IfOk result (IsStart program.now brick) }
{
    // a program has no crossed bounds
    prove!(brick <= program.n());
    let (lower, upper) = (program.lower_row(brick), program.upper_row(brick));
    let point = nearest_point(alloc, lower, upper)?;
    let residual = program.residual(brick, &point);
    Ok(Place { point, residual })
}

#[cfg(test)]
mod tests;
