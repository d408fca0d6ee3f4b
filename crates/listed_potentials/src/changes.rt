//! What the listed moves of a brick change its phase cost by.

ghost use Rattle.std.specs.Prelude.{◌≡◌, ◌≤◌, ◌+◌, ◌^◌, length, map, All, unsigned_abs, IfOk, IfSome};
ghost use Rattle.fold_theory.specs.Programs.{IsWithin};
ghost use Rattle.fold_program.specs.Places.{ForBrick, OfBrick};
ghost use Rattle.vector_sums.specs.Sizes.{IsBounded};
ghost use Rattle.listed_sums.specs.Places.{vectors_of, IsModest};
ghost use Rattle.listed_potentials.specs.Moves.{change_of, changes_of};

use fold_program::{Phase, Program};
use listed_sums::vector_of;
use mat_files::Matrix;
use std::alloc::{AllocError, Global};
use vector_sums::add_into;

/// What each listed sum, as a move of the brick from a vector within its bounds, changes the phase cost by; none where
/// the move leads out of the bounds. `to` has room for one vector.
pub(crate) fn changes(
    alloc: Global,
    program: &Program,
    phase: Phase,
    brick: u32,
    at: &[i64],
    sums: &Matrix,
    to: &mut [i64],
) -> Result<Vec<Option<i128>>, AllocError>
    requires from { 1 ≤ brick }
    requires last { brick ≤ length program.now.bricks }
    requires width { length at.now ≡ program.now.link.cols }
    requires within { ForBrick program.now brick (λ b. IsWithin b at.now) }
    requires bounded { IsBounded at.now }
    requires few { length sums.now.rows ≤ 20000 }
    requires sums { sums.now.cols ≡ 1 + program.now.link.cols }
    requires modest { All IsModest (vectors_of sums.now.rows) }
    requires room { length to.old ≡ program.now.link.cols }
    ensures changes { IfOk result (λ cs. OfBrick program.now brick (λ b. cs.items ≡ changes_of phase
        (vectors_of sums.now.rows) b at.now)) }
    ensures small { IfOk result (λ cs. All (λ c. IfSome c (λ d. unsigned_abs d ≤ 2 ^ 121)) cs.items) }
{
    prove!(brick <= program.n());
    let mut changes = Vec::with_capacity(alloc, sums.rows() as usize)?;
    for place in 0..sums.rows() {
        add_into(to, at, vector_of(sums, place));
        changes.push(change(program, phase, brick, at, to))?;
    }
    Ok(changes)
}

/// What the phase cost changes by from one vector to another; none where that is outside the bounds.
fn change(program: &Program, phase: Phase, brick: u32, at: &[i64], to: &[i64]) -> Option<i128>
    requires from { 1 ≤ brick }
    requires last { brick ≤ length program.now.bricks }
    requires width { length at.now ≡ program.now.link.cols }
    requires same { length to.now ≡ program.now.link.cols }
    requires within { ForBrick program.now brick (λ b. IsWithin b at.now) }
    ensures change { OfBrick program.now brick (λ b. result ≡ change_of phase b at.now to.now) }
    ensures small { IfSome result (λ d. unsigned_abs d ≤ 2 ^ 121) }
{
    prove!(brick <= program.n());
    if !program.is_within(brick, to) {
        return None;
    }
    match phase {
        Phase::Counted => Some(0),
        Phase::Closed => Some(program.brick_cost(brick, to) - program.brick_cost(brick, at)),
    }
}
