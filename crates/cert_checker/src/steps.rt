//! Steps from a point of a brick by the members of a list, forward and back.

ghost use Rattle.std.specs.Prelude.{◌≡◌, ◌≤◌, length, All, IfOk};
ghost use Rattle.lattice_theory.specs.BasisLimits.{IsNarrow};
ghost use Rattle.fold_program.specs.Places.{OfBrick};
ghost use Rattle.lattice_theory.specs.Vectors.{IsBoundedRow};
ghost use Rattle.cert_checker.specs.Steps.{is_better, is_best};

use fold_program::Program;
use mat_files::Matrix;
use std::alloc::{AllocError, Global};
use vector_sums::{add_into, subtract_into};

/// Whether no step from `x` by the first part of a row of `basis`, forward or back, stays within the bounds of the
/// brick and has a smaller residual.
pub fn no_step_helps(
    alloc: Global,
    program: &Program,
    brick: u32,
    basis: &Matrix,
    x: &[i64],
) -> Result<bool, AllocError>
    requires from { 1 ≤ brick }
    requires to { brick ≤ length program.now.bricks }
    requires width { length x.now ≡ program.now.link.cols }
    requires bounded { IsBoundedRow x.now }
    requires wide { program.now.link.cols ≤ basis.now.cols }
    requires narrow { All IsNarrow basis.now.rows }
    ensures { IfOk result (λ kept. OfBrick program.now brick (λ b. kept ≡ is_best program.now b basis.now.rows x.now)) }
{
    let mut y = vec![in alloc; 0; program.t() as usize]?;
    Ok(steps_keep(program, brick, basis, x, &mut y))
}

/// Whether no such step helps. `y` has room for one vector.
fn steps_keep(program: &Program, brick: u32, basis: &Matrix, x: &[i64], y: &mut [i64]) -> bool
    requires from { 1 ≤ brick }
    requires to { brick ≤ length program.now.bricks }
    requires width { length x.now ≡ program.now.link.cols }
    requires room { length y.old ≡ program.now.link.cols }
    requires bounded { IsBoundedRow x.now }
    requires wide { program.now.link.cols ≤ basis.now.cols }
    requires narrow { All IsNarrow basis.now.rows }
    ensures { OfBrick program.now brick (λ b. result ≡ is_best program.now b basis.now.rows x.now) }
{
    let cols = program.t() as usize;
    let least = program.residual(brick, x);
    for row in 0..basis.rows() {
        let v = &basis.row(row + 1)[..cols];
        add_into(y, x, v);
        if is_better(program, brick, y, least) {
            return false;
        }
        subtract_into(y, x, v);
        if is_better(program, brick, y, least) {
            return false;
        }
    }
    true
}

/// Whether the vector is within the bounds of the brick and its residual is smaller than this.
fn is_better(program: &Program, brick: u32, vector: &[i64], least: u128) -> bool
    requires from { 1 ≤ brick }
    requires to { brick ≤ length program.now.bricks }
    requires width { length vector.now ≡ program.now.link.cols }
    ensures { OfBrick program.now brick (λ b. result ≡ is_better program.now b least vector.now) }
{
    program.is_within(brick, vector) && program.residual(brick, vector) < least
}
