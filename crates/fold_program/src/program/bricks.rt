//! One brick: whether a vector is within its bounds, and how far it is from meeting its rows.

ghost use Rattle.std.specs.Prelude.{◌≡◌, ◌≤◌, ◌<◌, ◌^◌, ◌-ℤ◌, ◌*ℤ◌, length, All, int_le, unsigned_abs};
ghost use Rattle.lattice_theory.specs.Lists.{all_zip};
ghost use Rattle.lattice_theory.specs.Vectors.{norm1, sub, dot};
ghost use Rattle.lattice_theory.specs.Matrices.{product};
ghost use Rattle.lattice_theory.specs.BasisLimits.{IsNarrow};
ghost use Rattle.fold_theory.specs.Programs.{is_within, brick_residual};
ghost use Rattle.fold_program.specs.Places.{OfBrick};

use crate::program::Program;
use mat_files::Matrix;

impl Program {
    /// Whether the vector, which has `t` entries, is within the bounds of a brick.
    pub fn is_within(&self, brick: u32, vector: &[i64]) -> bool
        requires from { 1 ≤ brick }
        requires to { brick ≤ length self.now.bricks }
        requires width { length vector.now ≡ self.now.link.cols }
        ensures { OfBrick self.now brick (λ b. result ≡ is_within b vector.now) }
    {
        is_at_most(self.lower_row(brick), vector) && is_at_most(vector, self.upper_row(brick))
    }

    /// How far the vector is from meeting the rows of a brick: the sum over its rows of what their right sides differ
    /// from their products with the vector, which has `t` entries, whatever they are.
    pub fn residual(&self, brick: u32, vector: &[i64]) -> u128
        requires from { 1 ≤ brick }
        requires to { brick ≤ length self.now.bricks }
        requires width { length vector.now ≡ self.now.link.cols }
        ensures value { OfBrick self.now brick (λ b. result ≡ brick_residual self.now b vector.now) }
        ensures small { result ≤ 2 ^ 104 }
    {
        residual_of(&self.brick, self.right_row(brick), vector)
    }
}

/// Whether each entry of the one is at most that of the other at its place.
fn is_at_most(low: &[i64], high: &[i64]) -> bool
    requires { length low.now ≡ length high.now }
    ensures { result ≡ all_zip int_le low.now high.now }
{
    for (a, b) in low.iter().zip(high) {
        if *a > *b {
            return false;
        }
    }
    true
}

/// The sum over the rows of what the right side differs from the product with the vector.
fn residual_of(matrix: &Matrix, right: &[i64], vector: &[i64]) -> u128
    requires rights { length right.now ≡ length matrix.now.rows }
    requires few { length right.now ≤ 16 }
    requires width { length vector.now ≤ 32 }
    requires narrow { All IsNarrow matrix.now.rows }
    ensures value { result ≡ norm1 (sub right.now (product matrix.now vector.now)) }
    ensures small { result ≤ 2 ^ 104 }
{
    let mut residual = 0;
    for (at, right) in right.iter().enumerate() {
        residual += missed(*right, matrix.row(at as u32 + 1), vector);
    }
    residual
}

/// How far the product of the row and the vector is from the right side.
fn missed(right: i64, row: &[i64], vector: &[i64]) -> u128
    requires width { length vector.now ≤ 32 }
    requires narrow { IsNarrow row.now }
    ensures value { result ≡ unsigned_abs (right -ℤ dot row.now vector.now) }
    ensures small { result ≤ 2 ^ 100 }
{
    let mut rest = i128::from(right);
    for (a, x) in row.iter().zip(vector) {
        rest -= times(*a, *x);
    }
    rest.unsigned_abs()
}

/// The product of an entry of the matrix and one of the vector.
fn times(a: i64, x: i64) -> i128
    requires { unsigned_abs a < 2 ^ 31 }
    ensures value { result ≡ a *ℤ x }
    ensures small { unsigned_abs result ≤ 2 ^ 94 }
{
    i128::from(a) * i128::from(x)
}
