//! The program and its readers.

mod acceptance;
mod breaks;
mod bricks;
mod sums;

ghost use Rattle.std.specs.Prelude.{◌≡◌, ◌≤◌, ◌-◌, ◌*◌, ◌^◌, Some, length, slice_get, All, IfSome, map};
ghost use Rattle.lattice_theory.specs.BasisLimits.{IsNarrow};
ghost use Rattle.fold_theory.specs.Programs.{IsProgram};
ghost use Rattle.lattice_theory.specs.Vectors.{IsBoundedRow};
ghost use Rattle.fold_program.specs.Parts.{related};
ghost use Rattle.fold_program.specs.Refusals.{total_magnitude};
ghost use Rattle.fold_program.specs.Places.{OfBrick, HasBoundedSides};

use convex_costs::BoundCost;
use fold_theory::Relation;
use mat_files::Matrix;
use std::marker::Model;

/// An n-fold program: `n` bricks of `t` columns with one matrix of `s` rows for each, `r` linking rows over all, each
/// with its relation, and a lower bound, an upper bound and a convex cost for each column of each brick. Bricks,
/// columns and rows are numbered from 1.
#[derive(Debug, Drop)]
pub struct Program {
    link: Matrix,
    brick: Matrix,
    lower: Matrix,
    upper: Matrix,
    right: Matrix,
    costs: Vec<BoundCost>,
    relations: Vec<Relation>,
}

impl Model for Program {
    ghost use Rattle.fold_theory.specs.Programs as programs;

    ghost Value = { programs.Program };

    ghost use Rattle.fold_program.specs.Kept.{kept_program, IsKept};

    ghost view = { kept_program };

    ghost invariant = { IsKept };
}

impl Program {
    /// How many bricks there are: 1 to 10,000. The parts fit each other, no bounds cross, each bound is at most
    /// `2^62` in absolute value, each cost is convex on its bounds, and the magnitudes of all costs add up to at most
    /// `2^120`.
    pub fn n(&self) -> u32
        ensures bricks { result ≡ length self.now.bricks }
        ensures from { 1 ≤ result }
        ensures to { result ≤ 10000 }
        ensures program { IsProgram self.now }
        ensures magnitude { total_magnitude self.now ≤ 2 ^ 120 }
        ensures bounded { All HasBoundedSides self.now.bricks }
    {
        self.lower.rows()
    }

    /// How many columns each brick has: 1 to 32.
    pub fn t(&self) -> u32
        ensures cols { result ≡ self.now.link.cols }
        ensures brick_cols { result ≡ self.now.brick.cols }
        ensures from { 1 ≤ result }
        ensures to { result ≤ 32 }
    {
        self.link.cols()
    }

    /// How many linking rows there are: 0 to 16.
    pub fn r(&self) -> u32
        ensures rows { result ≡ length self.now.link.rows }
        ensures to { result ≤ 16 }
    {
        self.link.rows()
    }

    /// How many rows each brick has: 0 to 16.
    pub fn s(&self) -> u32
        ensures rows { result ≡ length self.now.brick.rows }
        ensures to { result ≤ 16 }
    {
        self.brick.rows()
    }

    /// The program with these relations in place of its own, one for each linking row. No memory is taken.
    pub fn with_relations(mut self, relations: Vec<Relation>) -> Program
        requires { length relations.items ≡ length self.link.rows }
        ensures { result ≡ related relations.items self }
    {
        self.relations = relations;
        self
    }

    /// The relation of a linking row: what its sum has to be, seen from its right side.
    pub fn relation(&self, row: u32) -> Relation
        requires from { 1 ≤ row }
        requires to { row ≤ length self.now.link.rows }
        ensures { slice_get self.now.relations (row - 1) ≡ Some result }
    {
        self.relations[row as usize - 1]
    }

    /// The relations of the linking rows, in their order.
    pub fn relations(&self) -> &[Relation]
        ensures relations { result.now ≡ self.now.relations }
        ensures size { length result.now ≡ length self.now.link.rows }
    {
        &self.relations
    }

    /// The linking matrix, whose entries are at most `2^31 - 1` in absolute value.
    pub fn link(&self) -> &Matrix
        ensures link { result.now ≡ self.now.link }
        ensures narrow { All IsNarrow self.now.link.rows }
    {
        &self.link
    }

    /// The matrix of all bricks, whose entries are at most `2^31 - 1` in absolute value.
    pub fn brick(&self) -> &Matrix
        ensures brick { result.now ≡ self.now.brick }
        ensures narrow { All IsNarrow self.now.brick.rows }
    {
        &self.brick
    }

    /// The lower bound of a column.
    pub fn lower(&self, brick: u32, col: u32) -> i64
        requires from { 1 ≤ brick }
        requires to { brick ≤ length self.now.bricks }
        requires left { 1 ≤ col }
        requires right { col ≤ self.now.link.cols }
        ensures { OfBrick self.now brick (λ b. slice_get b.lower (col - 1) ≡ Some result) }
    {
        self.lower.entry(brick, col)
    }

    /// The upper bound of a column.
    pub fn upper(&self, brick: u32, col: u32) -> i64
        requires from { 1 ≤ brick }
        requires to { brick ≤ length self.now.bricks }
        requires left { 1 ≤ col }
        requires right { col ≤ self.now.link.cols }
        ensures { OfBrick self.now brick (λ b. slice_get b.upper (col - 1) ≡ Some result) }
    {
        self.upper.entry(brick, col)
    }

    /// The right side of a linking row.
    pub fn right_link(&self, row: u32) -> i64
        requires from { 1 ≤ row }
        requires to { row ≤ length self.now.link.rows }
        ensures { slice_get self.now.link_right (row - 1) ≡ Some result }
    {
        self.right.entry(1, row)
    }

    /// The right side of a row of a brick.
    pub fn right_brick(&self, brick: u32, row: u32) -> i64
        requires from { 1 ≤ brick }
        requires to { brick ≤ length self.now.bricks }
        requires above { 1 ≤ row }
        requires below { row ≤ length self.now.brick.rows }
        ensures { OfBrick self.now brick (λ b. slice_get b.right (row - 1) ≡ Some result) }
    {
        self.right_row(brick)[row as usize - 1]
    }

    /// The lower bounds of a brick, column by column: at most `2^62` in absolute value.
    pub fn lower_row(&self, brick: u32) -> &[i64]
        requires from { 1 ≤ brick }
        requires to { brick ≤ length self.now.bricks }
        ensures bounds { OfBrick self.now brick (λ b. result.now ≡ b.lower) }
        ensures width { length result.now ≡ self.now.link.cols }
        ensures few { length result.now ≤ 32 }
        ensures bounded { IsBoundedRow result.now }
    {
        self.lower.row(brick)
    }

    /// The upper bounds of a brick, column by column: at most `2^62` in absolute value.
    pub fn upper_row(&self, brick: u32) -> &[i64]
        requires from { 1 ≤ brick }
        requires to { brick ≤ length self.now.bricks }
        ensures bounds { OfBrick self.now brick (λ b. result.now ≡ b.upper) }
        ensures width { length result.now ≡ self.now.link.cols }
        ensures bounded { IsBoundedRow result.now }
    {
        self.upper.row(brick)
    }

    /// The right sides of a brick, row by row.
    pub fn right_row(&self, brick: u32) -> &[i64]
        requires from { 1 ≤ brick }
        requires to { brick ≤ length self.now.bricks }
        ensures rights { OfBrick self.now brick (λ b. result.now ≡ b.right) }
        ensures height { length result.now ≡ length self.now.brick.rows }
    {
        let rows = self.brick.rows() as usize;
        let from = self.link.rows() as usize + (brick as usize - 1) * rows;
        &self.right.row(1)[from..from + rows]
    }
}

#[cfg(test)]
mod tests;
