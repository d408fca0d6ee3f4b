//! What a point breaks: the bounds first, then the rows of the bricks, then the linking rows.

ghost use Rattle.std.specs.Prelude.{◌≡◌, ◌≤◌, ◌*◌, ◌^◌, length, map, nat_eq, unsigned_abs, IfSome, IfNone, All};
ghost use Rattle.std.specs.Prelude.{OnSome, ◌-ℤ◌};
ghost use Rattle.lattice_theory.specs.Vectors.{sub, IsBoundedRow};
ghost use Rattle.lattice_theory.specs.Matrices.{product};
ghost use Rattle.lattice_theory.specs.BasisLimits.{IsNarrow};
ghost use Rattle.fold_theory.specs.Programs.{IsFeasible, brick_rests, link_rests, link_misses};
ghost use Rattle.fold_theory.specs.Breaks.{bound_breaks, row_breaks, over_bricks, first_of, first_break};
ghost use Rattle.fold_program.specs.Points.{HasPointShape};

use crate::point::Point;
use crate::program::Program;
use fold_theory::Broken;
use int_vectors::dot;
use mat_files::Matrix;

impl Program {
    /// The first thing that the point breaks: a bound, brick by brick and column by column; else a row of a brick;
    /// else a linking row. None exactly where the point is feasible. The point has a vector of `t` entries for each
    /// brick.
    pub fn broken(&self, p: &Point) -> Option<Broken>
        requires shape { HasPointShape self.now p.now }
        ensures first { result ≡ first_break self.now p.now }
        ensures none { IfNone result (IsFeasible self.now p.now) }
        ensures some { OnSome result (¬ IsFeasible self.now p.now) }
    {
        // that the parts fit each other is what makes a point feasible that breaks nothing
        let _ = &self.link;
        self.first_broken(p)
    }

    /// The first thing that the point breaks.
    fn first_broken(&self, p: &Point) -> Option<Broken>
        requires shape { HasPointShape self.now p.now }
        ensures { result ≡ first_break self.now p.now }
    {
        if let Some(broken) = self.broken_bound(p) {
            return Some(broken);
        }
        if let Some(broken) = self.missed_brick_row(p) {
            return Some(broken);
        }
        self.missed_link_row(p)
    }

    /// The first bound that the point breaks.
    fn broken_bound(&self, p: &Point) -> Option<Broken>
        requires shape { HasPointShape self.now p.now }
        ensures { result ≡ first_of (over_bricks (λ i b v. bound_breaks i 1 b.lower b.upper v) 1 self.now.bricks
            p.now) }
    {
        for brick in 1..=self.n() {
            let (lower, upper) = (self.lower_row(brick), self.upper_row(brick));
            if let Some(broken) = broken_bound_of(brick, lower, upper, p.brick(brick)) {
                return Some(broken);
            }
        }
        None
    }

    /// The first brick row that the point misses.
    fn missed_brick_row(&self, p: &Point) -> Option<Broken>
        requires shape { HasPointShape self.now p.now }
        ensures { result ≡ first_of (over_bricks (λ i b v. row_breaks (Broken.BrickRow i) 1 (map unsigned_abs
            (brick_rests self.now b v))) 1 self.now.bricks p.now) }
    {
        for brick in 1..=self.n() {
            let right = self.right_row(brick);
            if let Some(broken) = missed_row_of(brick, &self.brick, right, p.brick(brick)) {
                return Some(broken);
            }
        }
        None
    }

    /// The first linking row that the point misses.
    fn missed_link_row(&self, p: &Point) -> Option<Broken>
        requires shape { HasPointShape self.now p.now }
        ensures { result ≡ first_of (row_breaks Broken.LinkRow 1 (link_misses self.now (link_rests self.now p.now))) }
    {
        for row in 1..=self.r() {
            if self.missed(row, self.rest(p, row)) != 0 {
                return Some(Broken::LinkRow { row });
            }
        }
        None
    }
}

/// The first bound that the vector of this brick breaks.
fn broken_bound_of(brick: u32, lower: &[i64], upper: &[i64], vector: &[i64]) -> Option<Broken>
    requires lowers { length lower.now ≡ length vector.now }
    requires uppers { length upper.now ≡ length vector.now }
    requires few { length vector.now ≤ 32 }
    ensures { result ≡ first_of (bound_breaks brick 1 lower.now upper.now vector.now) }
{
    for (at, entry) in vector.iter().enumerate() {
        let col = at as u32 + 1;
        if *entry < lower[at] {
            return Some(Broken::Below { brick, col });
        }
        if *entry > upper[at] {
            return Some(Broken::Above { brick, col });
        }
    }
    None
}

/// The first row of the matrix whose product with the vector is not its right side.
fn missed_row_of(brick: u32, matrix: &Matrix, right: &[i64], vector: &[i64]) -> Option<Broken>
    requires rights { length right.now ≡ length matrix.now.rows }
    requires few { length right.now ≤ 16 }
    requires cols { length vector.now ≡ matrix.now.cols }
    requires width { length vector.now ≤ 32 }
    requires narrow { All IsNarrow matrix.now.rows }
    requires bounded { IsBoundedRow vector.now }
    ensures { result ≡ first_of (row_breaks (Broken.BrickRow brick) 1 (map unsigned_abs (sub right.now
        (product matrix.now vector.now)))) }
{
    for (at, right) in right.iter().enumerate() {
        let row = at as u32 + 1;
        if !is_met(*right, dot(matrix.row(row), vector)) {
            return Some(Broken::BrickRow { brick, row });
        }
    }
    None
}

/// Whether a row with this right side and this product is met.
fn is_met(right: i64, product: i128) -> bool
    ensures { result ≡ nat_eq (unsigned_abs (right -ℤ product)) 0 }
{
    product == i128::from(right)
}
