//! What a point costs, what it leaves and misses of the linking rows, and the widest bounds.

ghost use Rattle.std.specs.Prelude.{◌≡◌, ◌≤◌, ◌-◌, ◌^◌, ◌-ℤ◌, ◌≤ℤ◌, Some, All, IfOk, length, map, sum_by};
ghost use Rattle.std.specs.Prelude.{slice_get, unsigned_abs};
ghost use Rattle.std.specs.List.{AllZip};
ghost use Rattle.lattice_theory.specs.Lists.{greatest, zip_with, sum_zip};
ghost use Rattle.fold_theory.specs.Costs.{value, magnitude};
ghost use Rattle.fold_theory.specs.Programs.{AreWithin, IsWithin, brick_cost, cost, dist, link_miss, link_rests};
ghost use Rattle.fold_theory.specs.Programs.{widest};
ghost use Rattle.fold_program.specs.Points.{HasPointShape};
ghost use Rattle.fold_program.specs.Refusals.{brick_magnitude};
ghost use Rattle.fold_program.specs.Places.{ForBrick, OfBrick, OfColumn, OfRow};
ghost use Rattle.fold_program.specs.Bounds.{AreCostsOf, cost_magnitude};

use crate::point::Point;
use crate::program::Program;
use convex_costs::BoundCost;
use fold_theory::Relation;
use int_vectors::dot;
use std::alloc::{AllocError, Global};

impl Program {
    /// The right side of a linking row less the sum over all bricks of that row's product with the point: at most
    /// `2^113` in absolute value.
    pub fn rest(&self, p: &Point, row: u32) -> i128
        requires shape { HasPointShape self.now p.now }
        requires from { 1 ≤ row }
        requires to { row ≤ length self.now.link.rows }
        ensures rest { slice_get (link_rests self.now p.now) (row - 1) ≡ Some result }
        ensures small { unsigned_abs result ≤ 2 ^ 113 }
    {
        let coefficients = self.link.row(row);
        let mut rest = i128::from(self.right_link(row));
        for brick in 1..=self.n() {
            rest -= dot(coefficients, p.brick(brick));
        }
        rest
    }

    /// The rests of all linking rows, in order, each at most `2^113` in absolute value. An error comes only where
    /// memory runs out.
    pub fn rests(&self, alloc: Global, p: &Point) -> Result<Vec<i128>, AllocError>
        requires shape { HasPointShape self.now p.now }
        ensures rests { IfOk result (λ rests. rests.items ≡ link_rests self.now p.now) }
        ensures count { IfOk result (λ rests. length rests.items ≡ length self.now.link.rows) }
        ensures small { IfOk result (λ rests. All (λ rest. unsigned_abs rest ≤ 2 ^ 113) rests.items) }
    {
        prove!(self.n() > 0);
        let mut rests = Vec::with_capacity(alloc, self.r() as usize)?;
        for row in 0..self.r() {
            rests.push(self.rest(p, row + 1))?;
        }
        Ok(rests)
    }

    /// What a linking row misses where its right side less its sum is this rest: nothing where it is met, and else
    /// what it takes to bring its sum to its right side.
    pub fn missed(&self, row: u32, rest: i128) -> u128
        requires from { 1 ≤ row }
        requires to { row ≤ length self.now.link.rows }
        ensures missed { OfRow self.now row (λ relation. result ≡ dist relation rest) }
        ensures small { result ≤ unsigned_abs rest }
    {
        missed_by(self.relation(row), rest)
    }

    /// What the point misses of the linking rows, in all: at most `2^117`. It is 0 exactly where each of them is met.
    pub fn link_residual(&self, p: &Point) -> u128
        requires shape { HasPointShape self.now p.now }
        ensures residual { result ≡ link_miss self.now (link_rests self.now p.now) }
        ensures small { result ≤ 2 ^ 117 }
    {
        let mut residual = 0;
        for row in 1..=self.r() {
            residual += self.missed(row, self.rest(p, row));
        }
        residual
    }

    /// The greatest difference of an upper and a lower bound: at most `2^63`.
    pub fn widest(&self) -> u64
        ensures widest { result ≡ widest self.now }
        ensures small { result ≤ 2 ^ 63 }
    {
        widest_of(self.lower.entries(), self.upper.entries())
    }

    /// The cost of one column at `v`, which lies within the column's bounds: at most the cost's magnitude in absolute
    /// value.
    pub fn cost_at(&self, brick: u32, col: u32, v: i64) -> i128
        requires within { OfColumn self.now brick col (λ lower upper _. (lower ≤ℤ v) × (v ≤ℤ upper)) }
        requires from { 1 ≤ brick }
        requires left { 1 ≤ col }
        ensures cost { OfColumn self.now brick col (λ _ _ cost. result ≡ value cost v) }
        ensures small { OfColumn self.now brick col
            (λ lower upper cost. unsigned_abs result ≤ magnitude cost lower upper) }
    {
        self.costs_of(brick)[col as usize - 1].value(v)
    }

    /// The cost of a brick at a vector within its bounds: at most the magnitude of the brick's costs in absolute value.
    pub fn brick_cost(&self, brick: u32, vector: &[i64]) -> i128
        requires from { 1 ≤ brick }
        requires to { brick ≤ length self.now.bricks }
        requires within { ForBrick self.now brick (λ b. IsWithin b vector.now) }
        ensures cost { OfBrick self.now brick (λ b. result ≡ brick_cost b vector.now) }
        ensures small { OfBrick self.now brick (λ b. unsigned_abs result ≤ brick_magnitude b) }
    {
        prove!(brick <= self.n());
        cost_of(self.costs_of(brick), vector)
    }

    /// The cost of the point, which lies within the bounds: the sum over all bricks and columns, at most `2^120` in
    /// absolute value.
    pub fn cost(&self, p: &Point) -> i128
        requires within { AreWithin self.now.bricks p.now }
        ensures cost { result ≡ cost self.now p.now }
        ensures small { unsigned_abs result ≤ 2 ^ 120 }
    {
        let _ = &self.costs;
        let mut cost = 0;
        for brick in 1..=self.n() {
            cost += cost_of(self.costs_of(brick), p.brick(brick));
        }
        cost
    }

    /// The costs of a brick, with their bounds.
    fn costs_of(&self, brick: u32) -> &[BoundCost]
        requires from { 1 ≤ brick }
        requires to { brick ≤ length self.now.bricks }
        ensures costs { OfBrick self.now brick (λ b. AreCostsOf b result.now) }
        ensures width { length result.now ≡ self.now.link.cols }
    {
        let cols = self.link.cols() as usize;
        let from = (brick as usize - 1) * cols;
        &self.costs[from..from + cols]
    }
}

/// How far a row of this relation is from being met, where its right side less its sum is this rest.
fn missed_by(relation: Relation, rest: i128) -> u128
    ensures missed { result ≡ dist relation rest }
    ensures small { result ≤ unsigned_abs rest }
{
    match relation {
        Relation::Equal => rest.unsigned_abs(),
        Relation::Less if rest < 0 => rest.unsigned_abs(),
        Relation::Greater if rest > 0 => rest.unsigned_abs(),
        Relation::Less | Relation::Greater => 0,
    }
}

/// The greatest difference of the entries at one place.
fn widest_of(lower: &[i64], upper: &[i64]) -> u64
    ensures { result ≡ greatest (zip_with (λ l u. unsigned_abs (u -ℤ l)) lower.now upper.now) }
{
    let mut widest = 0;
    for (low, high) in lower.iter().zip(upper) {
        widest = high.abs_diff(*low).max(widest);
    }
    widest
}

/// The sum of the costs at the entries of the vector, which lie within their bounds.
fn cost_of(costs: &[BoundCost], vector: &[i64]) -> i128
    requires within { AllZip (λ c a. (c.lower ≤ℤ a) × (a ≤ℤ c.upper)) costs.now vector.now }
    requires few { sum_by cost_magnitude costs.now ≤ 2 ^ 120 }
    ensures cost { result ≡ sum_zip value (map (λ c. c.cost) costs.now) vector.now }
    ensures small { unsigned_abs result ≤ sum_by cost_magnitude costs.now }
{
    let mut sum = 0;
    for (at, cost) in costs.iter().enumerate() {
        sum += cost.value(vector[at]);
    }
    sum
}
