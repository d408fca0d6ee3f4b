//! A convex cost with the bounds on which it is accepted.
#![tactic(auto)]

ghost use Rattle.std.specs.Prelude.{◌≡◌, ◌<◌, ◌≤◌, ◌≤ℤ◌, ◌^◌, None, Some, IsTrue, IfOk, IfErr, OnOk, IfSome, IfNone};
ghost use Rattle.std.specs.Prelude.{unsigned_abs};
ghost use Rattle.lattice_theory.specs.Vectors.{is_bounded};
ghost use Rattle.fold_theory.specs.Costs as costs;
ghost use Rattle.convex_costs.specs.Faults as faults;
ghost use Rattle.convex_costs.specs.Bounds.{AreBounded};

use crate::fault::CostFault;
use crate::lines::{greatest_value, points_fault, value_on_lines};
use crate::quadratic::{quadratic, quadratic_magnitude};
use fold_theory::Cost;
use std::marker::Model;

/// No accepted cost is larger than this in absolute value.
const LARGEST: u128 = 1 << 120;

/// The cost of one coordinate with the bounds of that coordinate, accepted on them: it is convex there, whole at
/// whole places, and at most `2^120` in absolute value.
#[derive(Debug, Drop)]
pub struct BoundCost {
    cost: Cost,
    lower: i64,
    upper: i64,
    magnitude: u128,
}

impl Model for BoundCost {
    ghost use Rattle.std.specs.Prelude.{◌≡◌};
    ghost use Rattle.fold_theory.specs.Costs as costs;
    ghost use Rattle.fold_theory.specs.Costs.{BoundedCost};
    ghost use Rattle.convex_costs.specs.Bounds.{IsAccepted};

    ghost Value = { BoundedCost };

    ghost view = { λ b. record { cost = b.cost; lower = b.lower; upper = b.upper } };

    ghost invariant = { λ b. IsAccepted b.cost b.lower b.upper × (b.magnitude ≡ costs.magnitude b.cost b.lower
        b.upper) };
}

impl BoundCost {
    /// The cost on the bounds `lower` to `upper`, where it has none of the faults. What is refused is dropped.
    /// Nothing is allocated.
    ///
    /// There are 1 to 1,000 breakpoints, and all numbers are within `2^62`. The first fault in the order of
    /// `CostFault` counts.
    pub fn new(cost: Cost, lower: i64, upper: i64) -> Result<BoundCost, CostFault>
        requires order { lower ≤ℤ upper }
        requires low { IsTrue (is_bounded lower) }
        requires high { IsTrue (is_bounded upper) }
        requires numbers { AreBounded cost }
        ensures made { IfOk result (λ b. b ≡ record { cost = cost; lower = lower; upper = upper }) }
        ensures accepted { OnOk result (faults.cost_fault cost lower upper ≡ None) }
        ensures convex { OnOk result (costs.IsConvexOn (costs.value cost) lower upper) }
        ensures refused { IfErr result (λ fault. faults.cost_fault cost lower upper ≡ Some fault) }
    {
        if let Some(fault) = shape_fault(&cost, lower, upper) {
            return Err(fault);
        }
        match bounded_magnitude(&cost, lower, upper) {
            None => Err(CostFault::TooLarge),
            Some(magnitude) => Ok(BoundCost {
                cost,
                lower,
                upper,
                magnitude,
            }),
        }
    }

    /// The cost at `v`, which lies within the bounds. Its second differences there are never negative.
    pub fn value(&self, v: i64) -> i128
        requires low { self.now.lower ≤ℤ v }
        requires high { v ≤ℤ self.now.upper }
        ensures value { result ≡ costs.value self.now.cost v }
        ensures small { unsigned_abs result ≤ costs.magnitude self.now.cost self.now.lower self.now.upper }
        ensures convex { costs.IsConvexOn (costs.value self.now.cost) self.now.lower self.now.upper }
    {
        match &self.cost {
            Cost::Quadratic { a, b, c } => quadratic(*a, *b, *c, v),
            Cost::Points(points) => value_on_lines(points.as_slice(), v),
        }
    }

    /// A bound on the absolute value of the cost within the bounds: `a·m² + |b|·m + |c|` for a quadratic cost,
    /// where `m` is the greater absolute bound, and the greatest absolute value of a breakpoint otherwise.
    pub fn magnitude(&self) -> u128
        ensures value { result ≡ costs.magnitude self.now.cost self.now.lower self.now.upper }
        ensures small { result ≤ 2 ^ 120 }
    {
        self.magnitude
    }

    /// The lower bound.
    pub fn lower(&self) -> i64
        ensures { result ≡ self.now.lower }
    {
        self.lower
    }

    /// The upper bound.
    pub fn upper(&self) -> i64
        ensures { result ≡ self.now.upper }
    {
        self.upper
    }

    /// The cost without its bounds.
    pub fn cost(&self) -> &Cost
        ensures { result.now ≡ self.now.cost }
    {
        &self.cost
    }
}

/// The first fault, but for the magnitude.
fn shape_fault(cost: &Cost, lower: i64, upper: i64) -> Option<CostFault>
    requires { AreBounded cost.now }
    ensures { result ≡ faults.shape_fault cost.now lower upper }
{
    match cost {
        Cost::Quadratic { a, .. } if *a < 0 => Some(CostFault::NotConvex { at: 0 }),
        Cost::Quadratic { .. } => None,
        Cost::Points(points) => points_fault(points.as_slice(), lower, upper),
    }
}

/// The magnitude, where it is at most `LARGEST`.
fn bounded_magnitude(cost: &Cost, lower: i64, upper: i64) -> Option<u128>
    requires low { IsTrue (is_bounded lower) }
    requires high { IsTrue (is_bounded upper) }
    requires numbers { AreBounded cost.now }
    ensures fits { IfSome result (λ m. (m ≡ costs.magnitude cost.now lower upper) × (m ≤ 2 ^ 120)) }
    ensures large { IfNone result (2 ^ 120 < costs.magnitude cost.now lower upper) }
{
    let magnitude = match cost {
        Cost::Quadratic { a, b, c } => {
            let widest = lower.unsigned_abs().max(upper.unsigned_abs());
            quadratic_magnitude(*a, *b, *c, widest)?
        }
        Cost::Points(points) => greatest_value(points.as_slice()),
    };
    if magnitude <= LARGEST {
        Some(magnitude)
    } else {
        None
    }
}

#[cfg(test)]
mod tests;
