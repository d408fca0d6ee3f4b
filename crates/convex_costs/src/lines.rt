//! Costs that are linear between neighbouring breakpoints.
#![tactic(auto)]

ghost use Rattle.std.specs.Prelude.{◌≡◌, ◌^◌, ◌<◌, ◌≤◌, ◌<ℤ◌, ◌+ℤ◌, ◌-ℤ◌, ◌*ℤ◌, unsigned_abs, map, None, length};
ghost use Rattle.lattice_theory.specs.Lists.{greatest};
ghost use Rattle.fold_theory.specs.Costs as costs;
ghost use Rattle.convex_costs.specs.Faults as faults;
ghost use Rattle.convex_costs.specs.Bounds.{IsBoundedPoint, AreBoundedPoints};

use crate::fault::CostFault;
use fold_theory::Breakpoint;

/// Why breakpoints are refused from `lower` to `upper`, if they are, but for their magnitude.
pub(crate) fn points_fault(points: &[Breakpoint], lower: i64, upper: i64) -> Option<CostFault>
    requires { AreBoundedPoints points.now }
    ensures { result ≡ faults.points_fault points.now lower upper }
{
    if let Some(at) = first_not_rising(points) {
        return Some(CostFault::NotRising { at });
    }
    if let Some(at) = first_broken_slope(points) {
        return Some(CostFault::SlopeNotWhole { at });
    }
    if let Some(at) = first_bend(points) {
        return Some(CostFault::NotConvex { at });
    }
    if !reaches(points, lower, upper) {
        return Some(CostFault::NotCovered);
    }
    None
}

/// The value at `v`, which lies between the first and the last breakpoint.
pub(crate) fn value_on_lines(points: &[Breakpoint], v: i64) -> i128
    requires numbers { AreBoundedPoints points.now }
    requires rising { faults.first_failing faults.is_right 1 points.now ≡ None }
    ensures { result ≡ costs.on_lines points.now v }
{
    let next = points.partition_point(|p| p.at < v).max(1);
    if next < points.len() {
        value_on_line(points[next - 1], points[next], v)
    } else {
        points[points.len() - 1].value as i128
    }
}

/// The greatest absolute value at a breakpoint.
pub(crate) fn greatest_value(points: &[Breakpoint]) -> u128
    ensures { result ≡ greatest (map (λ p. unsigned_abs p.value) points.now) }
{
    let mut most = 0;
    for p in points {
        most = p.value.unsigned_abs().max(most);
    }
    most as u128
}

/// The number of the first breakpoint that is not right of the one before.
fn first_not_rising(points: &[Breakpoint]) -> Option<u32>
    requires { length points.now ≤ 1000 }
    ensures { result ≡ faults.first_failing faults.is_right 1 points.now }
{
    for at in 1..points.len() {
        if points[at - 1].at >= points[at].at {
            return Some(at as u32 + 1);
        }
    }
    None
}

/// The number of the first breakpoint at which a slope ends that is no whole number.
fn first_broken_slope(points: &[Breakpoint]) -> Option<u32>
    requires numbers { AreBoundedPoints points.now }
    requires rising { faults.first_failing faults.is_right 1 points.now ≡ None }
    ensures { result ≡ faults.first_failing faults.has_whole_slope 1 points.now }
{
    for at in 1..points.len() {
        if !has_whole_slope(points[at - 1], points[at]) {
            return Some(at as u32 + 1);
        }
    }
    None
}

/// The number of the first breakpoint at which a slope ends that is less than the one before.
fn first_bend(points: &[Breakpoint]) -> Option<u32>
    requires numbers { AreBoundedPoints points.now }
    requires rising { faults.first_failing faults.is_right 1 points.now ≡ None }
    ensures { result ≡ faults.first_bend 1 points.now }
{
    for at in 2..points.len() {
        let before = slope(points[at - 2], points[at - 1]);
        if slope(points[at - 1], points[at]) < before {
            return Some(at as u32 + 1);
        }
    }
    None
}

/// Tests that no place from `lower` to `upper` is left of the first or right of the last breakpoint.
fn reaches(points: &[Breakpoint], lower: i64, upper: i64) -> bool
    requires { length points.now ≤ 1000 }
    ensures { result ≡ faults.covers points.now lower upper }
{
    match points {
        [] => false,
        [first, ..] => first.at <= lower && upper <= points[points.len() - 1].at,
    }
}

/// Tests that the slope of the line from one breakpoint to the next is a whole number.
fn has_whole_slope(p: Breakpoint, q: Breakpoint) -> bool
    requires order { p.at <ℤ q.at }
    ensures { result ≡ faults.has_whole_slope p q }
{
    let rise = difference(q.value, p.value);
    let run = difference(q.at, p.at);
    rise % run == 0
}

/// The slope of the line from one breakpoint to the next, rounded toward 0.
fn slope(p: Breakpoint, q: Breakpoint) -> i128
    requires order { p.at <ℤ q.at }
    ensures slope { result ≡ costs.slope p q }
    ensures small { unsigned_abs result ≤ unsigned_abs (q.value -ℤ p.value) }
{
    let rise = difference(q.value, p.value);
    let run = difference(q.at, p.at);
    rise / run
}

/// The value at `v` on the line from one breakpoint to the next.
fn value_on_line(p: Breakpoint, q: Breakpoint, v: i64) -> i128
    requires order { p.at <ℤ q.at }
    requires left { IsBoundedPoint p }
    requires right { IsBoundedPoint q }
    ensures { result ≡ p.value +ℤ costs.slope p q *ℤ (v -ℤ p.at) }
{
    let slope = slope(p, q);
    let run = difference(v, p.at);
    p.value as i128 + slope * run
}

/// `a - b`.
fn difference(a: i64, b: i64) -> i128
    ensures value { result ≡ a -ℤ b }
    ensures small { unsigned_abs result < 2 ^ 64 }
{
    a as i128 - b as i128
}
