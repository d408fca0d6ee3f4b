//! Costs worked by hand.

ghost use Rattle.std.specs.Prelude.{◌≡◌};
ghost use Rattle.fold_theory.specs.declared.Cost.TheVariants.{Quadratic, Points};

use crate::{BoundCost, Breakpoint, Breakpoints, Cost, CostFault};
use std::rt::HostRuntime;

fn point(at: i64, value: i64) -> Breakpoint
    ensures { result ≡ record { at = at; value = value } }
{
    Breakpoint { at, value }
}

fn lines(points: Vec<Breakpoint>) -> Cost
    ensures { result ≡ Points points.items }
{
    Cost::Points(Breakpoints::from_vec(points))
}

fn quadratic(a: i64, b: i64, c: i64) -> Cost
    ensures { result ≡ Quadratic a b c }
{
    Cost::Quadratic { a, b, c }
}

/// What may go to other threads, and be read by several.
fn is_shared<T: Send + Sync>(_value: &T) -> bool {
    true
}

#[test]
fn a_cost_by_breakpoints_is_linear_between_them(rt: HostRuntime) {
    let points = vec![in rt.alloc(); point(0, 0), point(2, 2), point(4, 8)].expect(&rt, "memory");
    let cost = BoundCost::new(lines(points), 0, 4).unwrap();
    for (v, value) in [(0, 0), (1, 1), (2, 2), (3, 5), (4, 8)] {
        assert_eq!(rt; cost.value(v), value, "at {v}");
    }
    assert_eq!(rt; cost.magnitude(), 8);
}

#[test]
fn a_quadratic_cost_keeps_its_bounds(rt: HostRuntime) {
    let cost = BoundCost::new(quadratic(2, -3, 5), -4, 3).unwrap();
    for (v, value) in [(-4, 49), (0, 5), (1, 4), (3, 14)] {
        assert_eq!(rt; cost.value(v), value, "at {v}");
    }
    assert_eq!(rt; (cost.lower(), cost.upper(), cost.magnitude()), (-4, 3, 49));
    assert!(rt; matches!(cost.cost(), Cost::Quadratic { a: 2, b: -3, c: 5 }));
    assert!(rt; is_shared(&cost));
}

#[test]
fn a_single_place_may_have_any_cost(rt: HostRuntime) {
    let points = vec![in rt.alloc(); point(7, -1)].expect(&rt, "memory");
    let cost = BoundCost::new(lines(points), 7, 7).unwrap();
    assert_eq!(rt; (cost.value(7), cost.magnitude()), (-1, 1));
}

#[test]
fn the_first_fault_of_breakpoints_is_named(rt: HostRuntime) {
    let alloc = rt.alloc();
    let falls = lines(vec![in alloc; point(2, 0), point(1, 1)].expect(&rt, "memory"));
    assert_eq!(rt;
        BoundCost::new(falls, 1, 2).err(),
        Some(CostFault::NotRising { at: 2 })
    );
    let half = lines(vec![in alloc; point(0, 0), point(2, 3)].expect(&rt, "memory"));
    assert_eq!(rt;
        BoundCost::new(half, 0, 2).err(),
        Some(CostFault::SlopeNotWhole { at: 2 })
    );
    let negative = lines(vec![in alloc; point(0, 0), point(2, -3)].expect(&rt, "memory"));
    assert_eq!(rt;
        BoundCost::new(negative, 0, 2).err(),
        Some(CostFault::SlopeNotWhole { at: 2 })
    );
    let bent = lines(vec![in alloc; point(0, 0), point(1, 2), point(2, 3)].expect(&rt, "memory"));
    assert_eq!(rt;
        BoundCost::new(bent, 0, 2).err(),
        Some(CostFault::NotConvex { at: 3 })
    );
    let short = lines(vec![in alloc; point(0, 0), point(2, 2)].expect(&rt, "memory"));
    assert_eq!(rt;
        BoundCost::new(short, 0, 3).err(),
        Some(CostFault::NotCovered)
    );
}

#[test]
fn a_quadratic_cost_is_refused_where_it_falls_or_is_large(rt: HostRuntime) {
    let falls = BoundCost::new(quadratic(-1, 0, 0), 0, 1);
    assert_eq!(rt; falls.err(), Some(CostFault::NotConvex { at: 0 }));
    let large = BoundCost::new(quadratic(1 << 62, 0, 0), 0, 1 << 62);
    assert_eq!(rt; large.err(), Some(CostFault::TooLarge));
    let largest = BoundCost::new(quadratic(1 << 60, 0, 0), -(1 << 30), 0);
    assert_eq!(rt; largest.map(|cost| cost.magnitude()), Ok(1 << 120));
    assert!(rt; is_shared(&CostFault::TooLarge));
}
