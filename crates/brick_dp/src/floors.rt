//! By how much the moves of all bricks lower the cost at most, each brick taken by itself.

ghost use Rattle.std.specs.Prelude.{◌≡◌, ◌≤◌, ◌*◌, length, unsigned_abs, Contains};
ghost use Rattle.std.specs.Bool.{OnTrue, OnFalse};
ghost use Rattle.lattice_theory.specs.SignedSums.{vectors};
ghost use Rattle.lattice_theory.specs.Vectors.{zeros};
ghost use Rattle.fold_theory.specs.Programs.{AreWithin};
ghost use Rattle.fold_program.specs.Refusals.{total_magnitude};
ghost use Rattle.run_theory.specs.Live.{least_before};
ghost use Rattle.brick_dp.specs.Menus.{AreMenus};
ghost use Rattle.brick_dp.specs.Needs.{IsWithin, AreAbove};

use crate::folds::Fold;
use crate::menus::Menus;
use fold_program::Point;

/// The least that moves of all bricks change the cost by, each taken by itself.
pub(crate) fn floor(fold: &Fold, menus: &Menus, _point: &Point, _k: u32) -> i128
    requires menus { AreMenus fold.now _point.now _k menus.now }
    requires zero { Contains (vectors fold.now.sums) (zeros fold.now.program.brick.cols) }
    requires within { AreWithin fold.now.program.bricks _point.now }
    ensures floor { result ≡ least_before fold.now.program fold.now.phase (vectors fold.now.sums) _point.now _k
        (length fold.now.program.bricks) }
    ensures small { unsigned_abs result ≤ 2 * total_magnitude fold.now.program }
{
    let mut floor = 0i128;
    for done in 0..fold.program().n() {
        floor += menus.least(done + 1);
    }
    floor
}

/// Whether a cost is there that is at most the limit; the one at the place `likely` is looked at first.
pub(crate) fn any_within(costs: &[Option<i128>], limit: i128, likely: u32) -> bool
    ensures within { OnTrue result (IsWithin limit costs.now) }
    ensures above { OnFalse result (AreAbove limit costs.now) }
{
    is_within(costs, limit, likely) || some_within(costs, limit)
}

/// Whether the cost at this place is there and at most the limit.
fn is_within(costs: &[Option<i128>], limit: i128, place: u32) -> bool
    ensures { OnTrue result (IsWithin limit costs.now) }
{
    match costs.get(place as usize) {
        Some(Some(cost)) => *cost <= limit,
        _ => false,
    }
}

/// Whether a cost at some place is there and at most the limit.
fn some_within(costs: &[Option<i128>], limit: i128) -> bool
    ensures within { OnTrue result (IsWithin limit costs.now) }
    ensures above { OnFalse result (AreAbove limit costs.now) }
{
    for cost in costs {
        if let Some(cost) = *cost {
            if cost <= limit {
                return true;
            }
        }
    }
    false
}
