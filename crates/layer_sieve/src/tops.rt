//! Moves that can lower no cell of a layer.

ghost use Rattle.std.specs.Prelude.{◌≡◌, ◌<◌, ◌≤◌, ◌^◌, ℤ, length, Some, IsTrue, IfSome, slice_get};
ghost use Rattle.std.specs.Bool.{OnTrue};
ghost use Rattle.lattice_theory.specs.Vectors.{is_rising};
ghost use Rattle.lattice_theory.specs.SignedSums.{vectors};
ghost use Rattle.sieve_laws.specs.Sieve.{IsTop, IsIdle, AreIdleAt, AreTops, live, under};
ghost use Rattle.layer_sieve.specs.Reaching.{AreAtMost};
ghost use Rattle.layer_sieve.specs.Falls.{AreKept, FallsLeast, FallsMost, IsLow, IsWider, IsSpread};

use crate::reaching::live_from;
use crate::targets::Targets;
use sieve_laws::PricedMove;

/// Whether the move lowers no cell by way of a live one. `tops` has bounds for the moves, which may be wide; one that
/// does not show it is made anew for the layer.
pub(crate) fn is_idle(
    targets: &Targets,
    next: &[Option<i128>],
    limit: i128,
    m: PricedMove,
    tops: &mut [Option<i128>],
) -> bool
    requires rising { IsTrue (is_rising (vectors targets.now)) }
    requires listed { m.place < length targets.now }
    requires size { length next.now ≡ length targets.now }
    requires small { AreAtMost (2 ^ 122) next.now }
    requires tops { AreTops (vectors targets.now) (live limit next.now) next.now tops.old }
    ensures idle { OnTrue result (IsIdle (vectors targets.now) (live limit next.now) next.now m) }
    ensures tops { AreTops (vectors targets.now) (live limit next.now) next.now tops.new }
{
    let at = m.place as usize;
    if !is_low(tops[at], m.change) {
        tops[at] = top(targets, next, limit, m.place);
    }
    is_low(tops[at], m.change)
}

/// Whether no move lowers a cell by way of a live one, where `changes` has for each move, by its place, what it changes
/// the cost by, and none where there is no such move. `tops` has bounds for the moves, as above.
pub fn all_idle(
    targets: &Targets,
    changes: &[Option<i128>],
    next: &[Option<i128>],
    limit: i128,
    tops: &mut [Option<i128>],
) -> bool
    requires rising { IsTrue (is_rising (vectors targets.now)) }
    requires size { length next.now ≡ length targets.now }
    requires small { AreAtMost (2 ^ 122) next.now }
    requires tops { AreTops (vectors targets.now) (live limit next.now) next.now tops.old }
    ensures idle { OnTrue result (AreIdleAt (vectors targets.now) (live limit next.now) next.now changes.now) }
    ensures tops { AreTops (vectors targets.now) (live limit next.now) next.now tops.new }
{
    for place in 0..targets.len() {
        if let Some(change) = change_at(changes, place) {
            if !is_idle(targets, next, limit, PricedMove { place, change }, tops) {
                return false;
            }
        }
    }
    true
}

/// What the move of this place changes the cost by, where there is one.
fn change_at(changes: &[Option<i128>], place: u32) -> Option<i128>
    ensures { (change : ℤ) → slice_get changes.now place ≡ Some (Some change) → result ≡ Some change }
{
    *changes.get(place as usize)?
}

/// Whether a bound is known that is no more than the change.
fn is_low(top: Option<i128>, change: i128) -> bool
    ensures { OnTrue result (IsLow top change) }
{
    match top {
        Some(top) => top <= change,
        None => false,
    }
}

/// The most that a sum costs above the live one to which the move leads from there; none where there is no walk from
/// such a sum.
fn top(targets: &Targets, next: &[Option<i128>], limit: i128, h: u32) -> Option<i128>
    requires rising { IsTrue (is_rising (vectors targets.now)) }
    requires listed { h < length targets.now }
    requires size { length next.now ≡ length targets.now }
    requires small { AreAtMost (2 ^ 122) next.now }
    ensures { IfSome result (IsTop (vectors targets.now) (live limit next.now) next.now h) }
{
    let mut top = i128::MIN;
    for from in 0..targets.len() {
        if let Some(reached) = live_from(targets, next, limit, h, from) {
            let cost = next[from as usize]?;
            top = top.max(cost - reached.rest);
        }
    }
    Some(top)
}

/// Makes the bounds over the live cells of a layer of those over the live cells of the next one, from whose cells those
/// of the layer fell: each widens by the spread of the falls. None is known any more where a cell came to life.
pub fn widen(
    _targets: &Targets,
    next: &[Option<i128>],
    limit: i128,
    layer: &[Option<i128>],
    tops: &mut [Option<i128>],
)
    requires size { length layer.now ≡ length next.now }
    requires kept { AreKept next.now layer.now }
    requires tops { AreTops (vectors _targets.now) (live limit next.now) next.now tops.old }
    ensures { AreTops (vectors _targets.now) (live limit layer.now) layer.now tops.new }
{
    let spread = spread(next, limit, layer);
    for h in 0..tops.len() {
        tops[h] = wider(tops[h], spread);
    }
}

/// A bound that is wider by so much, where both are known.
fn wider(top: Option<i128>, spread: Option<i128>) -> Option<i128>
    ensures { IfSome result (IsWider top spread) }
{
    top?.checked_add(spread?)
}

/// How much more the live cell fell that fell most than the cell that fell least; none where a cell came to life.
fn spread(next: &[Option<i128>], limit: i128, layer: &[Option<i128>]) -> Option<i128>
    requires size { length layer.now ≡ length next.now }
    ensures { IfSome result (IsSpread next.now limit layer.now) }
{
    most_fall(next, limit, layer)?.checked_sub(least_fall(next, layer)?)
}

/// How much the live cell fell that fell most; none where a cell came to life.
fn most_fall(next: &[Option<i128>], limit: i128, layer: &[Option<i128>]) -> Option<i128>
    requires size { length layer.now ≡ length next.now }
    ensures { IfSome result (FallsMost next.now limit layer.now) }
{
    let mut most = i128::MIN;
    for at in 0..layer.len() {
        if let Some(after) = cost_under(limit, layer[at]) {
            let before = cost_under(limit, next[at])?;
            let fall = before.checked_sub(after)?;
            most = most.max(fall);
        }
    }
    Some(most)
}

/// The cost, where it is at most the limit.
fn cost_under(limit: i128, cost: Option<i128>) -> Option<i128>
    ensures { result ≡ under limit cost }
{
    match cost {
        Some(cost) if cost <= limit => Some(cost),
        _ => None,
    }
}

/// How much the cell fell that fell least.
fn least_fall(next: &[Option<i128>], layer: &[Option<i128>]) -> Option<i128>
    requires size { length layer.now ≡ length next.now }
    ensures { IfSome result (FallsLeast next.now layer.now) }
{
    let mut least = i128::MAX;
    for at in 0..layer.len() {
        if let Some(before) = next[at] {
            if let Some(after) = layer[at] {
                let fall = before.checked_sub(after)?;
                least = least.min(fall);
            }
        }
    }
    Some(least)
}

#[cfg(test)]
mod tests;
