//! A layer of least costs from the next one.

ghost use Rattle.std.specs.Prelude.{◌≡◌, ◌+◌, ◌-◌, ◌*◌, ◌<◌, ◌≤◌, ◌^◌, ℤ, length, All, Some, IsTrue};
ghost use Rattle.std.specs.Bool.{OnFalse};
ghost use Rattle.lattice_theory.specs.Vectors.{is_rising};
ghost use Rattle.lattice_theory.specs.SignedSums.{vectors};
ghost use Rattle.sieve_laws.specs.Sieve.{lesser, live, IsLoweredBy, IsLayerOver, AreTops, MayStay};
ghost use Rattle.layer_sieve.specs.Reaching.{AreAtMost, IsFair};
ghost use Rattle.layer_sieve.specs.Tried.{IsTried};

use crate::moves::Moves;
use crate::reaching::offer;
use crate::targets::Targets;
use crate::tops::is_idle;
use sieve_laws::PricedMove;

/// Makes the layer over the next one by the moves of a menu to its live cells, those that cost at most the limit, and
/// says whether it differs from that one, with which it begins. Moves that lower no cell are left out; `tops` keeps
/// what was found out about this for the live cells of the next layer.
///
/// `moves` rises by at most one for each sum and each move to a live cell that was not left out.
pub fn lower_by(
    targets: &Targets,
    menu: &[PricedMove],
    next: &[Option<i128>],
    limit: i128,
    layer: &mut [Option<i128>],
    tops: &mut [Option<i128>],
    moves: &mut Moves,
) -> bool
    requires rising { IsTrue (is_rising (vectors targets.now)) }
    requires fair { All (IsFair (length targets.now)) menu.now }
    requires size { length next.now ≡ length targets.now }
    requires small { AreAtMost (2 ^ 122) next.now }
    requires stays { MayStay (vectors targets.now) menu.now next.now }
    requires begins { layer.old ≡ next.now }
    requires tops { AreTops (vectors targets.now) (live limit next.now) next.now tops.old }
    ensures over { IsLayerOver (vectors targets.now) menu.now (live limit next.now) next.now layer.new }
    ensures same { OnFalse result (layer.new ≡ next.now) }
    ensures tops { AreTops (vectors targets.now) (live limit next.now) next.now tops.new }
    ensures rising { moves.old ≤ moves.new }
    ensures counted { moves.new ≤ moves.old + length menu.now * length targets.now }
    ensures tried { IsTried (length menu.now) next.now limit (moves.new - moves.old) }
{
    let mut differs = false;
    for m in menu {
        if !is_idle(targets, next, limit, *m, tops) {
            differs |= lower(targets, next, limit, *m, layer, moves);
        }
    }
    differs
}

/// Lowers each cell of a layer to what the move to a live cell offers there, and says whether one is lower now.
fn lower(
    targets: &Targets,
    next: &[Option<i128>],
    limit: i128,
    m: PricedMove,
    layer: &mut [Option<i128>],
    moves: &mut Moves,
) -> bool
    requires rising { IsTrue (is_rising (vectors targets.now)) }
    requires fair { IsFair (length targets.now) m }
    requires size { length next.now ≡ length targets.now }
    requires cells { length layer.old ≡ length targets.now }
    requires small { AreAtMost (2 ^ 122) next.now }
    ensures lowered { IsLoweredBy (vectors targets.now) (live limit next.now) m layer.old layer.new }
    ensures same { OnFalse result (layer.new ≡ layer.old) }
    ensures rising { moves.old ≤ moves.new }
    ensures counted { moves.new ≤ moves.old + length targets.now }
    ensures tried { IsTried 1 next.now limit (moves.new - moves.old) }
{
    let mut is_lower = false;
    for from in 0..targets.len() {
        if let Some(cost) = offer(targets, next, limit, m, from) {
            moves.tick();
            is_lower |= lower_cell(&mut layer[from as usize], cost);
        }
    }
    is_lower
}

/// Lowers a cell to this cost, and says whether it was more before, or none.
pub fn lower_cell(cell: &mut Option<i128>, cost: i128) -> bool
    ensures lesser { cell.new ≡ lesser cell.old (Some cost) }
    ensures same { OnFalse result (cell.new ≡ cell.old) }
{
    match *cell {
        Some(kept) if kept <= cost => false,
        _ => {
            *cell = Some(cost);
            true
        }
    }
}

#[cfg(test)]
mod tests;
