//! All layers, from the last one to the first.

ghost use Rattle.std.specs.Prelude.{◌≡◌, ◌+◌, ◌-◌, ◌*◌, ◌<◌, ◌≤◌, ◌≤ℤ◌, ◌^◌, ◌++◌, ◌∷◌, [], length, All, Contains};
ghost use Rattle.std.specs.Prelude.{Some, IsTrue, IfOk, OnOk, MatchOption, slice_get, unsigned_abs};
ghost use Rattle.std.specs.Bool.{OnTrue};
ghost use Rattle.lattice_theory.specs.Vectors.{is_rising, zeros};
ghost use Rattle.lattice_theory.specs.SignedSums.{vectors};
ghost use Rattle.fold_theory.specs.Programs.{AreWithin};
ghost use Rattle.run_theory.specs.Keys.{IsNoWorse};
ghost use Rattle.run_theory.specs.Live.{TriesLiveNodes};
ghost use Rattle.sieve_laws.specs.Sieve.{MayStay, IsLayerOver, AreTops, live};
ghost use Rattle.layer_sieve.specs.Reaching.{AreAtMost, IsFair};
ghost use Rattle.layer_sieve.specs.Tried.{IsTried};
ghost use Rattle.brick_dp.specs.Blocks.{AreIdleFrom};
ghost use Rattle.brick_dp.specs.Menus.{AreMenus};
ghost use Rattle.brick_dp.specs.Needs.{IsHopeless, AreBeaten, HasHope, NoneLives, AreLayersUnder, IsSwept};
ghost use Rattle.brick_dp.specs.Tables.{AreLeastLayers};

use crate::blocks::BRICKS;
use crate::bounds::{Bound, needed};
use crate::ends::last_layer;
use crate::floors::{any_within, floor};
use crate::folds::Fold;
use crate::menus::Menus;
use fold_program::Point;
use layer_sieve::{Layers, Moves, PricedMove, Targets, all_idle, lower_by, widen};
use std::alloc::{AllocError, Global};

/// All layers of walks from a point with steps of `2^k`, the last one first. A brick whose moves can lower no cell
/// leaves its layer as the one behind it is.
pub(crate) fn layers(
    alloc: Global,
    fold: &Fold,
    targets: &Targets,
    menus: &Menus,
    point: &Point,
    k: u32,
    moves: &mut Moves,
) -> Result<Layers, AllocError>
    requires rising { IsTrue (is_rising (vectors fold.now.sums)) }
    requires targets { targets.now ≡ fold.now.sums }
    requires zero { Contains (vectors fold.now.sums) (zeros fold.now.program.brick.cols) }
    requires menus { AreMenus fold.now point.now k menus.now }
    requires within { AreWithin fold.now.program.bricks point.now }
    requires short { k < 64 }
    ensures layers { IfOk result (AreLeastLayers fold.now point.now k (length fold.now.program.bricks + 1)) }
    ensures rising { moves.old ≤ moves.new }
    ensures counted { moves.new ≤
        moves.old + length fold.now.program.bricks * (length fold.now.sums * length fold.now.sums) }
{
    let bricks = fold.program().n();
    let mut layer = last_layer(alloc, fold, point, k)?;
    let mut layers = Layers::new(alloc, &layer)?;
    let mut tops = vec![in alloc; None; fold.sums().len() as usize]?;
    for done in 0..bricks {
        let menu = menus.of(bricks - done);
        // no walk costs so much, so each node is live
        add_layer(
            alloc,
            targets,
            menu,
            i128::MAX,
            &mut layers,
            done,
            &mut layer,
            &mut tops,
            moves,
        )?;
    }
    Ok(layers)
}

/// All layers, where the bound leaves hope for a step to the end: none where no node of some layer leads to a step that
/// gains what the bound asks for. It is asked before each brick, or block of bricks that is passed, and only nodes that
/// can still lead to such a step are sources of moves. A block is passed where none of its moves lowers a cell.
pub(crate) fn layers_under<B: Bound>(
    alloc: Global,
    fold: &Fold,
    targets: &Targets,
    menus: &Menus,
    point: &Point,
    k: u32,
    bound: &mut B,
    moves: &mut Moves,
) -> Result<Option<Layers>, AllocError>
    requires rising { IsTrue (is_rising (vectors fold.now.sums)) }
    requires targets { targets.now ≡ fold.now.sums }
    requires zero { Contains (vectors fold.now.sums) (zeros fold.now.program.brick.cols) }
    requires menus { AreMenus fold.now point.now k menus.now }
    requires within { AreWithin fold.now.program.bricks point.now }
    requires short { k < 64 }
    ensures layers { IfOk result (λ found. MatchOption found (IsHopeless fold.now point.now k (B.last bound.new))
        (AreLayersUnder fold.now point.now k (length fold.now.program.bricks + 1) (B.last bound.new))) }
    ensures kept { B.later bound.old bound.new }
    ensures tried { TriesLiveNodes fold.now.program fold.now.phase (vectors fold.now.sums) point.now k
        (B.last bound.old) (moves.new - moves.old) }
    ensures untried { NoneLives fold.now point.now k (B.last bound.old) → moves.new ≡ moves.old }
    ensures rising { moves.old ≤ moves.new }
    ensures counted { moves.new ≤
        moves.old + length fold.now.program.bricks * (length fold.now.sums * length fold.now.sums) }
{
    let bricks = fold.program().n();
    let mut layer = last_layer(alloc, fold, point, k)?;
    let mut floor = floor(fold, menus, point, k);
    let mut layers = Layers::new(alloc, &layer)?;
    let mut tops = vec![in alloc; None; fold.sums().len() as usize]?;
    let mut done = 0;
    while done < bricks {
        let Some(limit) = limit_under(bound, k, &layer, floor, fold.sums().zero()) else {
            return Ok(None);
        };
        let brick = bricks - done;
        if is_idle_block(targets, menus, brick, &layer, limit, &mut tops) {
            pass_block(
                fold,
                menus,
                point,
                k,
                &*bound,
                &layer,
                limit,
                done,
                &mut layers,
                &mut floor,
            )?;
            done += 16;
        } else {
            let menu = menus.of(brick);
            floor -= menus.least(brick);
            add_layer(
                alloc,
                targets,
                menu,
                limit,
                &mut layers,
                done,
                &mut layer,
                &mut tops,
                moves,
            )?;
            done += 1;
        }
    }
    Ok(Some(layers))
}

/// The most that a walk through a node of the layer costs which gains what the bound asks for, where moves of the
/// bricks before it lower the cost to `floor` at most; none where no node costs so little. The node of no move at all,
/// at the place `zero`, is the likeliest.
fn limit_under<B: Bound>(
    bound: &mut B,
    k: u32,
    layer: &[Option<i128>],
    floor: i128,
    zero: u32,
) -> Option<i128>
    requires small { unsigned_abs floor ≤ 2 ^ 123 }
    ensures limit { MatchOption result (AreBeaten k (B.last bound.new) layer.now floor)
        (HasHope k (B.last bound.new) layer.now floor) }
    ensures kept { B.later bound.old bound.new }
    ensures better { IsNoWorse (B.last bound.old) (B.last bound.new) }
{
    let need = needed(bound.now(), k);
    let limit = -need - floor;
    if any_within(layer, limit, zero) {
        Some(limit)
    } else {
        None
    }
}

/// Whether this brick is the last one of a block none of whose moves lowers a cell of the layer. `tops` has bounds for
/// the moves over it.
fn is_idle_block(
    targets: &Targets,
    menus: &Menus,
    brick: u32,
    layer: &[Option<i128>],
    limit: i128,
    tops: &mut [Option<i128>],
) -> bool
    requires rising { IsTrue (is_rising (vectors targets.now)) }
    requires size { length layer.now ≡ length targets.now }
    requires small { AreAtMost (2 ^ 122) layer.now }
    requires tops { AreTops (vectors targets.now) (live limit layer.now) layer.now tops.old }
    ensures whole { OnTrue result (16 ≤ brick) }
    ensures idle { OnTrue result (AreIdleFrom (vectors targets.now) (live limit layer.now) layer.now menus.now
        (brick - 16) brick) }
    ensures tops { AreTops (vectors targets.now) (live limit layer.now) layer.now tops.new }
{
    let brick = brick as usize;
    if brick < BRICKS || brick % BRICKS != 0 {
        return false;
    }
    match menus.changes(brick / BRICKS - 1) {
        Some(changes) => all_idle(targets, changes, layer, limit, tops),
        None => false,
    }
}

/// Adds the layers of the sixteen bricks of a block whose moves lower no cell: the last layer, which is number `done`.
fn pass_block<B: Bound>(
    fold: &Fold,
    menus: &Menus,
    _point: &Point,
    _k: u32,
    _bound: &B,
    _layer: &[Option<i128>],
    _limit: i128,
    done: u32,
    layers: &mut Layers,
    floor: &mut i128,
) -> Result<(), AllocError>
    requires zero { Contains (vectors fold.now.sums) (zeros fold.now.program.brick.cols) }
    requires menus { AreMenus fold.now _point.now _k menus.now }
    requires within { AreWithin fold.now.program.bricks _point.now }
    requires whole { done + 16 ≤ length fold.now.program.bricks }
    requires swept { IsSwept fold.now _point.now _k done (B.last _bound.now) layers.old _layer.now floor.old }
    requires hope { HasHope _k (B.last _bound.now) _layer.now floor.old _limit }
    requires idle { AreIdleFrom (vectors fold.now.sums) (live _limit _layer.now) _layer.now menus.now
        (length fold.now.program.bricks - done - 16) (length fold.now.program.bricks - done) }
    ensures swept { OnOk result (IsSwept fold.now _point.now _k (done + 16) (B.last _bound.now) layers.new _layer.now
        floor.new) }
    ensures rises { OnOk result (floor.old ≤ℤ floor.new) }
{
    let bricks = fold.program().n();
    prove!(fold.sums().zero() < fold.sums().len());
    for passed in 0..16 {
        layers.repeat()?;
        *floor -= menus.least(bricks - done - passed);
    }
    Ok(())
}

/// Adds the layer over the last one, which is number `last`. Cells of that one which cost more than the limit are no
/// sources of moves. It stands in `layer`, as does the new one afterwards; `tops` has bounds for the moves over it.
fn add_layer(
    alloc: Global,
    targets: &Targets,
    menu: &[PricedMove],
    limit: i128,
    layers: &mut Layers,
    last: u32,
    layer: &mut [Option<i128>],
    tops: &mut [Option<i128>],
    moves: &mut Moves,
) -> Result<(), AllocError>
    requires rising { IsTrue (is_rising (vectors targets.now)) }
    requires fair { All (IsFair (length targets.now)) menu.now }
    requires size { length layer.old ≡ length targets.now }
    requires small { AreAtMost (2 ^ 122) layer.old }
    requires stays { MayStay (vectors targets.now) menu.now layer.old }
    requires count { length layers.old ≡ last + 1 }
    requires last { slice_get layers.old last ≡ Some layer.old }
    requires tops { AreTops (vectors targets.now) (live limit layer.old) layer.old tops.old }
    ensures over { IsLayerOver (vectors targets.now) menu.now (live limit layer.old) layer.old layer.new }
    ensures added { OnOk result (layers.new ≡ layers.old ++ layer.new ∷ []) }
    ensures tops { OnOk result (AreTops (vectors targets.now) (live limit layer.new) layer.new tops.new) }
    ensures rising { moves.old ≤ moves.new }
    ensures counted { moves.new ≤ moves.old + length menu.now * length targets.now }
    ensures tried { IsTried (length menu.now) layer.old limit (moves.new - moves.old) }
{
    if lower_by(targets, menu, layers.get(last), limit, layer, tops, moves) {
        widen(targets, layers.get(last), limit, layer, tops);
        layers.push(alloc, layer)
    } else {
        layers.repeat()
    }
}
