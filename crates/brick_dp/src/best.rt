//! The best step of one length.

ghost use Rattle.std.specs.Prelude.{◌≡◌, ◌+◌, ◌-◌, ◌*◌, ◌^◌, ◌≤◌, ◌≤ℤ◌, pos, length, IsTrue, IfOk};
ghost use Rattle.lattice_theory.specs.Vectors.{is_rising};
ghost use Rattle.lattice_theory.specs.SignedSums.{vectors};
ghost use Rattle.fold_theory.specs.Programs.{IsLength, AreWithin};
ghost use Rattle.run_theory.specs.Starts.{IsStart};
ghost use Rattle.run_theory.specs.Folds.{HasBrickSums};
ghost use Rattle.run_theory.specs.Live.{TriesLiveNodes};
ghost use Rattle.brick_dp.specs.Menus.{AreMenus};
ghost use Rattle.brick_dp.specs.Needs.{IsStepUnder, NoneLives};
ghost use Rattle.brick_dp.specs.Tables.{AreLayers};
ghost use Rattle.brick_dp.specs.Answers.{IsStepAnswer};

use crate::answers::{Step, StepAnswer};
use crate::bounds::{Bound, needed};
use crate::filling::layers_under;
use crate::folds::Fold;
use crate::menus::Menus;
use crate::reading::step_from;
use fold_program::Point;
use layer_sieve::{Layers, Moves, Targets};
use std::alloc::{AllocError, Global};
use step_lengths::count;

/// The best step of `2^k` times a move, where it gains anything and the bound does not beat it.
///
/// The fold's sums are the brick sums of its program and phase; the point is within the bounds and meets its brick
/// rows, in phase `Closed` the linking rows too; and `2^k` is a step length. The bound is asked before each brick, but
/// once for sixteen bricks whose moves change no layer, and once more before the step is read off. `moves` rises by one
/// for each sum to which a move leads that could lower its cost. Such moves lead to live nodes alone, each to at most
/// as many as there are sums: to those from which a step can still gain what the bound asks for, where the bricks
/// before are each taken by itself.
///
/// `AllocError` comes only where memory runs out.
pub fn best_step<B: Bound>(
    alloc: Global,
    fold: &Fold,
    point: &Point,
    k: u32,
    bound: &mut B,
    moves: &mut Moves,
) -> Result<StepAnswer, AllocError>
    requires sums { HasBrickSums fold.now }
    requires start { IsStart fold.now.program fold.now.phase point.now }
    requires length { IsLength fold.now.program k }
    ensures answer { IfOk result (IsStepAnswer fold.now point.now k (B.last bound.new)) }
    ensures kept { B.later bound.old bound.new }
    ensures tried { TriesLiveNodes fold.now.program fold.now.phase (vectors fold.now.sums) point.now k
        (B.last bound.old) (moves.new - moves.old) }
    ensures untried { NoneLives fold.now point.now k (B.last bound.old) → moves.new ≡ moves.old }
    ensures rising { moves.old ≤ moves.new }
    ensures counted { moves.new ≤
        moves.old + length fold.now.program.bricks * (length fold.now.sums * length fold.now.sums) }
{
    let lengths = count(fold.program().widest());
    prove!(k < lengths);
    let targets = Targets::new(alloc, fold.sums())?;
    let menus = Menus::new(alloc, fold, point, k)?;
    best_step_with(alloc, fold, &targets, &menus, point, k, bound, moves)
}

/// The same, with the targets of the fold's sums and the menus of the point and the length, which a run keeps from one
/// step to the next.
pub fn best_step_with<B: Bound>(
    alloc: Global,
    fold: &Fold,
    targets: &Targets,
    menus: &Menus,
    point: &Point,
    k: u32,
    bound: &mut B,
    moves: &mut Moves,
) -> Result<StepAnswer, AllocError>
    requires sums { HasBrickSums fold.now }
    requires targets { targets.now ≡ fold.now.sums }
    requires menus { AreMenus fold.now point.now k menus.now }
    requires start { IsStart fold.now.program fold.now.phase point.now }
    requires length { IsLength fold.now.program k }
    ensures answer { IfOk result (IsStepAnswer fold.now point.now k (B.last bound.new)) }
    ensures kept { B.later bound.old bound.new }
    ensures tried { TriesLiveNodes fold.now.program fold.now.phase (vectors fold.now.sums) point.now k
        (B.last bound.old) (moves.new - moves.old) }
    ensures untried { NoneLives fold.now point.now k (B.last bound.old) → moves.new ≡ moves.old }
    ensures rising { moves.old ≤ moves.new }
    ensures counted { moves.new ≤
        moves.old + length fold.now.program.bricks * (length fold.now.sums * length fold.now.sums) }
{
    let lengths = count(fold.program().widest());
    prove!(k < lengths);
    prove!(fold.program().n() > 0);
    prove!(fold.sums().zero() < fold.sums().len());
    let layers = layers_under(alloc, fold, targets, menus, point, k, bound, moves)?;
    let Some(layers) = layers else {
        return Ok(StepAnswer::Beaten);
    };
    let need = needed(bound.now(), k);
    match step_under(alloc, fold, targets, menus, point, k, &layers, need)? {
        Some(step) => Ok(StepAnswer::Found(step)),
        None => Ok(StepAnswer::Beaten),
    }
}

/// The best step of `2^k` times a move, where it gains so much. The last layer stands first.
fn step_under(
    alloc: Global,
    fold: &Fold,
    targets: &Targets,
    menus: &Menus,
    point: &Point,
    k: u32,
    layers: &Layers,
    need: i128,
) -> Result<Option<Step>, AllocError>
    requires rising { IsTrue (is_rising (vectors fold.now.sums)) }
    requires targets { targets.now ≡ fold.now.sums }
    requires menus { AreMenus fold.now point.now k menus.now }
    requires within { AreWithin fold.now.program.bricks point.now }
    requires length { IsLength fold.now.program k }
    requires layers { AreLayers fold.now point.now k (length fold.now.program.bricks + 1) need layers.now }
    requires least { pos 1 ≤ℤ need }
    requires most { need ≤ℤ pos (2 ^ 124) }
    ensures { IfOk result (IsStepUnder fold.now point.now k need) }
{
    let zero = fold.sums().zero();
    let Some(total) = layers.get(fold.program().n())[zero as usize] else {
        return Ok(None);
    };
    if total > -need {
        return Ok(None);
    }
    Ok(Some(step_from(alloc, fold, targets, menus, point, k, layers, total)?))
}
