//! The run of a phase.

ghost use Rattle.std.specs.Prelude.{◌≤◌, ◌*◌, length, IfOk};
ghost use Rattle.lattice_theory.specs.SignedSums.{vectors};
ghost use Rattle.run_theory.specs.Digits.{binary_digits};
ghost use Rattle.run_theory.specs.Outcomes.{IsRecorded};
ghost use Rattle.run_theory.specs.Starts.{IsStart};
ghost use Rattle.run_theory.specs.Folds.{HasBrickSums};

use crate::factor::bound_number;
use crate::points::{cost_in_phase, stepped};
use crate::records::{End, RunRecord};
use brick_dp::Fold;
use fold_program::Point;
use fold_shelf::Gate;
use round_workers::{RunMenus, Task, round};
use std::alloc::{AllocError, Global};
use std::thread::Threads;

/// The steps of the rule from a point until it has none, and where they end.
///
/// The fold's sums are the brick sums of its program and phase; the point is within the bounds and meets its brick
/// rows, in phase `Closed` the linking rows too. Each step lowers the phase cost, so the run ends; it makes at most as
/// many steps as the bound number times the binary digits of the whole gain. `AllocError` comes only where memory runs
/// out. Each step is sought by so many workers, 1 to 16, who pass the gate; neither their number nor the gate changes
/// the steps.
pub fn run<R: Threads + Sync, G: Gate>(
    rt: &R,
    alloc: Global,
    fold: &Fold,
    point: Point,
    workers: u32,
    gate: &G,
) -> Result<End, AllocError>
    requires sums { HasBrickSums fold.now }
    requires start { IsStart fold.now.program fold.now.phase point }
    requires least { 1 ≤ workers }
    requires most { workers ≤ 16 }
    ensures run { IfOk result (λ e. IsRecorded fold.now.program fold.now.phase
        (vectors fold.now.sums) point e.made e.point) }
    ensures few { IfOk result (λ e. length e.made.steps ≤ e.made.factor * binary_digits e.made.gain) }
{
    prove!(fold.program().n() > 0);
    let before = cost_in_phase(fold, &point);
    let mut after = before;
    let mut point = point;
    let mut menus = RunMenus::new(alloc, fold, &point)?;
    let mut steps = Vec::new(alloc);
    loop {
        let task = Task {
            fold: &*fold,
            point: &point,
            menus: &menus,
        };
        let Some(step) = round(rt, alloc, &task, workers, gate)? else {
            break;
        };
        let next = stepped(alloc, fold, &point, &step)?;
        after = cost_in_phase(fold, &next);
        menus.follow(alloc, fold, &point, &next)?;
        point = next;
        steps.push(step)?;
    }
    Ok(End {
        point,
        made: RunRecord {
            steps,
            gain: before.abs_diff(after),
            factor: bound_number(fold),
        },
    })
}
