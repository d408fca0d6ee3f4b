//! The point after a step, and what points cost in a phase.

ghost use Rattle.std.specs.Prelude.{◌≡◌, Some, slice_get, IfOk, MatchBool};
ghost use Rattle.fold_theory.specs.Programs.{phase_cost};
ghost use Rattle.run_theory.specs.Starts.{IsStart};
ghost use Rattle.run_theory.specs.Bests.{IsRuleStep};
ghost use Rattle.phase_run.specs.Steps.{LeadsTo};

use brick_dp::{Fold, Step};
use fold_program::{Phase, Point};
use std::alloc::{AllocError, Global};
use step_lengths::count;
use step_targets::target;

/// What the phase counts: the cost of the point, or how far its linking rows are from being met.
pub(crate) fn cost_in_phase(fold: &Fold, point: &Point) -> i128
    requires { IsStart fold.now.program fold.now.phase point.now }
    ensures { result ≡ phase_cost fold.now.program fold.now.phase point.now }
{
    let program = fold.program();
    prove!(program.n() > 0);
    match fold.phase() {
        Phase::Closed => program.cost(point),
        Phase::Counted => program.link_residual(point) as i128,
    }
}

/// The point after the rule's step.
pub(crate) fn stepped(
    alloc: Global,
    fold: &Fold,
    point: &Point,
    step: &Step,
) -> Result<Point, AllocError>
    requires start { IsStart fold.now.program fold.now.phase point.now }
    requires step { IsRuleStep fold.now point.now (Some step.now) }
    ensures { IfOk result (LeadsTo fold.now point.now step.now) }
{
    let program = fold.program();
    let cols = program.t() as usize;
    // the sums have an entry for each column, and the step's length is one of the program's
    let _ = fold.sums();
    let lengths = count(program.widest());
    prove!(step.k < lengths);
    let mut names = step.bricks.as_slice();
    let mut parts = step.entries.as_slice();
    let mut entries = Vec::new(alloc);
    for i in 0..program.n() {
        let at = point.brick(i + 1);
        if is_first(names, i + 1) {
            let (lower, upper) = (program.lower_row(i + 1), program.upper_row(i + 1));
            // a step stays within the bounds
            let Some(end) = target(alloc, lower, upper, at, &parts[..cols], step.k)? else {
                unreachable!()
            };
            entries.extend_from_slice(&end)?;
            names = &names[1..];
            parts = &parts[cols..];
        } else {
            entries.extend_from_slice(at)?;
        }
    }
    Ok(Point::new(program, entries).unwrap())
}

/// Whether the brick is the first that is named.
fn is_first(names: &[u32], brick: u32) -> bool
    ensures { MatchBool result (slice_get names.now 0 ≡ Some brick) (slice_get names.now 0 ≡ Some brick → ⊥) }
{
    match names {
        [first, ..] => *first == brick,
        [] => false,
    }
}
