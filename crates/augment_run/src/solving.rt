//! The whole solve, from the program to its outcome and certificate.

pub(crate) mod endings;
pub(crate) mod phases;
pub(crate) mod plans;

ghost use Rattle.std.specs.Prelude.{◌≤◌, IfOk, IfErr};
ghost use Rattle.augment_run.specs.Solving.{caps_of, IsSolved, IsSolveFault};
ghost use Rattle.augment_run.specs.Stages.{AreAllowed};

use crate::settings::{Settings, Stop};
use crate::solved::Solved;
use endings::{settled, stuck};
use fold_program::Program;
use fold_shelf::Gate;
use phase_one::{Start, start};
use plans::{brick_basis, make_plan};
use run_theory::SolveFault;
use std::alloc::Global;
use std::thread::Threads;

/// The outcome of the program, with its certificate.
///
/// First every brick is brought to meet its rows; where one is stuck the answer is that. Then phase `Counted` lowers
/// what the linking rows are missed by, and where that ends above 0 the answer is that; else phase `Closed` lowers the
/// cost, and the answer is where that ends.
///
/// The fault is the limit that is passed first on that way, or `Memory`, which may come at any time. The answer does
/// not depend on the number of workers.
pub fn solve<R: Threads + Sync, G: Gate>(
    rt: &R,
    alloc: Global,
    program: &Program,
    settings: Settings,
    gate: &G,
) -> Result<Solved, SolveFault>
    requires workers { 1 ≤ settings.workers }
    requires few_workers { settings.workers ≤ 16 }
    requires basis { 1 ≤ settings.max_basis }
    requires small_basis { settings.max_basis ≤ 2000 }
    requires sums { 1 ≤ settings.max_sums }
    requires few_sums { settings.max_sums ≤ 20000 }
    ensures solved { IfOk result (IsSolved program.now (caps_of settings)) }
    ensures refused { IfErr result (IsSolveFault program.now (caps_of settings)) }
{
    match stages(rt, alloc, program, settings, gate) {
        Ok(solved) => Ok(solved),
        Err(stop) => Err(stop.fault),
    }
}

/// The stages of a solve, one after the other.
fn stages<R: Threads + Sync, G: Gate>(
    rt: &R,
    alloc: Global,
    program: &Program,
    settings: Settings,
    gate: &G,
) -> Result<Solved, Stop>
    requires limits { AreAllowed settings }
    ensures solved { IfOk result (IsSolved program.now (caps_of settings)) }
    ensures refused { IfErr result (λ stop. IsSolveFault program.now (caps_of settings) stop.fault) }
{
    let bricks = brick_basis(alloc, program, settings)?;
    let started = start(alloc, program, &bricks)?;
    match started {
        Start::Stuck {
            brick,
            point,
            traces,
            residual,
        } => Ok(stuck(alloc, program, &bricks, brick, &point, traces, residual)?),
        Start::Ready { point, traces } => {
            let plan = make_plan(alloc, program, settings, bricks)?;
            settled(rt, alloc, program, &plan, point, traces, gate)
        }
    }
}
