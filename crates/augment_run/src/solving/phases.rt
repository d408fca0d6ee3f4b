//! One phase: its brick sums, its fold, and its run.

ghost use Rattle.std.specs.Prelude.{◌≡◌, ◌≤◌, ◌<◌, ◌^◌, length, All, IfOk, IfErr};
ghost use Rattle.lattice_theory.specs.SignedSums.{vectors};
ghost use Rattle.fold_theory.specs.Programs.{Bricks};
ghost use Rattle.run_theory.specs.Links.{fold_complexity};
ghost use Rattle.run_theory.specs.BrickSums.{AreBrickSums};
ghost use Rattle.run_theory.specs.Folds.{IsSmallImage};
ghost use Rattle.run_theory.specs.Limits.{FitsTable, SumStageWithin};
ghost use Rattle.run_theory.specs.Starts.{IsStart};
ghost use Rattle.augment_run.specs.Solving.{caps_of, IsSolveFault};
ghost use Rattle.augment_run.specs.Stages.{bases_of, IsPlan, IsBegun, IsEnded};

use super::plans::Plan;
use crate::settings::Stop;
use brick_dp::Fold;
use brick_sums::{Sums, SumsFault, sums};
use fold_program::{Phase, Point, Program};
use fold_shelf::Gate;
use graver_complexity::{complexity, kernel_generators};
use phase_run::{End, run};
use run_theory::SolveFault;
use std::alloc::Global;
use std::thread::Threads;
use sum_laws::brick_sums_make_a_fold;

/// A phase that has ended: the complexity of the program in it, its brick sums, and how its run ended.
#[derive(Debug, Drop)]
pub(crate) struct Ended {
    pub bound: u64,
    pub sums: Sums,
    pub end: End,
}

/// Runs a phase from a point, within the limits of its sums and of its table.
pub(crate) fn run_phase<R: Threads + Sync, G: Gate>(
    rt: &R,
    alloc: Global,
    program: &Program,
    plan: &Plan,
    phase: Phase,
    point: Point,
    gate: &G,
) -> Result<Ended, Stop>
    requires begun { (x : Bricks) × IsBegun program.now phase plan.now x }
    requires start { IsStart program.now phase point }
    ensures ended { IfOk result (IsEnded program.now phase plan.now point) }
    ensures refused { IfErr result (λ stop. IsSolveFault program.now (caps_of plan.now.settings) stop.fault) }
{
    prove!(program.n() > 0);
    let bound = bound(program, plan, phase);
    let sums = phase_sums(alloc, program, plan, phase, bound)?;
    let fold = fold(program, plan, &sums, phase)?;
    let end = run(rt, alloc, &fold, point, plan.settings.workers, gate)?;
    Ok(Ended { bound, sums, end })
}

/// The complexity of the program in a phase.
fn bound(program: &Program, plan: &Plan, phase: Phase) -> u64
    requires { (x : Bricks) × IsPlan program.now x plan.now }
    ensures bound { result ≡ fold_complexity program.now phase (bases_of plan.now) }
    ensures from { 1 ≤ result }
    ensures small { result < 2 ^ 43 }
{
    complexity(&plan.basis, &plan.links, phase, program.relations())
}

/// The brick sums of a phase, within their limit.
fn phase_sums(
    alloc: Global,
    program: &Program,
    plan: &Plan,
    phase: Phase,
    bound: u64,
) -> Result<Sums, Stop>
    requires begun { (x : Bricks) × IsBegun program.now phase plan.now x }
    requires bound { bound ≡ fold_complexity program.now phase (bases_of plan.now) }
    requires from { 1 ≤ bound }
    ensures sums { IfOk result (SumStageWithin program.now (caps_of plan.now.settings) phase (bases_of plan.now)) }
    ensures refused { IfErr result (λ stop. IsSolveFault program.now (caps_of plan.now.settings) stop.fault) }
{
    prove!(program.t() > 0);
    kernel_generators();
    match sums(alloc, &plan.kernel, bound, plan.settings.max_sums) {
        Ok(sums) => Ok(sums),
        Err(SumsFault::Limit) => Err(Stop {
            fault: SolveFault::Sums { phase },
        }),
        Err(SumsFault::Memory) => Err(Stop {
            fault: SolveFault::Memory,
        }),
    }
}

/// The fold of a phase, within the limit of its table.
fn fold<'a>(
    program: &'a Program,
    plan: &Plan,
    sums: &'a Sums,
    phase: Phase,
) -> Result<Fold<'a>, Stop>
    requires begun { (x : Bricks) × IsBegun program.now phase plan.now x }
    requires sums { SumStageWithin program.now (caps_of plan.now.settings) phase (bases_of plan.now) sums.now }
    ensures fold { IfOk result (λ f. f ≡ record { program = program.now; phase = phase; sums = sums.now }) }
    ensures table { IfOk result (λ f. FitsTable program.now sums.now) }
    ensures refused { IfErr result (λ stop. IsSolveFault program.now (caps_of plan.now.settings) stop.fault) }
{
    brick_sums_make_a_fold();
    match Fold::new(program, sums, phase) {
        Some(fold) => Ok(fold),
        None => Err(Stop {
            fault: SolveFault::Table { phase },
        }),
    }
}
