//! The three ends of a solve.

ghost use Rattle.std.specs.Prelude.{◌≡◌, ◌<◌, IfOk, IfErr};
ghost use Rattle.lattice_theory.specs.BasisLimits.{IsBasisWithin};
ghost use Rattle.fold_theory.specs.declared.Phase.TheVariants.{Counted};
ghost use Rattle.fold_theory.specs.Programs.{Bricks, IsWithin, link_miss, link_rests};
ghost use Rattle.fold_program.specs.Places.{OfBrick};
ghost use Rattle.run_theory.specs.Limits.{Caps};
ghost use Rattle.run_theory.specs.Outcomes.{FirstStuck};
ghost use Rattle.phase_one.specs.Started.{lists};
ghost use Rattle.augment_run.specs.Solving.{caps_of, IsSolved, IsSolveFault};
ghost use Rattle.augment_run.specs.Stages.{IsSettled, IsMissed, IsMet, IsClosed};

use super::phases::{Ended, run_phase};
use super::plans::Plan;
use crate::certifying::{certificate_on_all, certificate_on_brick};
use crate::settings::Stop;
use crate::solved::Solved;
use brick_phase::BrickStep;
use fold_program::{Phase, Point, Program};
use fold_shelf::Gate;
use fold_theory::Verdict;
use phase_one::{counted, judge};
use phase_run::RunRecord;
use pottier::Basis;
use run_theory::Claim;
use std::alloc::{AllocError, Global};
use std::thread::Threads;

/// A point that meets the linking rows, how the bricks settled, and the run of phase `Counted`, where there was one.
#[derive(Debug, Drop)]
pub(crate) struct Met {
    pub point: Point,
    pub traces: Vec<Vec<BrickStep>>,
    pub counted: Option<RunRecord>,
}

/// The end where a brick is stuck.
pub(crate) fn stuck(
    alloc: Global,
    program: &Program,
    bricks: &Basis,
    brick: u32,
    point: &[i64],
    traces: Vec<Vec<BrickStep>>,
    residual: u128,
) -> Result<Solved, AllocError>
    requires matrix { bricks.now.matrix ≡ program.now.brick }
    requires first { FirstStuck program.now bricks.now.elements brick residual point.now (lists traces.items) }
    requires within { OfBrick program.now brick (λ b. IsWithin b point.now) }
    ensures { IfOk result (λ v. (c : Caps) → IsBasisWithin program.now.brick c.basis bricks.now.elements
        → IsSolved program.now c v) }
{
    prove!(program.n() > 0);
    let certificate = certificate_on_brick(alloc, program, bricks, brick, point)?;
    Ok(Solved {
        verdict: Verdict::InfeasibleBrick { brick, residual },
        point: None,
        bricks: traces,
        counted: None,
        closed: None,
        certificate,
    })
}

/// The end of a program whose bricks settle.
pub(crate) fn settled<R: Threads + Sync, G: Gate>(
    rt: &R,
    alloc: Global,
    program: &Program,
    plan: &Plan,
    point: Point,
    traces: Vec<Vec<BrickStep>>,
    gate: &G,
) -> Result<Solved, Stop>
    requires all { IsSettled program.now plan.now (lists traces.items) point }
    ensures solved { IfOk result (IsSolved program.now (caps_of plan.now.settings)) }
    ensures refused { IfErr result (λ stop. IsSolveFault program.now (caps_of plan.now.settings) stop.fault) }
{
    prove!(program.n() > 0);
    if !counted(program, &point) {
        let met = Met {
            point,
            traces,
            counted: None,
        };
        return closed(rt, alloc, program, plan, met, gate);
    }
    let last = run_phase(rt, alloc, program, plan, Phase::Counted, point, gate)?;
    after_counted(rt, alloc, program, plan, traces, last, gate)
}

/// The end after phase `Counted`.
fn after_counted<R: Threads + Sync, G: Gate>(
    rt: &R,
    alloc: Global,
    program: &Program,
    plan: &Plan,
    traces: Vec<Vec<BrickStep>>,
    last: Ended,
    gate: &G,
) -> Result<Solved, Stop>
    requires missed { IsMissed program.now plan.now (lists traces.items) last }
    ensures solved { IfOk result (IsSolved program.now (caps_of plan.now.settings)) }
    ensures refused { IfErr result (λ stop. IsSolveFault program.now (caps_of plan.now.settings) stop.fault) }
{
    prove!(program.n() > 0);
    let residual = judge(program, &last.end.point);
    if residual > 0 {
        return Ok(missed(alloc, program, plan, traces, last, residual)?);
    }
    let end = last.end;
    let met = Met {
        point: end.point,
        traces,
        counted: Some(end.made),
    };
    closed(rt, alloc, program, plan, met, gate)
}

/// The end where the linking rows cannot be met.
fn missed(
    alloc: Global,
    program: &Program,
    plan: &Plan,
    traces: Vec<Vec<BrickStep>>,
    last: Ended,
    residual: u128,
) -> Result<Solved, AllocError>
    requires missed { IsMissed program.now plan.now (lists traces.items) last }
    requires residual { residual ≡ link_miss program.now (link_rests program.now last.end.point) }
    requires some { 0 < residual }
    ensures { IfOk result (IsSolved program.now (caps_of plan.now.settings)) }
{
    prove!(program.n() > 0);
    let phase = Phase::Counted;
    let certificate = certificate_on_all(
        alloc,
        program,
        plan,
        Claim::InfeasibleLink,
        phase,
        &last,
    )?;
    let end = last.end;
    Ok(Solved {
        verdict: Verdict::InfeasibleLink { residual },
        point: None,
        bricks: traces,
        counted: Some(end.made),
        closed: None,
        certificate,
    })
}

/// The end where a best point is found: phase `Closed`, from a point that meets the linking rows.
fn closed<R: Threads + Sync, G: Gate>(
    rt: &R,
    alloc: Global,
    program: &Program,
    plan: &Plan,
    met: Met,
    gate: &G,
) -> Result<Solved, Stop>
    requires met { IsMet program.now plan.now met }
    ensures solved { IfOk result (IsSolved program.now (caps_of plan.now.settings)) }
    ensures refused { IfErr result (λ stop. IsSolveFault program.now (caps_of plan.now.settings) stop.fault) }
{
    let last = run_phase(rt, alloc, program, plan, Phase::Closed, met.point, gate)?;
    Ok(optimal(alloc, program, plan, met.traces, met.counted, last)?)
}

/// The end at a best point.
fn optimal(
    alloc: Global,
    program: &Program,
    plan: &Plan,
    traces: Vec<Vec<BrickStep>>,
    counted: Option<RunRecord>,
    last: Ended,
) -> Result<Solved, AllocError>
    requires { IsClosed program.now plan.now (lists traces.items) counted last }
    ensures { IfOk result (IsSolved program.now (caps_of plan.now.settings)) }
{
    prove!(program.n() > 0);
    let phase = Phase::Closed;
    let certificate = certificate_on_all(alloc, program, plan, Claim::Optimal, phase, &last)?;
    let end = last.end;
    let cost = program.cost(&end.point);
    Ok(Solved {
        verdict: Verdict::Optimal { cost },
        point: Some(end.point),
        bricks: traces,
        counted,
        closed: Some(end.made),
        certificate,
    })
}
