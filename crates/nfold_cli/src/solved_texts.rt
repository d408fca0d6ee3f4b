//! The whole text of `solve`: the trace where it is asked for, and the answer.

ghost use Rattle.std.specs.Prelude.{◌≡◌, ◌++◌, All, IfOk, flat_map};
ghost use Rattle.phase_one.specs.Started.{lists};
ghost use Rattle.nfold_cli.specs.RunTexts as specs;
ghost use Rattle.nfold_cli.specs.SolvedTexts.{AreShort, AreShortSteps, IsShortRun, HasShortSteps};
ghost use Rattle.nfold_cli.specs.SolvedTexts.{solved_outcome, trace_text};

use crate::run_texts::{brick_step_text, made_text, step_text};
use crate::texts::{verdict_text, with_number};
use augment_run::{RunRecord, Solved, Step};
use brick_phase::BrickStep;
use fold_theory::{Phase, Verdict};
use mat_files::{Matrix, print};
use std::alloc::{AllocError, Global};

/// What `solve` prints of an outcome: with `trace` a line for each step and for each phase that ran; then the verdict,
/// and where it is optimal the cost and the point as a matrix file, which is the point of the certificate. No length is
/// above `2^63`.
pub fn solved_text(alloc: Global, solved: &Solved, trace: bool) -> Result<Vec<u8>, AllocError>
    requires { HasShortSteps solved.now }
    ensures { IfOk result (λ t. t.items ≡
        specs.outcome_text solved.now.certificate.point.cols trace (solved_outcome solved.now)) }
{
    let answer = answer_text(alloc, solved.verdict, solved.certificate.point())?;
    if !trace {
        return Ok(answer);
    }
    let mut text = traced(alloc, solved)?;
    text.extend_from_slice(&answer)?;
    Ok(text)
}

/// The verdict, and the point where it is optimal.
fn answer_text(alloc: Global, verdict: Verdict, point: &Matrix) -> Result<Vec<u8>, AllocError>
    ensures { IfOk result (λ t. t.items ≡ specs.answer_text point.now.cols verdict point.now.rows) }
{
    let Verdict::Optimal { cost } = verdict else {
        let mut text = verdict_text(alloc, verdict)?;
        text.extend_from_slice(b"\n")?;
        return Ok(text);
    };
    let mut text = with_number(Vec::new(alloc), b"optimal\ncost ", cost)?;
    text.extend_from_slice(b"\n")?;
    text.extend_from_slice(&print(alloc, point)?)?;
    Ok(text)
}

/// The lines on the steps.
fn traced(alloc: Global, solved: &Solved) -> Result<Vec<u8>, AllocError>
    requires { HasShortSteps solved.now }
    ensures { IfOk result (λ t. t.items ≡ trace_text solved.now.certificate.point.cols (solved_outcome solved.now)) }
{
    let cols = solved.certificate.point().cols();
    let text = with_brick_runs(alloc, Vec::new(alloc), &solved.bricks)?;
    let text = with_run(alloc, text, Phase::Counted, cols, &solved.counted)?;
    with_run(alloc, text, Phase::Closed, cols, &solved.closed)
}

/// The text with the lines on the bricks' runs after it.
fn with_brick_runs(
    alloc: Global,
    mut text: Vec<u8>,
    runs: &[Vec<BrickStep>],
) -> Result<Vec<u8>, AllocError>
    requires { All AreShort (lists runs.now) }
    ensures { IfOk result (λ t. t.items ≡ text.items ++ specs.brick_runs_text 1 (lists runs.now)) }
{
    for (place, steps) in runs.iter().enumerate() {
        text = with_brick_run(alloc, text, place + 1, steps)?;
    }
    Ok(text)
}

/// The text with the lines on the run of one brick after it.
fn with_brick_run(
    alloc: Global,
    mut text: Vec<u8>,
    brick: usize,
    steps: &[BrickStep],
) -> Result<Vec<u8>, AllocError>
    requires { AreShort steps.now }
    ensures { IfOk result (λ t. t.items ≡ text.items ++ flat_map (specs.brick_step_text brick) steps.now) }
{
    for step in steps {
        text.extend_from_slice(&brick_step_text(alloc, brick, step.k, &step.vector)?)?;
    }
    Ok(text)
}

/// The text with the lines on the run of a phase after it, where there was one.
fn with_run(
    alloc: Global,
    text: Vec<u8>,
    phase: Phase,
    cols: u32,
    run: &Option<RunRecord>,
) -> Result<Vec<u8>, AllocError>
    requires { IsShortRun run.now }
    ensures { IfOk result (λ t. t.items ≡ text.items ++ specs.run_text phase cols run.now) }
{
    let Some(run) = run else {
        return Ok(text);
    };
    let mut text = with_steps(alloc, text, phase, cols, &run.steps)?;
    text.extend_from_slice(&made_text(alloc, phase, run.steps.len(), run.factor, run.gain)?)?;
    Ok(text)
}

/// The text with the lines on the steps of a phase after it.
fn with_steps(
    alloc: Global,
    mut text: Vec<u8>,
    phase: Phase,
    cols: u32,
    steps: &[Step],
) -> Result<Vec<u8>, AllocError>
    requires { AreShortSteps steps.now }
    ensures { IfOk result (λ t. t.items ≡ text.items ++ flat_map (specs.step_text phase cols) steps.now) }
{
    for step in steps {
        text.extend_from_slice(&step_text(alloc, phase, cols, step)?)?;
    }
    Ok(text)
}
