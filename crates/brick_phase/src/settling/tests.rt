//! Programs of two bricks with two columns each, no linking row and one brick row, worked by hand.

ghost use Rattle.std.specs.Prelude.{◌≡◌, pos, All, IfSome, MatchBool};
ghost use Rattle.fold_theory.specs.declared.Cost.TheVariants.{Quadratic};
ghost use Rattle.lattice_theory.specs.BasisLimits.{IsNarrow};
ghost use Rattle.lattice_theory.specs.Vectors.{IsBoundedRow};

use super::{BrickEnd, settle_brick};
use crate::steps::BrickStep;
use fold_program::{Cost, Parts, Program};
use mat_files::Matrix;
use pottier::slack_basis;
use std::alloc::{AllocError, Global};
use std::rt::HostRuntime;
use std::test::Fail;

/// Whether each entry is below `2^31` in absolute value.
fn is_small(entries: &[i64]) -> bool
    ensures { MatchBool result (IsNarrow entries.now) (IsNarrow entries.now → ⊥) }
{
    entries.iter().all(|x| x.unsigned_abs() < 1 << 31)
}

/// The matrix with these small entries, or none where they are others.
fn matrix(alloc: Global, rows: u32, cols: u32, entries: &[i64]) -> Option<Matrix>
    ensures narrow { IfSome result (λ m. All IsNarrow m.rows) }
    ensures bounded { IfSome result (λ m. All IsBoundedRow m.rows) }
{
    let kept = Vec::from_slice(alloc, entries).ok()?;
    if kept.len() as u64 != u64::from(rows) * u64::from(cols) || !is_small(&kept) {
        return None;
    }
    Some(Matrix::new(rows, cols, kept))
}

/// No cost at all.
fn free() -> Cost
    ensures { result ≡ Quadratic (pos 0) (pos 0) (pos 0) }
{
    Cost::Quadratic { a: 0, b: 0, c: 0 }
}

/// The program with this brick row, these right sides and these bounds.
fn program(
    alloc: Global,
    row: &[i64],
    right: &[i64],
    lower: &[i64],
    upper: &[i64],
) -> Option<Program> {
    let parts = Parts {
        link: matrix(alloc, 0, 2, &[])?,
        brick: matrix(alloc, 1, 2, row)?,
        lower: matrix(alloc, 2, 2, lower)?,
        upper: matrix(alloc, 2, 2, upper)?,
        right: matrix(alloc, 1, 2, right)?,
        costs: vec![in alloc; free(), free(), free(), free()].ok()?,
    };
    Program::new(alloc, parts).ok()
}

/// A run by its numbers: the point, the exponents and vectors of the steps one after the other, and the residual.
#[derive(Drop)]
struct Summary {
    point: Vec<i64>,
    steps: Vec<i64>,
    residual: u128,
}

/// The run of a brick.
fn run(alloc: Global, program: Option<Program>, i: u32) -> Result<Summary, Fail> {
    let program = program.ok_or("a program")?;
    match settled(alloc, &program, i)? {
        BrickEnd::Feasible { point, trace } => {
            let steps = numbers(alloc, &trace)?;
            Ok(Summary {
                point,
                steps,
                residual: 0,
            })
        }
        BrickEnd::Stuck {
            point,
            trace,
            residual,
        } => {
            let steps = numbers(alloc, &trace)?;
            Ok(Summary {
                point,
                steps,
                residual,
            })
        }
    }
}

/// The end of a brick's run.
fn settled(alloc: Global, program: &Program, i: u32) -> Result<BrickEnd, Fail> {
    if i == 0 || i > program.n() || program.t() > 32 || program.s() > 16 {
        return Err("no such brick")?;
    }
    let basis = slack_basis(alloc, program.brick(), 2000)?;
    Ok(settle_brick(alloc, program, i, &basis)?)
}

/// The exponents and vectors of the steps, one after the other.
fn numbers(alloc: Global, trace: &[BrickStep]) -> Result<Vec<i64>, AllocError> {
    let mut all = Vec::new(alloc);
    for step in trace {
        all.push(i64::from(step.k))?;
        all.extend_from_slice(&step.vector)?;
    }
    Ok(all)
}

#[test]
fn a_brick_steps_until_it_is_stuck(rt: HostRuntime) -> Result<(), Fail> {
    let program = program(rt.alloc(), &[1, 1], &[9, 4], &[0; 4], &[4; 4]);
    let run = run(rt.alloc(), program, 1)?;
    assert_eq!(rt; run.point.as_slice(), [4, 4].as_slice());
    assert_eq!(rt; run.steps.as_slice(), [2, 0, 1, 2, 1, 0].as_slice());
    assert_eq!(rt; run.residual, 1);
    Ok(())
}

#[test]
fn a_brick_steps_until_it_meets_its_row(rt: HostRuntime) -> Result<(), Fail> {
    let program = program(rt.alloc(), &[1, 1], &[9, 4], &[0; 4], &[4; 4]);
    let run = run(rt.alloc(), program, 2)?;
    assert_eq!(rt; run.point.as_slice(), [0, 4].as_slice());
    assert_eq!(rt; run.steps.as_slice(), [2, 0, 1].as_slice());
    assert_eq!(rt; run.residual, 0);
    Ok(())
}

#[test]
fn of_equal_residuals_the_least_length_comes_first(rt: HostRuntime) -> Result<(), Fail> {
    let program = program(rt.alloc(), &[2, 2], &[3, 3], &[0; 4], &[4; 4]);
    let run = run(rt.alloc(), program, 1)?;
    assert_eq!(rt; run.point.as_slice(), [0, 1].as_slice());
    assert_eq!(rt; run.steps.as_slice(), [0, 0, 1].as_slice());
    assert_eq!(rt; run.residual, 1);
    Ok(())
}

#[test]
fn a_brick_starts_nearest_to_zero(rt: HostRuntime) -> Result<(), Fail> {
    let program = program(rt.alloc(), &[2, 2], &[0, 0], &[2, -4, 0, 0], &[4, -2, 4, 4]);
    let run = run(rt.alloc(), program, 1)?;
    assert_eq!(rt; run.point.as_slice(), [2, -2].as_slice());
    assert_eq!(rt; run.steps.len(), 0);
    assert_eq!(rt; run.residual, 0);
    Ok(())
}
