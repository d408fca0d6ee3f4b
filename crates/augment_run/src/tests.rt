//! Programs of two bricks with two columns each, one linking row and one brick row, worked by hand.

ghost use Rattle.std.specs.Prelude.{◌≡◌, ◌≤◌, pos, All, IfOk};
ghost use Rattle.fold_theory.specs.declared.Cost.TheVariants.{Quadratic};
ghost use Rattle.lattice_theory.specs.BasisLimits.{IsNarrow};
ghost use Rattle.lattice_theory.specs.Vectors.{IsBoundedRow};

use crate::{Settings, SolveFault, Solved, solve};
use certificate::print;
use fold_program::{Cost, Parts, Phase, Program};
use fold_shelf::OpenGate;
use fold_theory::Verdict;
use mat_files::Matrix;
use std::alloc::{AllocError, Global};
use std::rt::HostRuntime;
use std::test::Fail;
use std::thread::Threads;

/// The certificate of the point (1, 3), (2, 2), where the columns have to add up to 3, 4 and 4.
const BEST: &str =
    "nfold-certificate 1\nclaim optimal\npoint\n2 2\n1 3\n2 2\nbricks\n3 3\n0 1 1\n1 -1 0\n1 0 1\n\
links\n1 2\n1 1\nbound 2\nsums\n5 3\n2 -2 2\n1 -1 1\n0 0 0\n1 1 -1\n2 2 -2\n\
potentials\n3 5\n8 3 0 -3 -4\n12 5 0 -3 -4\nnone none 0 none none\nend\n";

/// One row with these two entries.
fn row(alloc: Global, entries: [i64; 2]) -> Result<Matrix, AllocError>
    requires { IsNarrow entries }
    ensures { IfOk result (λ m. All IsNarrow m.rows) }
{
    Ok(Matrix::new(1, 2, entries.to_vec(alloc)?))
}

/// The bounds of both bricks.
fn bounds(alloc: Global, entries: [i64; 4]) -> Result<Matrix, AllocError>
    requires { IsBoundedRow entries }
    ensures { IfOk result (λ m. All IsBoundedRow m.rows) }
{
    Ok(Matrix::new(2, 2, entries.to_vec(alloc)?))
}

/// The right sides, of the linking row and of each brick.
fn rights(alloc: Global, entries: [i64; 3]) -> Result<Matrix, AllocError>
    requires { IsBoundedRow entries }
    ensures { IfOk result (λ m. All IsBoundedRow m.rows) }
{
    Ok(Matrix::new(1, 3, entries.to_vec(alloc)?))
}

/// The square of a number.
fn square() -> Cost
    ensures { result ≡ Quadratic (pos 1) (pos 0) (pos 0) }
{
    Cost::Quadratic { a: 1, b: 0, c: 0 }
}

/// No cost at all.
fn free() -> Cost
    ensures { result ≡ Quadratic (pos 0) (pos 0) (pos 0) }
{
    Cost::Quadratic { a: 0, b: 0, c: 0 }
}

/// The program whose first columns add up to the first of these numbers, and the columns of each brick to one of the
/// others, each from 0 to 4, at the cost of the squares of the first columns.
fn program(alloc: Global, right: [i64; 3]) -> Result<Program, Fail>
    requires { IsBoundedRow right }
{
    let parts = Parts {
        link: row(alloc, [1, 0])?,
        brick: row(alloc, [1, 1])?,
        lower: bounds(alloc, [0; 4])?,
        upper: bounds(alloc, [4; 4])?,
        right: rights(alloc, right)?,
        costs: vec![in alloc; square(), free(), square(), free()]?,
    };
    Ok(Program::new(alloc, parts)?)
}

/// The limits of a solve, of which the last two vary.
fn limits(max_basis: u32, max_sums: u32) -> Settings
    ensures { result ≡ record { workers = 1; max_basis = max_basis; max_sums = max_sums } }
{
    Settings {
        workers: 1,
        max_basis,
        max_sums,
    }
}

/// What is solved of that program within wide limits.
fn solved<R: Threads + Sync>(rt: &R, alloc: Global, right: [i64; 3]) -> Result<Solved, Fail>
    requires { IsBoundedRow right }
{
    let program = program(alloc, right)?;
    Ok(solve(rt, alloc, &program, limits(2000, 20000), &OpenGate)?)
}

/// What stops the solve of that program within these limits.
fn fault<R: Threads + Sync>(
    rt: &R,
    alloc: Global,
    max_basis: u32,
    max_sums: u32,
) -> Result<Option<SolveFault>, Fail>
    requires basis { 1 ≤ max_basis }
    requires small_basis { max_basis ≤ 2000 }
    requires sums { 1 ≤ max_sums }
    requires few_sums { max_sums ≤ 20000 }
{
    let program = program(alloc, [3, 4, 4])?;
    Ok(solve(rt, alloc, &program, limits(max_basis, max_sums), &OpenGate).err())
}

#[test]
fn both_phases_lead_to_the_best_point(rt: HostRuntime) -> Result<(), Fail> {
    let solved = solved(&rt, rt.alloc(), [3, 4, 4])?;
    assert_eq!(rt; solved.verdict, Verdict::Optimal { cost: 5 });
    let text = print(rt.alloc(), &solved.certificate)?;
    assert_eq!(rt; text.as_slice(), BEST.as_bytes());
    assert!(rt; solved.point.is_some());
    assert_eq!(rt; solved.counted.ok_or("not counted")?.steps.len(), 2);
    assert_eq!(rt; solved.closed.ok_or("not closed")?.steps.len(), 1);
    Ok(())
}

#[test]
fn rows_that_cannot_be_met_are_named(rt: HostRuntime) -> Result<(), Fail> {
    let brick = Verdict::InfeasibleBrick {
        brick: 1,
        residual: 1,
    };
    assert_eq!(rt; solved(&rt, rt.alloc(), [3, 9, 4])?.verdict, brick);
    let link = Verdict::InfeasibleLink { residual: 1 };
    assert_eq!(rt; solved(&rt, rt.alloc(), [9, 4, 4])?.verdict, link);
    Ok(())
}

#[test]
fn a_limit_that_is_passed_is_named(rt: HostRuntime) -> Result<(), Fail> {
    let few_sums = SolveFault::Sums {
        phase: Phase::Counted,
    };
    assert_eq!(rt; fault(&rt, rt.alloc(), 3, 5)?, None);
    assert_eq!(rt; fault(&rt, rt.alloc(), 3, 4)?, Some(few_sums));
    assert_eq!(rt; fault(&rt, rt.alloc(), 2, 5)?, Some(SolveFault::BrickBasis));
    Ok(())
}
