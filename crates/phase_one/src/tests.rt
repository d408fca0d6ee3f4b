//! Programs of two bricks with two columns each, one linking row and one brick row, worked by hand.

ghost use Rattle.std.specs.Prelude.{◌≡◌, pos, List, All, IfOk};
ghost use Rattle.lattice_theory.specs.Vectors.{Vector, IsBoundedRow};
ghost use Rattle.fold_theory.specs.declared.Cost.TheVariants.{Quadratic};
ghost use Rattle.lattice_theory.specs.BasisLimits.{IsNarrow};
ghost use Rattle.phase_one.specs.Started.{IsStarted};

use super::{Start, counted, judge, start};
use fold_program::{Cost, Parts, Program};
use mat_files::Matrix;
use pottier::slack_basis;
use std::alloc::{AllocError, Global};
use std::rt::HostRuntime;
use std::test::Fail;

/// One row with these two entries.
fn row(alloc: Global, entries: [i64; 2]) -> Result<Matrix, AllocError>
    requires { IsNarrow entries }
    ensures { IfOk result (λ m. All IsNarrow m.rows) }
{
    Ok(Matrix::new(1, 2, entries.to_vec(alloc)?))
}

/// The bounds of both bricks.
fn bounds(alloc: Global, entries: [i64; 4]) -> Result<Matrix, AllocError>
    requires { IsBoundedRow entries }
    ensures { IfOk result (λ m. All IsBoundedRow m.rows) }
{
    Ok(Matrix::new(2, 2, entries.to_vec(alloc)?))
}

/// The right sides, of the linking row and of each brick.
fn rights(alloc: Global, entries: [i64; 3]) -> Result<Matrix, AllocError>
    requires { IsBoundedRow entries }
    ensures { IfOk result (λ m. All IsBoundedRow m.rows) }
{
    Ok(Matrix::new(1, 3, entries.to_vec(alloc)?))
}

/// No cost at all.
fn free() -> Cost
    ensures { result ≡ Quadratic (pos 0) (pos 0) (pos 0) }
{
    Cost::Quadratic { a: 0, b: 0, c: 0 }
}

/// The program with these right sides, whose bounds are all 0 to 4.
fn program(alloc: Global, right: [i64; 3]) -> Result<Program, Fail>
    requires { IsBoundedRow right }
{
    let parts = Parts {
        link: row(alloc, [1, 0])?,
        brick: row(alloc, [1, 1])?,
        lower: bounds(alloc, [0; 4])?,
        upper: bounds(alloc, [4; 4])?,
        right: rights(alloc, right)?,
        costs: vec![in alloc; free(), free(), free(), free()]?,
    };
    Ok(Program::new(alloc, parts)?)
}

/// How the runs of its bricks end.
fn started(alloc: Global, program: &Program) -> Result<Start, Fail>
    ensures { IfOk result (λ s. (basis : List Vector) × IsStarted program.now basis s) }
{
    if program.t() > 32 || program.s() > 16 {
        return Err("more columns or rows than a program has")?;
    }
    let basis = slack_basis(alloc, program.brick(), 2000)?;
    Ok(start(alloc, program, &basis)?)
}

#[test]
fn bricks_that_settle_make_a_start(rt: HostRuntime) -> Result<(), Fail> {
    let program = program(rt.alloc(), [3, 4, 2])?;
    let Start::Ready { point, traces } = started(rt.alloc(), &program)? else {
        return Err("no start")?;
    };
    assert_eq!(rt; program.n(), 2);
    assert_eq!(rt; point.brick(1), [0, 4].as_slice());
    assert_eq!(rt; point.brick(2), [0, 2].as_slice());
    assert_eq!(rt; traces.len(), 2);
    assert_eq!(rt; judge(&program, &point), 3);
    assert!(rt; counted(&program, &point));
    Ok(())
}

/// The first stuck brick with these right sides, how many runs there are, its last entries and its residual.
fn stuck(alloc: Global, right: [i64; 3]) -> Result<(u32, usize, Vec<i64>, u128), Fail>
    requires { IsBoundedRow right }
{
    let program = program(alloc, right)?;
    match started(alloc, &program)? {
        Start::Ready { .. } => Err("no brick is stuck")?,
        Start::Stuck {
            brick,
            point,
            traces,
            residual,
        } => Ok((brick, traces.len(), point, residual)),
    }
}

#[test]
fn the_first_brick_that_is_stuck_is_named(rt: HostRuntime) -> Result<(), Fail> {
    let (brick, runs, point, residual) = stuck(rt.alloc(), [3, 9, 10])?;
    assert_eq!(rt; (brick, runs, residual), (1, 1, 1));
    assert_eq!(rt; point.as_slice(), [4, 4].as_slice());
    let (brick, runs, point, residual) = stuck(rt.alloc(), [3, 4, 10])?;
    assert_eq!(rt; (brick, runs, residual), (2, 2, 2));
    assert_eq!(rt; point.as_slice(), [4, 4].as_slice());
    Ok(())
}
