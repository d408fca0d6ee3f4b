//! A program of two bricks with two columns each, worked by hand: all bounds are 0 to 4, and the columns of a brick
//! are to add up to 9 in the first and to 4 in the second. The first can reach 8.

mod folds;

ghost use Rattle.std.specs.Prelude.{All, IfOk};
ghost use Rattle.lattice_theory.specs.BasisLimits.{IsNarrow};
ghost use Rattle.convex_costs.specs.Bounds.{AreBounded};
ghost use Rattle.lattice_theory.specs.Vectors.{IsBoundedRow};

use crate::{Check, Rule, Verdict, check};
use certificate::parse;
use fold_program::{Cost, Parts, Program};
use mat_files::Matrix;
use std::alloc::{AllocError, Global};
use std::test::Fail;

/// The slack basis of the brick row, as a certificate lists it.
const BASIS: &str = "3 3 0 1 1 1 -1 0 1 0 1";

/// The linking row: the first column.
fn first_column(alloc: Global) -> Result<Matrix, AllocError>
    ensures { IfOk result (λ m. All IsNarrow m.rows) }
{
    Ok(Matrix::new(1, 2, [1, 0].to_vec(alloc)?))
}

/// The brick row: both columns.
fn both_columns(alloc: Global) -> Result<Matrix, AllocError>
    ensures { IfOk result (λ m. All IsNarrow m.rows) }
{
    Ok(Matrix::new(1, 2, [1, 1].to_vec(alloc)?))
}

/// The lower bounds of both bricks.
fn lower(alloc: Global) -> Result<Matrix, AllocError>
    ensures { IfOk result (λ m. All IsBoundedRow m.rows) }
{
    Ok(Matrix::new(2, 2, [0, 0, 0, 0].to_vec(alloc)?))
}

/// The upper bounds of both bricks.
fn upper(alloc: Global) -> Result<Matrix, AllocError>
    ensures { IfOk result (λ m. All IsBoundedRow m.rows) }
{
    Ok(Matrix::new(2, 2, [4, 4, 4, 4].to_vec(alloc)?))
}

/// The right sides, of the linking row and of each brick.
fn rights(alloc: Global) -> Result<Matrix, AllocError>
    ensures { IfOk result (λ m. All IsBoundedRow m.rows) }
{
    Ok(Matrix::new(1, 3, [3, 9, 4].to_vec(alloc)?))
}

/// The square as the cost of each column.
fn squares(alloc: Global) -> Result<Vec<Cost>, AllocError>
    ensures { IfOk result (λ costs. All AreBounded costs.items) }
{
    Ok(vec![in alloc;
        Cost::Quadratic { a: 1, b: 0, c: 0 },
        Cost::Quadratic { a: 1, b: 0, c: 0 },
        Cost::Quadratic { a: 1, b: 0, c: 0 },
        Cost::Quadratic { a: 1, b: 0, c: 0 },
    ]?)
}

/// The program.
fn program(alloc: Global) -> Result<Program, Fail> {
    let parts = Parts {
        link: first_column(alloc)?,
        brick: both_columns(alloc)?,
        lower: lower(alloc)?,
        upper: upper(alloc)?,
        right: rights(alloc)?,
        costs: squares(alloc)?,
    };
    Ok(Program::new(alloc, parts)?)
}

/// The answer to the certificate that this brick cannot meet its rows, with these matrices.
fn answer_to(alloc: Global, brick: &str, point: &str, bricks: &str) -> Result<Check, Fail> {
    let text = format!(in alloc;
        "nfold-certificate 1 claim infeasible-brick {brick} point {point} bricks {bricks} end"
    )?;
    let certificate = parse(alloc, text.as_bytes())?;
    Ok(check(alloc, &program(alloc)?, &certificate)?)
}

#[test]
fn the_first_brick_misses_its_row_by_one(rt: HostRuntime) -> Result<(), Fail> {
    let missed = Verdict::InfeasibleBrick {
        brick: 1,
        residual: 1,
    };
    let answer = answer_to(rt.alloc(), "1", "1 2 4 4", BASIS)?;
    assert_eq!(rt; answer, Check::Yes(missed));
    Ok(())
}

#[test]
fn a_point_is_refused_that_is_outside_or_not_the_best(rt: HostRuntime) -> Result<(), Fail> {
    for (brick, point, rule) in [
        ("0", "1 2 4 4", Rule::B1),
        ("3", "1 2 4 4", Rule::B1),
        ("1", "1 2 5 4", Rule::B1),
        ("1", "1 2 4 -1", Rule::B1),
        ("1", "1 3 4 4 4", Rule::B1),
        ("1", "2 2 4 4 4 4", Rule::B1),
        ("1", "0 2", Rule::B1),
        ("1", "1 2 4 3", Rule::B2),
        ("2", "1 2 4 4", Rule::B2),
        ("2", "1 2 2 2", Rule::C7),
    ] {
        let answer = answer_to(rt.alloc(), brick, point, BASIS)?;
        assert_eq!(rt; answer, Check::No(rule), "at {brick} {point}");
    }
    Ok(())
}

#[test]
fn a_list_is_refused_that_is_no_complete_basis(rt: HostRuntime) -> Result<(), Fail> {
    for (bricks, rule) in [
        ("1 2 1 0", Rule::B1),
        ("2 3 1 -1 0 1 0 1", Rule::C2),
        ("2 3 0 1 1 1 0 1", Rule::C2),
        ("3 3 1 -1 0 0 1 1 1 0 1", Rule::C2),
        ("3 3 0 1 1 1 -1 0 1 0 2", Rule::C2),
        ("4 3 0 1 1 0 1 1 1 -1 0 1 0 1", Rule::C2),
        ("3 3 -1 1 0 0 1 1 1 0 1", Rule::C2),
    ] {
        let answer = answer_to(rt.alloc(), "1", "1 2 4 4", bricks)?;
        assert_eq!(rt; answer, Check::No(rule), "at {bricks}");
    }
    Ok(())
}
