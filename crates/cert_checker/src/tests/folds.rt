//! The worked program of two bricks whose first columns are to add up to 3, and that program where they are to add up
//! to 9: they reach 8.

ghost use Rattle.std.specs.Prelude.{All, IfOk};
ghost use Rattle.lattice_theory.specs.BasisLimits.{IsNarrow};
ghost use Rattle.convex_costs.specs.Bounds.{AreBounded};
ghost use Rattle.lattice_theory.specs.Vectors.{IsBoundedRow};

use super::{both_columns, first_column, lower, upper};
use crate::{Check, Rule, Verdict, check};
use certificate::parse;
use fold_program::{Cost, Parts, Program};
use mat_files::Matrix;
use std::alloc::{AllocError, Global};
use std::test::Fail;

/// The claim that the best point is optimal, with the lists of elements.
const BEST: &str = "optimal point 2 2 1 3 2 2 bricks 3 3 0 1 1 1 -1 0 1 0 1 links 1 2 1 1";

/// The claim that no point is feasible, with the lists of elements.
const FARTHEST: &str =
    "infeasible-link point 2 2 4 0 4 0 bricks 3 3 0 1 1 1 -1 0 1 0 1 links 1 2 1 1";

/// The bound and the sums.
const SUMS: &str = "bound 2 sums 5 3 2 -2 2 1 -1 1 0 0 0 1 1 -1 2 2 -2";

/// The potentials for the best point.
const POTENTIALS: &str = "3 5 8 3 0 -3 -4 12 5 0 -3 -4 none none 0 none none";

/// The potentials for the point farthest out.
const REACHES: &str = "3 5 2 1 0 -1 -1 2 1 0 -1 -1 2 1 0 -1 0";

/// The right sides: the first columns are to add up to 3, or to 9.
fn rights(alloc: Global, far: bool) -> Result<Matrix, AllocError>
    ensures { IfOk result (λ m. All IsBoundedRow m.rows) }
{
    let rights = if far { [9, 4, 4] } else { [3, 4, 4] };
    Ok(Matrix::new(1, 3, rights.to_vec(alloc)?))
}

/// The square as the cost of each first column.
fn costs(alloc: Global) -> Result<Vec<Cost>, AllocError>
    ensures { IfOk result (λ costs. All AreBounded costs.items) }
{
    Ok(vec![in alloc;
        Cost::Quadratic { a: 1, b: 0, c: 0 },
        Cost::Quadratic { a: 0, b: 0, c: 0 },
        Cost::Quadratic { a: 1, b: 0, c: 0 },
        Cost::Quadratic { a: 0, b: 0, c: 0 },
    ]?)
}

/// The answer to the certificate with this claim, these sums and these potentials.
fn answer_to(
    alloc: Global,
    far: bool,
    claim: &str,
    sums: &str,
    potentials: &str,
) -> Result<Check, Fail> {
    let parts = Parts {
        link: first_column(alloc)?,
        brick: both_columns(alloc)?,
        lower: lower(alloc)?,
        upper: upper(alloc)?,
        right: rights(alloc, far)?,
        costs: costs(alloc)?,
    };
    let program = Program::new(alloc, parts)?;
    let text = format!(in alloc;
        "nfold-certificate 1 claim {claim} {sums} potentials {potentials} end"
    )?;
    let certificate = parse(alloc, text.as_bytes())?;
    Ok(check(alloc, &program, &certificate)?)
}

#[test]
fn the_best_point_is_accepted(rt: HostRuntime) -> Result<(), Fail> {
    let answer = answer_to(rt.alloc(), false, BEST, SUMS, POTENTIALS)?;
    assert_eq!(rt; answer, Check::Yes(Verdict::Optimal { cost: 5 }));
    Ok(())
}

#[test]
fn a_point_out_of_reach_is_accepted_and_not_where_it_is_within(
    rt: HostRuntime,
) -> Result<(), Fail> {
    let far = answer_to(rt.alloc(), true, FARTHEST, SUMS, REACHES)?;
    assert_eq!(rt; far, Check::Yes(Verdict::InfeasibleLink { residual: 1 }));
    let near = answer_to(rt.alloc(), false, FARTHEST, SUMS, REACHES)?;
    assert_eq!(rt; near, Check::No(Rule::C6));
    Ok(())
}

#[test]
fn potentials_are_refused_that_do_not_hold(rt: HostRuntime) -> Result<(), Fail> {
    for potentials in [
        "3 5 8 3 0 -3 -4 12 5 0 -2 -4 none none 0 none none",
        "3 5 8 3 -1 -3 -4 12 5 0 -3 -4 none none 0 none none",
        "3 5 8 3 none -3 -4 12 5 0 -3 -4 none none 0 none none",
        "3 5 8 3 0 -3 -4 12 5 0 -3 -4 none none 1 none none",
    ] {
        let answer = answer_to(rt.alloc(), false, BEST, SUMS, potentials)?;
        assert_eq!(rt; answer, Check::No(Rule::C6), "at {potentials}");
    }
    Ok(())
}

#[test]
fn lists_are_refused_that_do_not_suit(rt: HostRuntime) -> Result<(), Fail> {
    for (claim, rule) in [
        (
            "optimal point 2 2 5 -1 2 2 bricks 3 3 0 1 1 1 -1 0 1 0 1 links 1 2 1 1",
            Rule::C1,
        ),
        (
            "optimal point 2 2 1 2 2 2 bricks 3 3 0 1 1 1 -1 0 1 0 1 links 1 2 1 1",
            Rule::C1,
        ),
        (
            "optimal point 2 2 2 2 2 2 bricks 3 3 0 1 1 1 -1 0 1 0 1 links 1 2 1 1",
            Rule::C1,
        ),
        (
            "optimal point 2 2 1 3 2 2 bricks 3 3 0 1 1 1 -1 0 1 0 1 links 1 3 1 1 1",
            Rule::C1,
        ),
        (
            "optimal point 2 2 1 3 2 2 bricks 2 3 0 1 1 1 -1 0 links 1 2 1 1",
            Rule::C2,
        ),
        (
            "optimal point 2 2 1 3 2 2 bricks 3 3 0 1 1 1 -1 0 1 0 1 links 1 2 1 2",
            Rule::C3,
        ),
    ] {
        let answer = answer_to(rt.alloc(), false, claim, SUMS, POTENTIALS)?;
        assert_eq!(rt; answer, Check::No(rule), "at {claim}");
    }
    Ok(())
}

#[test]
fn sums_are_refused_that_stop_too_soon(rt: HostRuntime) -> Result<(), Fail> {
    let light = "bound 1 sums 5 3 2 -2 2 1 -1 1 0 0 0 1 1 -1 2 2 -2";
    let answer = answer_to(rt.alloc(), false, BEST, light, POTENTIALS)?;
    assert_eq!(rt; answer, Check::No(Rule::C4));
    let fewer = "bound 2 sums 4 3 2 -2 2 1 -1 1 0 0 0 1 1 -1";
    let potentials = "3 4 8 3 0 -3 12 5 0 -3 none none 0 none";
    let answer = answer_to(rt.alloc(), false, BEST, fewer, potentials)?;
    assert_eq!(rt; answer, Check::No(Rule::C5));
    Ok(())
}
