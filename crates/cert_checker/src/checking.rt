//! The checker of certificates.

ghost use Rattle.std.specs.Prelude.{◌≡◌, ◌≤◌, ◌+◌, ◌&&◌, length, IfOk};
ghost use Rattle.run_theory.specs.declared.Claim.TheVariants as claim;
ghost use Rattle.fold_theory.specs.Programs.{IsProgram};
ghost use Rattle.cert_checker.specs.Answers.{checked, IsTrueYes, parts_fit};

use crate::answer::Check;
use crate::folds::check_fold;
use crate::shapes::has_shape;
use crate::steps::no_step_helps;
use certificate::Certificate;
use complete_lists::is_complete;
use fold_program::Program;
use fold_theory::{Phase, Verdict};
use run_theory::{Claim, Rule};
use std::alloc::{AllocError, Global};

/// Whether the certificate shows what it claims of the program: yes, with the verdict, exactly where it breaks no
/// rule, and else no, with the first rule that it breaks.
///
/// The rules of a claim on all bricks, in order: `C1`, the parts have the shapes of the program, and the point is
/// within the bounds, meets the rows of the bricks and, where it is claimed to be optimal, the linking rows; `C2`,
/// the list of elements is complete for the lattice of the matrix of all bricks; `C3`, that of the links is complete
/// for the lattice of the link matrix; `C4`, the bound is at least the complexity; `C5`, the sums are closed below
/// the bound; `C6`, the potentials hold; `C7`, where no point is claimed to be feasible, the point misses the linking
/// rows.
///
/// Those of the claim that one brick cannot meet its rows: `B1`, there is such a brick, the point and the list have the
/// shapes of the program, and the point is within the brick's bounds; `C2`, as before; `B2`, no step by an element,
/// forward or back, leads to a point within the bounds that misses the brick's rows by less; `C7`, the point misses
/// them. The verdict of a yes is true of the program.
pub fn check(alloc: Global, program: &Program, c: &Certificate) -> Result<Check, AllocError>
    ensures answer { IfOk result (λ a. a ≡ checked program.now c.now) }
    ensures holds { IfOk result (IsTrueYes program.now) }
{
    let bricks = program.n();
    match (c.claim(), c.fold()) {
        (Claim::Optimal, Some(fold)) => check_fold(alloc, program, Phase::Closed, c, fold),
        (Claim::InfeasibleLink, Some(fold)) => check_fold(alloc, program, Phase::Counted, c, fold),
        (Claim::InfeasibleBrick { brick }, _) => check_brick(alloc, program, c, brick, bricks),
        (Claim::Optimal | Claim::InfeasibleLink, None) => Ok(Check::No(Rule::C1)),
    }
}

/// The answer to the claim that this brick, of so many, cannot meet its rows.
fn check_brick(
    alloc: Global,
    program: &Program,
    c: &Certificate,
    brick: u32,
    bricks: u32,
) -> Result<Check, AllocError>
    requires claim { c.now.claim ≡ claim.InfeasibleBrick brick }
    requires bricks { bricks ≡ length program.now.bricks }
    requires program { IsProgram program.now }
    ensures answer { IfOk result (λ a. a ≡ checked program.now c.now) }
{
    if brick == 0 || brick > bricks || !parts_fit(program, c) {
        return Ok(Check::No(Rule::B1));
    }
    let x = c.point().row(1);
    if !program.is_within(brick, x) {
        return Ok(Check::No(Rule::B1));
    }
    if !is_complete(alloc, program.brick(), c.bricks())? {
        return Ok(Check::No(Rule::C2));
    }
    if !no_step_helps(alloc, program, brick, c.bricks(), x)? {
        return Ok(Check::No(Rule::B2));
    }
    match program.residual(brick, x) {
        0 => Ok(Check::No(Rule::C7)),
        residual => Ok(Check::Yes(Verdict::InfeasibleBrick { brick, residual })),
    }
}

/// Whether the point is one row of `t` entries, and each element has `t + s` entries.
fn parts_fit(program: &Program, c: &Certificate) -> bool
    ensures { result ≡ parts_fit program.now c.now }
{
    let bricks = c.bricks();
    has_shape(c.point(), 1, program.t())
        && has_shape(bricks, bricks.rows(), program.t() + program.s())
}
