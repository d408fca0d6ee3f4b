//! The rules of the claims on all bricks.

ghost use Rattle.std.specs.Prelude.{◌≡◌, ◌≤◌, ◌+◌, ◌&&◌, Some, length, All, IfOk, nat_eq};
ghost use Rattle.lattice_theory.specs.BasisLimits.{IsNarrow};
ghost use Rattle.fold_theory.specs.Programs.{AreWithin};
ghost use Rattle.fold_program.specs.Points.{HasPointShape};
ghost use Rattle.run_theory.specs.Checker.{first_failing, listed_generators};
ghost use Rattle.cert_checker.specs.Answers.{checked};
ghost use Rattle.cert_checker.specs.Folds.{claim_of, brick_parts_fit, fold_parts_fit, meets_links, list_rules};
ghost use Rattle.cert_checker.specs.Folds.{IsPointOf, verdict_of};

use crate::answer::Check;
use crate::points::{are_within, meet_brick_rows, point_of};
use crate::shapes::has_shape;
use certificate::{Certificate, FoldPart};
use complete_lists::is_complete;
use fold_program::{Phase, Point, Program};
use fold_theory::Verdict;
use listed_links::{generators, is_bound, link_matrix};
use listed_potentials::potentials_hold;
use listed_sums::are_closed;
use mat_files::Matrix;
use run_theory::Rule;
use std::alloc::{AllocError, Global};

/// The answer to a claim on all bricks: in phase Closed that the point is optimal, in phase Counted that no point is
/// feasible.
pub(crate) fn check_fold(
    alloc: Global,
    program: &Program,
    phase: Phase,
    c: &Certificate,
    fold: &FoldPart,
) -> Result<Check, AllocError>
    requires claim { c.now.claim ≡ claim_of phase }
    requires fold { c.now.fold ≡ Some fold.now }
    ensures answer { IfOk result (λ a. a ≡ checked program.now c.now) }
{
    prove!(program.n() > 0);
    if !brick_parts_fit(program, c) {
        return Ok(Check::No(Rule::C1));
    }
    let generators = generators(alloc, c.bricks(), program.t())?;
    if !fold_parts_fit(program, fold, generators.rows()) {
        return Ok(Check::No(Rule::C1));
    }
    if !are_within(program, c.point()) {
        return Ok(Check::No(Rule::C1));
    }
    let Some(point) = point_of(alloc, program, c.point())? else {
        return Ok(Check::No(Rule::C1));
    };
    if !meet_brick_rows(program, c.point()) {
        return Ok(Check::No(Rule::C1));
    }
    if !meets_links(program, phase, &point) {
        return Ok(Check::No(Rule::C1));
    }
    if let Some(rule) = broken_list(alloc, program, phase, c, fold, &generators)? {
        return Ok(Check::No(rule));
    }
    if !potentials_hold(
        alloc,
        program,
        phase,
        &point,
        fold.sums(),
        fold.potentials(),
    )? {
        return Ok(Check::No(Rule::C6));
    }
    Ok(last_answer(program, phase, &point))
}

/// Whether the point has a vector of `t` entries for each brick, and each element has `t + s` entries.
fn brick_parts_fit(program: &Program, c: &Certificate) -> bool
    ensures { result ≡ brick_parts_fit program.now c.now }
{
    let bricks = c.bricks();
    has_shape(c.point(), program.n(), program.t())
        && has_shape(bricks, bricks.rows(), program.t() + program.s())
}

/// Whether each element of the links has as many entries as there are generators and linking rows, each sum has `t`
/// beside its level, and the table has a row more than there are bricks and a column for each sum.
fn fold_parts_fit(program: &Program, fold: &FoldPart, generators: u32) -> bool
    requires { generators ≤ 2000 }
    ensures fit { result ≡ fold_parts_fit program.now fold.now generators }
    ensures even { All (λ row. length row ≡ fold.now.potentials.cols) fold.now.potentials.rows }
{
    let (links, sums, potentials) = (fold.links(), fold.sums(), fold.potentials());
    let columns = potentials.cols();
    has_shape(links, links.rows(), generators + program.r())
        && has_shape(sums, sums.rows(), 1 + program.t())
        && potentials.rows() == 1 + program.n()
        && columns == sums.rows()
}

/// Whether the point meets the linking rows, where the phase wants that.
fn meets_links(program: &Program, phase: Phase, point: &Point) -> bool
    requires { HasPointShape program.now point.now }
    ensures { result ≡ meets_links program.now phase point.now }
{
    match phase {
        Phase::Closed => program.link_residual(point) == 0,
        Phase::Counted => true,
    }
}

/// The first rule on the lists of elements and sums that is broken.
fn broken_list(
    alloc: Global,
    program: &Program,
    phase: Phase,
    c: &Certificate,
    fold: &FoldPart,
    generators: &Matrix,
) -> Result<Option<Rule>, AllocError>
    requires generators { generators.now.rows ≡ listed_generators program.now c.now }
    requires cols { generators.now.cols ≡ program.now.link.cols }
    requires few { length generators.now.rows ≤ 2000 }
    requires narrow { All IsNarrow generators.now.rows }
    requires bricks { c.now.bricks.cols ≡ program.now.brick.cols + length program.now.brick.rows }
    requires links { fold.now.links.cols ≡ length generators.now.rows + length program.now.link.rows }
    requires sums { fold.now.sums.cols ≡ 1 + program.now.link.cols }
    ensures { IfOk result (λ rule. rule ≡ first_failing (list_rules program.now phase c.now fold.now)) }
{
    let cols = program.t();
    prove!(program.n() > 0 && cols <= 32 && program.r() <= 16);
    if !is_complete(alloc, program.brick(), c.bricks())? {
        return Ok(Some(Rule::C2));
    }
    let links = fold.links();
    let Some(matrix) = link_matrix(alloc, program.link(), generators)? else {
        return Ok(Some(Rule::C3));
    };
    if !is_complete(alloc, &matrix, links)? {
        return Ok(Some(Rule::C3));
    }
    if !is_bound(phase, program.relations(), &matrix, links, fold.bound()) {
        return Ok(Some(Rule::C4));
    }
    if !are_closed(alloc, fold.sums(), generators, fold.bound())? {
        return Ok(Some(Rule::C5));
    }
    Ok(None)
}

/// The answer where no rule is broken but perhaps the last: in phase Counted the point has to miss the linking rows.
fn last_answer(program: &Program, phase: Phase, point: &Point) -> Check
    requires shape { HasPointShape program.now point.now }
    requires within { AreWithin program.now.bricks point.now }
    ensures { result ≡ verdict_of program.now phase point.now }
{
    match phase {
        Phase::Closed => Check::Yes(Verdict::Optimal {
            cost: program.cost(point),
        }),
        Phase::Counted => match program.link_residual(point) {
            0 => Check::No(Rule::C7),
            residual => Check::Yes(Verdict::InfeasibleLink { residual }),
        },
    }
}
