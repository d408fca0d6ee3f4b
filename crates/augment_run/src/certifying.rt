//! The certificates of a solve.

ghost use Rattle.std.specs.Prelude.{◌≡◌, ◌+◌, ◌++◌, ◌<◌, ◌≤◌, ◌^◌, [], length, get_or, All, IfOk, OnOk};
ghost use Rattle.lattice_theory.specs.BasisLimits.{IsNarrow};
ghost use Rattle.lattice_theory.specs.SignedSums.{vectors};
ghost use Rattle.fold_theory.specs.Programs.{Bricks, IsWithin};
ghost use Rattle.lattice_theory.specs.Vectors.{IsBoundedRow};
ghost use Rattle.fold_program.specs.Places.{OfBrick};
ghost use Rattle.fold_program.specs.Points.{HasPointShape};
ghost use Rattle.run_theory.specs.Outcomes.{ArePotentials, IsFoldPart, point_matrix};
ghost use Rattle.layer_sieve.specs.Reaching.{AreAtMost};
ghost use Rattle.certificate.specs.Readable.{IsOnAllBricks};
ghost use Rattle.augment_run.specs.Certifying.{stuck_certificate, matrix_of_sums, IsOnAll};
ghost use Rattle.augment_run.specs.Stages.{bases_of, IsPlan, IsEnded};

use crate::solving::phases::Ended;
use crate::solving::plans::Plan;
use brick_dp::{Fold, Potentials, potentials};
use brick_sums::Sums;
use certificate::{Certificate, FoldPart, Table};
use fold_program::{Phase, Point, Program};
use mat_files::Matrix;
use pottier::Basis;
use run_theory::Claim;
use std::alloc::{AllocError, Global};
use sum_laws::brick_sums_make_a_fold;

/// The certificate that this brick is stuck at a point within its bounds.
pub(crate) fn certificate_on_brick(
    alloc: Global,
    program: &Program,
    bricks: &Basis,
    brick: u32,
    point: &[i64],
) -> Result<Certificate, AllocError>
    requires matrix { bricks.now.matrix ≡ program.now.brick }
    requires from { 1 ≤ brick }
    requires within { OfBrick program.now brick (λ b. IsWithin b point.now) }
    ensures { IfOk result (λ c. c ≡ stuck_certificate program.now bricks.now.elements brick point.now) }
{
    prove!(program.n() > 0);
    let entries = Vec::from_slice(alloc, point)?;
    let point = Matrix::new(1, program.t(), entries);
    let cols = program.t() + program.s();
    let bricks = basis_rows(alloc, cols, bricks)?;
    Ok(Certificate::on_brick(brick, point, bricks))
}

/// The certificate of a claim on all bricks, where a phase has ended.
pub(crate) fn certificate_on_all(
    alloc: Global,
    program: &Program,
    plan: &Plan,
    claim: Claim,
    phase: Phase,
    last: &Ended,
) -> Result<Certificate, AllocError>
    requires claim { IsOnAllBricks claim }
    requires plan { (x : Bricks) × IsPlan program.now x plan.now }
    requires ended { (x : Bricks) × IsEnded program.now phase plan.now x last.now }
    ensures { IfOk result (IsOnAll program.now phase (bases_of plan.now) claim last.now.end.point) }
{
    prove!(program.n() > 0);
    let point = point_rows(alloc, program, &last.end.point)?;
    let cols = program.t() + program.s();
    let bricks = basis_rows(alloc, cols, &plan.bricks)?;
    let fold = fold_part(alloc, program, plan, phase, last)?;
    Ok(Certificate::on_all_bricks(claim, point, bricks, fold))
}

/// The part of the certificate about the linking rows.
fn fold_part(
    alloc: Global,
    program: &Program,
    plan: &Plan,
    phase: Phase,
    last: &Ended,
) -> Result<FoldPart, AllocError>
    requires plan { (x : Bricks) × IsPlan program.now x plan.now }
    requires ended { (x : Bricks) × IsEnded program.now phase plan.now x last.now }
    ensures { IfOk result (IsFoldPart program.now phase (bases_of plan.now) last.now.end.point) }
{
    prove!(program.n() > 0);
    prove!(program.t() > 0);
    prove!(program.r() <= 16);
    brick_sums_make_a_fold();
    let cols = plan.links.cols() + plan.links.rows();
    let links = basis_rows(alloc, cols, &plan.basis)?;
    let sums = sum_rows(alloc, program, &last.sums)?;
    let potentials = least_costs(alloc, program, plan, phase, last)?;
    Ok(FoldPart::new(links, last.bound, sums, potentials))
}

/// The table of the least costs of walks of length 1 from the point where the phase has ended.
fn least_costs(
    alloc: Global,
    program: &Program,
    plan: &Plan,
    phase: Phase,
    last: &Ended,
) -> Result<Table, AllocError>
    requires plan { (x : Bricks) × IsPlan program.now x plan.now }
    requires ended { (x : Bricks) × IsEnded program.now phase plan.now x last.now }
    ensures potentials { IfOk result (ArePotentials program.now phase (vectors last.now.sums) last.now.end.point) }
    ensures small { IfOk result (λ t. All (AreAtMost (2 ^ 122)) t.rows) }
{
    prove!(program.n() > 0);
    brick_sums_make_a_fold();
    let fold = Fold::new(program, &last.sums, phase).unwrap();
    let costs = potentials(alloc, &fold, &last.end.point)?;
    potential_rows(alloc, program.n() + 1, last.sums.len(), &costs)
}

/// The elements of a slack basis, each a row of so many columns.
fn basis_rows(alloc: Global, cols: u32, basis: &Basis) -> Result<Matrix, AllocError>
    requires { cols ≡ basis.now.matrix.cols + length basis.now.matrix.rows }
    ensures matrix { IfOk result (λ m. m ≡ record { cols = cols; rows = basis.now.elements }) }
    ensures few { length basis.now.elements ≤ 2000 }
    ensures narrow { All IsNarrow basis.now.elements }
{
    let mut entries = Vec::new(alloc);
    let rows = basis.len();
    for i in 0..rows {
        entries.extend_from_slice(basis.element(i))?;
    }
    Ok(Matrix::new(rows, cols, entries))
}

/// The point, each brick a row.
fn point_rows(alloc: Global, program: &Program, point: &Point) -> Result<Matrix, AllocError>
    requires { HasPointShape program.now point.now }
    ensures matrix { IfOk result (λ m. m ≡ point_matrix program.now point.now) }
    ensures bounded { IfOk result (λ m. All IsBoundedRow m.rows) }
{
    let mut entries = Vec::new(alloc);
    let rows = program.n();
    for i in 0..rows {
        entries.extend_from_slice(point.brick(i + 1))?;
    }
    Ok(Matrix::new(rows, program.t(), entries))
}

/// The sums, each a row of the level and then the entries.
fn sum_rows(alloc: Global, program: &Program, sums: &Sums) -> Result<Matrix, AllocError>
    requires widths { All (λ w. length w ≡ program.now.brick.cols) (vectors sums.now) }
    requires levels { All (λ s. s.level < 2 ^ 43) sums.now }
    ensures { IfOk result (λ m. m ≡ matrix_of_sums program.now sums.now) }
{
    let mut entries = Vec::new(alloc);
    let rows = sums.len();
    for i in 0..rows {
        entries.push(sums.level(i) as i64)?;
        entries.extend_from_slice(sums.get(i))?;
    }
    Ok(Matrix::new(rows, 1 + program.t(), entries))
}

/// The potentials, a row for each layer and a column for each sum.
fn potential_rows(
    alloc: Global,
    layers: u32,
    sums: u32,
    potentials: &Potentials,
) -> Result<Table, AllocError>
    requires height { length potentials.now.rows ≡ layers }
    requires width { potentials.now.cols ≡ sums }
    requires each_row { All (λ row. length row ≡ sums) potentials.now.rows }
    ensures { IfOk result (λ t. t ≡ potentials.now) }
{
    let mut cells = Vec::new(alloc);
    for layer in 0..layers {
        add_cells(&mut cells, layer, sums, potentials)?;
    }
    Ok(Table::new(layers, sums, cells))
}

/// Adds the potentials of a layer.
fn add_cells(
    cells: &mut Vec<Option<i128>>,
    layer: u32,
    sums: u32,
    potentials: &Potentials,
) -> Result<(), AllocError>
    requires layer { layer < length potentials.now.rows }
    requires width { potentials.now.cols ≡ sums }
    requires each_row { All (λ row. length row ≡ sums) potentials.now.rows }
    ensures { OnOk result (cells.new.items ≡ cells.old.items ++ get_or potentials.now.rows layer []) }
{
    for i in 0..sums {
        cells.push(potentials.get(layer, i))?;
    }
    Ok(())
}
