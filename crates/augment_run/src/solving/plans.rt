//! What the phases stand on: the slack bases of the brick matrix and of the link matrix.

ghost use Rattle.std.specs.Prelude.{◌≡◌, ◌≤◌, All, IfOk, IfErr};
ghost use Rattle.lattice_theory.specs.BasisLimits.{IsNarrow, IsBasisWithin};
ghost use Rattle.fold_theory.specs.Programs.{Bricks};
ghost use Rattle.run_theory.specs.Links.{generators, links_of};
ghost use Rattle.run_theory.specs.Limits.{BrickStageWithin};
ghost use Rattle.augment_run.specs.Solving.{caps_of, IsSolveFault};
ghost use Rattle.augment_run.specs.Stages.{AreAllowed, IsPlan};

use crate::settings::{Settings, Stop};
use fold_program::Program;
use graver_complexity::{LinkFault, link_matrix};
use mat_files::Matrix;
use pottier::{Basis, BasisFault, kernel, slack_basis};
use run_theory::SolveFault;
use std::alloc::Global;

/// The tables of a solve: the slack basis of the brick matrix, its kernel, the link matrix of that, and the slack basis
/// of the link matrix; and the limits.
#[derive(Debug, Drop)]
pub(crate) struct Plan {
    pub settings: Settings,
    pub bricks: Basis,
    pub kernel: Matrix,
    pub links: Matrix,
    pub basis: Basis,
}

/// The slack basis of the brick matrix, within its limit.
pub(crate) fn brick_basis(
    alloc: Global,
    program: &Program,
    settings: Settings,
) -> Result<Basis, Stop>
    requires { AreAllowed settings }
    ensures basis { IfOk result (λ b. IsBasisWithin program.now.brick settings.max_basis b.elements) }
    ensures matrix { IfOk result (λ b. b.matrix ≡ program.now.brick) }
    ensures refused { IfErr result (λ stop. IsSolveFault program.now (caps_of settings) stop.fault) }
{
    prove!(program.t() <= 32 && program.s() <= 16);
    match slack_basis(alloc, program.brick(), settings.max_basis) {
        Ok(basis) => Ok(basis),
        Err(BasisFault::Limit) => Err(Stop {
            fault: SolveFault::BrickBasis,
        }),
        Err(BasisFault::Memory) => Err(Stop {
            fault: SolveFault::Memory,
        }),
    }
}

/// The tables of a program whose bricks settle, within their limits.
pub(crate) fn make_plan(
    alloc: Global,
    program: &Program,
    settings: Settings,
    bricks: Basis,
) -> Result<Plan, Stop>
    requires limits { AreAllowed settings }
    requires matrix { bricks.matrix ≡ program.now.brick }
    requires settled { (x : Bricks) × BrickStageWithin program.now (caps_of settings) bricks.elements x }
    ensures plan { IfOk result (λ plan. (x : Bricks) → BrickStageWithin program.now (caps_of settings) bricks.elements x
        → IsPlan program.now x plan) }
    ensures settings { IfOk result (λ plan. plan.settings ≡ settings) }
    ensures bricks { IfOk result (λ plan. plan.bricks ≡ bricks) }
    ensures refused { IfErr result (λ stop. IsSolveFault program.now (caps_of settings) stop.fault) }
{
    let kernel = kernel(alloc, &bricks)?;
    let links = links(alloc, program, settings, &bricks, &kernel)?;
    let basis = link_basis(alloc, program, settings, &bricks, &links)?;
    Ok(Plan {
        settings,
        bricks,
        kernel,
        links,
        basis,
    })
}

/// The link matrix, within the limit of its entries.
fn links(
    alloc: Global,
    program: &Program,
    settings: Settings,
    bricks: &Basis,
    kernel: &Matrix,
) -> Result<Matrix, Stop>
    requires cols { kernel.now.cols ≡ program.now.brick.cols }
    requires rows { kernel.now.rows ≡ generators program.now bricks.now.elements }
    requires narrow { All IsNarrow kernel.now.rows }
    requires settled { (x : Bricks) × BrickStageWithin program.now (caps_of settings) bricks.now.elements x }
    ensures links { IfOk result (λ m. m ≡ links_of program.now bricks.now.elements) }
    ensures narrow { IfOk result (λ m. All IsNarrow m.rows) }
    ensures refused { IfErr result (λ stop. IsSolveFault program.now (caps_of settings) stop.fault) }
{
    prove!(program.t() <= 32);
    match link_matrix(alloc, program.link(), kernel) {
        Ok(links) => Ok(links),
        Err(LinkFault::WideEntry { row, col }) => Err(Stop {
            fault: SolveFault::LinkEntry { row, col },
        }),
        Err(LinkFault::Memory) => Err(Stop {
            fault: SolveFault::Memory,
        }),
    }
}

/// The slack basis of the link matrix, within its limit.
fn link_basis(
    alloc: Global,
    program: &Program,
    settings: Settings,
    bricks: &Basis,
    links: &Matrix,
) -> Result<Basis, Stop>
    requires limits { AreAllowed settings }
    requires links { links.now ≡ links_of program.now bricks.now.elements }
    requires narrow { All IsNarrow links.now.rows }
    requires settled { (x : Bricks) × BrickStageWithin program.now (caps_of settings) bricks.now.elements x }
    ensures basis { IfOk result (λ b. IsBasisWithin (links_of program.now bricks.now.elements) settings.max_basis
        b.elements) }
    ensures matrix { IfOk result (λ b. b.matrix ≡ links_of program.now bricks.now.elements) }
    ensures refused { IfErr result (λ stop. IsSolveFault program.now (caps_of settings) stop.fault) }
{
    prove!(program.r() <= 16);
    match slack_basis(alloc, links, settings.max_basis) {
        Ok(basis) => Ok(basis),
        Err(BasisFault::Limit) => Err(Stop {
            fault: SolveFault::LinkBasis,
        }),
        Err(BasisFault::Memory) => Err(Stop {
            fault: SolveFault::Memory,
        }),
    }
}
