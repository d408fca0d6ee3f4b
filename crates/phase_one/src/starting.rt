//! The joint end of the runs of all bricks.

ghost use Rattle.std.specs.Prelude.{IfOk};
ghost use Rattle.lattice_theory.specs.Lattices.{IsSlackBasis};
ghost use Rattle.phase_one.specs.Started.{IsStarted};

use crate::ends::Start;
use brick_phase::{BrickEnd, settle_brick};
use fold_program::{Point, Program};
use pottier::Basis;
use std::alloc::{AllocError, Global};

/// Brings the bricks to meet their rows, one after the other, until one is stuck.
///
/// `basis` is the slack basis of the brick matrix. An error comes only where memory runs out.
pub fn start(alloc: Global, program: &Program, basis: &Basis) -> Result<Start, AllocError>
    requires { IsSlackBasis program.now.brick basis.now.elements }
    ensures { IfOk result (IsStarted program.now basis.now.elements) }
{
    let mut entries = Vec::new(alloc);
    let mut traces = Vec::new(alloc);
    for at in 0..program.n() {
        let brick = at + 1;
        match settle_brick(alloc, program, brick, basis)? {
            BrickEnd::Feasible { point, trace } => {
                entries.extend_from_slice(&point)?;
                traces.push(trace)?;
            }
            BrickEnd::Stuck {
                point,
                trace,
                residual,
            } => {
                traces.push(trace)?;
                return Ok(Start::Stuck {
                    brick,
                    point,
                    traces,
                    residual,
                });
            }
        }
    }
    let point = Point::new(program, entries).unwrap();
    Ok(Start::Ready { point, traces })
}
