//! What steps are made of.

ghost use Rattle.std.specs.Prelude.{◌≡◌, IfOk};
ghost use Rattle.lattice_theory.specs.Lattices.{IsSlackBasis};
ghost use Rattle.lattice_theory.specs.Vectors as vector;
ghost use Rattle.lattice_theory.specs.BasisLimits.{IsNarrow};
ghost use Rattle.brick_phase.specs.Moves.{AreMoves};

use fold_program::Program;
use pottier::Basis;
use std::alloc::{AllocError, Global};
use step_lengths::count;

/// The vectors that steps take, and how many lengths they take them with.
#[derive(Debug, Drop)]
pub struct Moves {
    pub vectors: Vec<Vec<i64>>,
    pub lengths: u32,
}

impl Moves {
    /// The first parts of the elements and their opposites, with the lengths of the program.
    pub fn new(alloc: Global, program: &Program, basis: &Basis) -> Result<Moves, AllocError>
        requires { IsSlackBasis program.now.brick basis.now.elements }
        ensures { IfOk result (AreMoves program.now basis.now.elements) }
    {
        let cols = program.t() as usize;
        let mut vectors = Vec::new(alloc);
        for i in 0..basis.len() {
            let part = &basis.element(i)[..cols];
            vectors.push(Vec::from_slice(alloc, part)?)?;
            vectors.push(opposite(alloc, part)?)?;
        }
        Ok(Moves {
            vectors,
            lengths: count(program.widest()),
        })
    }
}

/// The vector with all signs turned.
fn opposite(alloc: Global, z: &[i64]) -> Result<Vec<i64>, AllocError>
    requires { IsNarrow z.now }
    ensures { IfOk result (λ turned. turned.items ≡ vector.opposite z.now) }
{
    let mut turned = Vec::with_capacity(alloc, z.len())?;
    for x in z {
        turned.push(-*x)?;
    }
    Ok(turned)
}
