//! The slack basis of a matrix, with the matrix.

ghost use Rattle.std.specs.Prelude.{◌≡◌, ◌≤◌, ◌<◌, Some, List, length, take, drop, slice_get, map, All, IfOk};
ghost use Rattle.lattice_theory.specs.Vectors as vector;
ghost use Rattle.lattice_theory.specs.Matrices as matrices;
ghost use Rattle.lattice_theory.specs.Lattices as lattice;
ghost use Rattle.lattice_theory.specs.Lattices.{IsSlackBasis};
ghost use Rattle.lattice_theory.specs.BasisLimits.{IsNarrow};
ghost use Rattle.lattice_laws.proofs.Elements.{width};
ghost use Rattle.pottier.specs.Stages.{AreMembers};

use crate::members::Members;
use int_vectors::is_zero;
use mat_files::Matrix;
use std::alloc::{AllocError, Global};
use std::marker::Model;

/// The slack basis of a matrix, in lexicographic order. Places count from 0.
#[derive(Debug, Drop)]
pub struct Basis {
    matrix: Matrix,
    elements: Members,
}

impl Model for Basis {
    ghost use Rattle.pottier.specs.Bases as bases;

    ghost Value = { bases.BasisValue };

    ghost view = { λ b. record { matrix = b.matrix; elements = b.elements } };

    ghost invariant = { λ b. bases.IsKept (record { matrix = b.matrix; elements = b.elements }) };
}

impl Basis {
    /// A basis of a matrix, which is copied.
    pub(crate) fn new(
        alloc: Global,
        matrix: &Matrix,
        elements: Members,
    ) -> Result<Basis, AllocError>
        requires elements { AreMembers (width matrix.now) elements }
        requires few { length elements ≤ 2000 }
        ensures matrix { IfOk result (λ b. b.matrix ≡ matrix.now) }
        ensures elements { IfOk result (λ b. b.elements ≡ elements) }
    {
        let entries = Vec::from_slice(alloc, matrix.entries())?;
        Ok(Basis {
            matrix: Matrix::new(matrix.rows(), matrix.cols(), entries),
            elements,
        })
    }

    /// How many elements there are.
    pub fn len(&self) -> u32
        ensures len { result ≡ length self.now.elements }
        ensures each { AreMembers (width self.now.matrix) self.now.elements }
        ensures few { result ≤ 2000 }
    {
        self.elements.len() as u32
    }

    /// An element: the whole of `(v, A·v)`.
    pub fn element(&self, i: u32) -> &[i64]
        requires { i < length self.now.elements }
        ensures element { slice_get self.now.elements i ≡ Some result.now }
        ensures size { length result.now ≡ width self.now.matrix }
        ensures narrow { IsNarrow result.now }
    {
        self.elements.get(i as usize)
    }

    /// The first part `v` of an element.
    pub fn vector(&self, i: u32) -> &[i64]
        requires { i < length self.now.elements }
        ensures vector { slice_get (map (take self.now.matrix.cols) self.now.elements) i ≡ Some result.now }
        ensures size { length result.now ≡ self.now.matrix.cols }
    {
        &self.element(i)[..self.matrix.cols() as usize]
    }

    /// The second part `A·v` of an element.
    pub fn image(&self, i: u32) -> &[i64]
        requires { i < length self.now.elements }
        ensures image { slice_get (map (drop self.now.matrix.cols) self.now.elements) i ≡ Some result.now }
        ensures size { length result.now ≡ length self.now.matrix.rows }
    {
        &self.element(i)[self.matrix.cols() as usize..]
    }
}

/// The matrix whose rows are the first parts `v` of the elements with `A·v = 0`, in their order.
pub fn kernel(alloc: Global, b: &Basis) -> Result<Matrix, AllocError>
    ensures rows { IfOk result (λ g. g.rows ≡ lattice.kernel b.now.matrix.cols b.now.elements) }
    ensures width { IfOk result (λ g. g.cols ≡ b.now.matrix.cols) }
    ensures narrow { IfOk result (λ g. All IsNarrow g.rows) }
{
    let mut rows = 0;
    let mut entries = Vec::new(alloc);
    for i in 0..b.len() {
        if is_zero(b.image(i)) {
            entries.extend_from_slice(b.vector(i))?;
            rows += 1;
        }
    }
    Ok(Matrix::new(rows, b.matrix.cols(), entries))
}

/// A matrix has at most one slack basis.
pub fn one_basis()
    ensures { (m : matrices.Matrix) (a b : List vector.Vector) → IsSlackBasis m a → IsSlackBasis m b → a ≡ b }
{}
