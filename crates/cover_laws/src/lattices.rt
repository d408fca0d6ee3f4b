//! What a list covers that is complete for the lattice of a matrix.

ghost use Rattle.std.specs.Prelude.{List, IsTrue, All};
ghost use Rattle.lattice_theory.specs.Vectors.{Vector};
ghost use Rattle.lattice_theory.specs.Matrices.{Matrix};
ghost use Rattle.lattice_theory.specs.Lattices.{InLattice, is_complete_for};
ghost use Rattle.lattice_laws.proofs.Elements.{width};
ghost use Rattle.lattice_laws.proofs.SlackBases.{Covers};
ghost use Rattle.cover_laws.specs.Elements.{IsNonzeroElement};
ghost use Rattle.cover_laws.specs.ConformalSums.{ConformalSum};

/// Law: a list that passes Pottier's criterion for the lattice of all `(v, A·v)` covers it: each element that is
/// not 0 has a listed one conformally below it, as it is or with its signs turned. Each listed one is an element,
/// and its `v` is not 0.
///
/// After L. Pottier, "Minimal solutions of linear diophantine systems" (1991), and R. Hemmecke, "On the
/// computation of Hilbert bases and extreme rays of cones" (2002).
pub fn a_complete_list_covers_its_lattice()
    ensures covers { (m : Matrix) (basis : List Vector) → IsTrue (is_complete_for m basis) → Covers m basis }
    ensures members { (m : Matrix) (basis : List Vector) →
        IsTrue (is_complete_for m basis) → All (IsNonzeroElement m) basis }
{}

/// Law: each element of the lattice is a sum of members of such a list, each as it is or with its signs turned and
/// conformally below the element.
pub fn a_complete_list_sums_up_its_lattice()
    ensures { (m : Matrix) (basis : List Vector) → IsTrue (is_complete_for m basis) →
        (z : Vector) → InLattice m z → ConformalSum (width m) basis z }
{}
