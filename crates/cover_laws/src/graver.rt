//! What the kernel of a slack basis is, in words of the matrix alone.

ghost use Rattle.std.specs.Prelude.{List, All, Contains, IsTrue};
ghost use Rattle.lattice_theory.specs.Vectors.{Vector, leads_positive};
ghost use Rattle.lattice_theory.specs.Matrices.{Matrix};
ghost use Rattle.lattice_theory.specs.Lattices.{IsSlackBasis, kernel};
ghost use Rattle.cover_laws.specs.Graver.{IsGraverElement};

/// Law: the kernel of the slack basis of a matrix has just the elements of the Graver basis of the matrix whose first
/// entry that is not 0 is positive. The Graver basis is that of J. E. Graver, "On the foundations of linear and
/// integer linear programming I" (1975).
pub fn a_kernel_is_the_graver_basis()
    ensures sound { (m : Matrix) (basis : List Vector) → IsSlackBasis m basis →
        All (λ v. IsGraverElement m v × IsTrue (leads_positive v)) (kernel m.cols basis) }
    ensures complete { (m : Matrix) (basis : List Vector) (v : Vector) → IsSlackBasis m basis →
        IsGraverElement m v → IsTrue (leads_positive v) → Contains (kernel m.cols basis) v }
{}
