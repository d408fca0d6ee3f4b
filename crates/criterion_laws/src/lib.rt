//! When a list of vectors is complete for a lattice, decided by prefixes of the sums of its members.
#![tactic(auto)]

ghost use Rattle.std.specs.Prelude.{◌≡◌, List};
ghost use Rattle.lattice_theory.specs.Vectors.{Vector};
ghost use Rattle.lattice_theory.specs.Matrices.{Matrix};
ghost use Rattle.lattice_theory.specs.Lattices.{is_complete_for};
ghost use Rattle.criterion_laws.specs.Prefixes.{is_complete_by_prefixes};

/// Law: the criterion by prefixes decides Pottier's criterion. A list that rises, whose members are elements that lead
/// positive and which lists the element of each unit vector, is complete for the lattice of the matrix just where each
/// two members that first clash behind their first parts, the second one with either sign, have a member, with either
/// sign, conformally below their sum up to that place.
///
/// After L. Pottier, "The Euclidean algorithm in dimension n" (1996), by one row of the matrix after the other.
pub fn the_criterion_by_prefixes()
    ensures { (m : Matrix) (basis : List Vector) → is_complete_by_prefixes m basis ≡ is_complete_for m basis }
{}
