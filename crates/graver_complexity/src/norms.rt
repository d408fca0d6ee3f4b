//! The complexity of a matrix in a phase, from its slack basis.

ghost use Rattle.std.specs.Prelude.{◌≡◌, ◌≤◌, ◌<◌, ◌+◌, ◌^◌, length, take};
ghost use Rattle.lattice_theory.specs.Vectors as vector;
ghost use Rattle.lattice_theory.specs.Lattices.{IsSlackBasis};
ghost use Rattle.lattice_theory.specs.BasisLimits.{IsNarrow};
ghost use Rattle.fold_theory.specs.Programs as programs;
ghost use Rattle.run_theory.specs.Links.{counts_in};
ghost use Rattle.run_theory.specs.Links as links;

use fold_theory::{Phase, Relation};
use int_vectors::{is_zero, norm1};
use mat_files::Matrix;
use pottier::Basis;

/// The greatest 1-norm of a first part `w` of the elements `(w, m·w)` that count in this phase, and at least 2 where
/// `m` has a nonzero entry, 1 where it has none. `b` is the slack basis of `m`. No memory is taken.
///
/// There is a relation for each row of `m`. In phase `Closed` only elements with `m·w = 0` in each row that is an
/// equation count, in phase `Counted` all.
pub fn complexity(b: &Basis, m: &Matrix, phase: Phase, relations: &[Relation]) -> u64
    requires basis { IsSlackBasis m.now b.now.elements }
    requires rows { length relations.now ≡ length m.now.rows }
    ensures complexity { result ≡ links.complexity phase relations.now m.now b.now.elements }
    ensures from { 1 ≤ result }
    ensures small { result < 2 ^ 43 }
{
    let cols = m.cols() as usize;
    let mut greatest = least_complexity(m);
    for i in 0..b.len() {
        let z = b.element(i);
        if counts(phase, relations, cols, z) {
            greatest = greatest.max(first_norm(cols, z));
        }
    }
    greatest
}

/// What the complexity is at least.
fn least_complexity(m: &Matrix) -> u64
    ensures { result ≡ links.least_complexity m.now }
{
    if is_zero(m.entries()) { 1 } else { 2 }
}

/// Whether the first part of an element counts in this phase: which combinations of links do.
fn counts(phase: Phase, relations: &[Relation], cols: usize, z: &[i64]) -> bool
    requires { length z.now ≡ cols + length relations.now }
    ensures { result ≡ counts_in phase relations.now cols z.now }
{
    match phase {
        Phase::Closed => keeps_equations(relations, &z[cols..]),
        Phase::Counted => true,
    }
}

/// Whether each row that is an equation changes by 0.
fn keeps_equations(relations: &[Relation], changes: &[i64]) -> bool
    requires { length relations.now ≡ length changes.now }
    ensures { result ≡ programs.keeps_equations relations.now changes.now }
{
    for (at, relation) in relations.iter().enumerate() {
        if !keeps_row(*relation, changes[at]) {
            return false;
        }
    }
    true
}

/// Whether a row with this relation may change by this much in phase `Closed`: an equation may not.
fn keeps_row(relation: Relation, change: i64) -> bool
    ensures { result ≡ programs.keeps_row relation change }
{
    match relation {
        Relation::Equal => change == 0,
        Relation::Less | Relation::Greater => true,
    }
}

/// The 1-norm of the first part of an element.
fn first_norm(cols: usize, z: &[i64]) -> u64
    requires few { cols ≤ 2000 }
    requires within { cols ≤ length z.now }
    requires narrow { IsNarrow z.now }
    ensures norm { result ≡ vector.norm1 (take cols z.now) }
    ensures small { result < 2 ^ 43 }
{
    norm1(&z[..cols]) as u64
}
