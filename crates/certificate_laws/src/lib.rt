//! Which certificates are accepted: the ones that a solver is to write break no rule. What the outcome of a program
//! gives is what the rules ask for: slack bases are complete for their lattices, the listed sums are all there are, the
//! potentials are least costs of walks, and a run that has ended leaves no step that helps.
#![tactic(auto)]

ghost use Rattle.std.specs.Prelude.{◌≡◌, ℕ, List, IsTrue};
ghost use Rattle.fold_theory.specs.declared.Verdict.TheVariants.{InfeasibleBrick};
ghost use Rattle.lattice_theory.specs.Vectors.{Vector};
ghost use Rattle.lattice_theory.specs.Matrices.{Matrix};
ghost use Rattle.lattice_theory.specs.Lattices.{IsSlackBasis, is_complete_for};
ghost use Rattle.fold_theory.specs.Programs.{Program, IsProgram};
ghost use Rattle.run_theory.specs.Certificates.{Certificate};
ghost use Rattle.run_theory.specs.Outcomes.{Outcome, IsOutcome, IsCertificate};
ghost use Rattle.run_theory.specs.Checker.{Accept};

/// Law: the slack basis of a matrix passes Pottier's criterion for the lattice of all `(v, A·v)`.
pub fn a_slack_basis_is_complete()
    ensures { (m : Matrix) (basis : List Vector) → IsSlackBasis m basis → IsTrue (is_complete_for m basis) }
{}

/// Law: where a run leaves a brick short of its rows, the certificate on the first such brick breaks no rule.
pub fn a_stuck_brick_is_accepted()
    ensures { (p : Program) (o : Outcome) (c : Certificate) (number residual : ℕ) →
        IsProgram p → o.verdict ≡ InfeasibleBrick number residual → IsOutcome p o → IsCertificate p o c → Accept p c }
{}

/// Law: the certificate of an outcome breaks no rule, whatever the verdict is.
pub fn an_outcome_is_accepted()
    ensures { (p : Program) (o : Outcome) (c : Certificate) →
        IsProgram p → IsOutcome p o → IsCertificate p o c → Accept p c }
{}
