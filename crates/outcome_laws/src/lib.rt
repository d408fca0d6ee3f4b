//! That a program has at most one ending: the rules of the solver pick one step, so their runs are one list of steps,
//! and lists in order are known by their members; so the outcome of a program, the certificate of an outcome and the
//! limit that is passed first are each one, and an outcome that is reached within the limits leaves none to be passed.
#![tactic(auto)]

ghost use Rattle.std.specs.Prelude.{◌≡◌, List};
ghost use Rattle.lattice_theory.specs.Vectors.{Vector};
ghost use Rattle.fold_theory.specs.declared.Phase.{Phase};
ghost use Rattle.fold_theory.specs.Programs.{Program, Brick, Bricks, IsProgram};
ghost use Rattle.run_theory.specs.Steps.{Move, IsBest, IsRun};
ghost use Rattle.run_theory.specs.BrickRuns.{BrickMove, IsBrickRunFrom};
ghost use Rattle.run_theory.specs.Certificates.{Certificate};
ghost use Rattle.run_theory.specs.Outcomes.{Outcome, IsOutcome, IsCertificate};
ghost use Rattle.run_theory.specs.declared.SolveFault.{SolveFault};
ghost use Rattle.run_theory.specs.Limits.{Caps, IsLimit};
ghost use Rattle.run_theory.specs.Solved.{IsWithinCaps};

/// Law: the rule picks one step: two best moves from a point are one move.
pub fn one_rule_step()
    ensures { (p : Program) (phase : Phase) (zs : List Vector) (x : Bricks) (m n : Move) →
        IsBest p phase zs x m → IsBest p phase zs x n → m ≡ n }
{}

/// Law: two runs of a phase from one point are one list of moves, and have one last point.
pub fn one_run()
    ensures { (p : Program) (phase : Phase) (zs : List Vector) (x : Bricks) (ms ns : List Move) (y z : Bricks) →
        IsRun p phase zs x ms y → IsRun p phase zs x ns z → (ms ≡ ns) × (y ≡ z) }
{}

/// Law: two runs of a brick from one vector are one list of moves, and have one last vector. The run of a brick is one
/// from the vector of its bounds that is nearest to 0.
pub fn one_brick_run()
    ensures { (p : Program) (basis : List Vector) (b : Brick) (v : Vector) (ms ns : List BrickMove) (u w : Vector) →
        IsBrickRunFrom p basis b v ms u → IsBrickRunFrom p basis b v ns w → (ms ≡ ns) × (u ≡ w) }
{}

/// Law: a program has at most one outcome: verdict, point, and the records of all runs.
pub fn one_outcome()
    ensures { (p : Program) (o q : Outcome) → IsProgram p → IsOutcome p o → IsOutcome p q → o ≡ q }
{}

/// Law: an outcome has at most one certificate.
pub fn one_certificate()
    ensures { (p : Program) (o : Outcome) (c d : Certificate) →
        IsProgram p → IsOutcome p o → IsCertificate p o c → IsCertificate p o d → c ≡ d }
{}

/// Law: a program passes at most one limit first.
pub fn one_limit()
    ensures { (p : Program) (c : Caps) (f g : SolveFault) → IsLimit p c f → IsLimit p c g → f ≡ g }
{}

/// Law: where all that its outcome reaches is within the limits, a program passes none of them.
pub fn an_outcome_within_its_limits_passes_none()
    ensures { (p : Program) (c : Caps) (o : Outcome) (f : SolveFault) →
        IsOutcome p o → IsWithinCaps p c o.verdict → IsLimit p c f → ⊥ }
{}
