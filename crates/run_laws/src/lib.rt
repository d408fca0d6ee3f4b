//! What the solver's rules reach: where the steps of a phase end, the phase cost is least, and steps of length 1 tell
//! that they end; where a brick's run ends with a residual, the brick cannot meet its rows; so what an outcome says is
//! true of its program.
#![tactic(auto)]

ghost use Rattle.std.specs.Prelude.{◌≡◌, ℕ, ◌+◌, ◌<◌, ◌≤ℤ◌, List, Some, slice_get};
ghost use Rattle.lattice_theory.specs.Vectors.{Vector};
ghost use Rattle.lattice_theory.specs.Lattices.{IsSlackBasis};
ghost use Rattle.lattice_theory.specs.SignedSums.{Sum, vectors};
ghost use Rattle.fold_theory.specs.declared.Phase.{Phase};
ghost use Rattle.fold_theory.specs.declared.Verdict.TheVariants.{InfeasibleBrick};
ghost use Rattle.fold_theory.specs.Programs.{Program, Brick, IsProgram, Bricks, phase_cost, brick_residual};
ghost use Rattle.run_theory.specs.Links.{Bases, AreBases};
ghost use Rattle.run_theory.specs.BrickSums.{AreBrickSums};
ghost use Rattle.run_theory.specs.Steps.{NoneAugments};
ghost use Rattle.run_theory.specs.BrickRuns.{BrickMove, IsBrickRun};
ghost use Rattle.fold_theory.specs.Verdicts.{Holds};
ghost use Rattle.run_theory.specs.Outcomes.{Outcome, IsOutcome, HoldsAt};
ghost use Rattle.run_theory.specs.Starts.{IsStart};
ghost use Rattle.run_theory.specs.Folds.{FoldValue, HasBrickSums};
ghost use Rattle.run_theory.specs.Bests.{NoneOfLength};

/// Law: where the rule has no step, no such point is better: of the points within the bounds that meet the brick
/// rows, and in the closed phase the linking rows too, none has a lower phase cost than one from which no step
/// lowers it.
pub fn a_finished_run_is_best()
    ensures { (p : Program) (phase : Phase) (b : Bases) (sums : List Sum) (x y : Bricks) →
        IsProgram p → AreBases p b → AreBrickSums p phase b sums → IsStart p phase x →
        NoneAugments p phase (vectors sums) x → IsStart p phase y → phase_cost p phase x ≤ℤ phase_cost p phase y }
{}

/// Law: where no step of length 1 lowers the phase cost, no step of any length does: at a point within the bounds that
/// meets the brick rows, and in the closed phase the linking rows too.
pub fn where_length_one_gains_nothing_no_length_does()
    ensures { (f : FoldValue) (x : Bricks) →
        IsProgram f.program → HasBrickSums f → IsStart f.program f.phase x → NoneOfLength f x 0 →
        (k : ℕ) → NoneOfLength f x k }
{}

/// Law: a brick whose run ends with a residual is stuck: no vector within the bounds of that brick misses its rows by
/// less than the end of the run, so no point of the program is feasible. Bricks count from 1 in verdicts.
pub fn a_stuck_brick_is_stuck()
    ensures { (p : Program) (basis : List Vector) (place : ℕ) (brick : Brick) (moves : List BrickMove) (v : Vector) →
        IsProgram p → IsSlackBasis p.brick basis → slice_get p.bricks place ≡ Some brick →
        IsBrickRun p basis brick moves v → 0 < brick_residual p brick v →
        Holds p (InfeasibleBrick (place + 1) (brick_residual p brick v)) }
{}

/// Law: what an outcome says of its program is true; where it says that its cost is the least one, its point is
/// feasible and has that cost.
pub fn an_outcome_holds()
    ensures { (p : Program) (o : Outcome) → IsProgram p → IsOutcome p o → HoldsAt p o }
{}
