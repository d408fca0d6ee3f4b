//! How many steps the run of a phase makes: each step gains at least a certain part of what is left to gain, so what is
//! left is soon halved, and the steps are no more than the bound number times the binary digits of the whole gain.
#![tactic(auto)]

ghost use Rattle.std.specs.Prelude.{ℕ, ◌*◌, ◌^◌, ◌<◌, ◌≤◌, ◌-ℤ◌, ◌≤ℤ◌, unsigned_abs, List, length};
ghost use Rattle.lattice_theory.specs.Vectors.{Vector};
ghost use Rattle.lattice_theory.specs.SignedSums.{Sum, vectors};
ghost use Rattle.fold_theory.specs.declared.Phase.{Phase};
ghost use Rattle.fold_theory.specs.Programs.{Program, IsProgram, Bricks, phase_cost};
ghost use Rattle.run_theory.specs.Links.{Bases, AreBases};
ghost use Rattle.run_theory.specs.BrickSums.{AreBrickSums};
ghost use Rattle.run_theory.specs.Steps.{Move, IsRun};
ghost use Rattle.run_theory.specs.Outcomes.{bound_number};
ghost use Rattle.run_theory.specs.Starts.{IsStart};
ghost use Rattle.run_theory.specs.Digits.{binary_digits};

/// Law: a run of a phase makes at most K·b steps, where K is the bound number and b the number of binary digits of the
/// whole gain, which is not negative.
pub fn a_run_has_few_steps()
    ensures few { (p : Program) (phase : Phase) (b : Bases) (sums : List Sum) (x last : Bricks) (moves : List Move) →
        IsProgram p → AreBases p b → AreBrickSums p phase b sums → IsStart p phase x →
        IsRun p phase (vectors sums) x moves last →
        length moves ≤ bound_number p (vectors sums)
        * binary_digits (unsigned_abs (phase_cost p phase x -ℤ phase_cost p phase last)) }
    ensures gained { (p : Program) (phase : Phase) (zs : List Vector) (x last : Bricks) (moves : List Move) →
        IsRun p phase zs x moves last → phase_cost p phase last ≤ℤ phase_cost p phase x }
{}

/// Law: a number has as many binary digits as it takes for a power of 2 to be more than it, and no more.
pub fn digits_are_the_power_above()
    ensures above { (n : ℕ) → n < 2 ^ binary_digits n }
    ensures fewest { (n k : ℕ) → n < 2 ^ k → binary_digits n ≤ k }
{}
