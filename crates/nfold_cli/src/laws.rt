//! Laws of the definitions that the top call cites.

ghost use Rattle.std.specs.Prelude.{◌≡◌, ℕ, List, Some};
ghost use Rattle.fold_theory.specs.Programs.{Program, IsProgram};
ghost use Rattle.run_theory.specs.Outcomes.{Outcome, IsOutcome};
ghost use Rattle.fold_shelf.specs.Outside.{File};
ghost use Rattle.nfold_cli.specs.declared.words.SolveOptions.{SolveOptions};
ghost use Rattle.nfold_cli.specs.StepCounts.{AreTold};
ghost use Rattle.nfold_cli.specs.Words.{Word, SolveForm};
ghost use Rattle.nfold_cli.specs.Endings.{Ending};
ghost use Rattle.nfold_cli.specs.Forms.{IsFormEnding, IsEnding};

/// Words and files have at most one ending.
pub fn one_ending()
    ensures { (words : List Word) (files : List File) (e f : Ending) →
        IsEnding words files e → IsEnding words files f → e ≡ f }
{}

/// What a solve ends with does not depend on the number of workers.
pub fn all_numbers_of_workers_have_one_ending()
    ensures { (prefix : Word) (workers others : ℕ) (options : SolveOptions) (files : List File) (e : Ending) →
        IsFormEnding (Some (SolveForm prefix workers options)) files e →
        IsFormEnding (Some (SolveForm prefix others options)) files e }
{}

/// The trace of an outcome tells of each phase that ran how many steps the rule makes there, the bound number, and the
/// binary digits of the whole gain; and the steps are at most the product of these two.
pub fn each_phase_makes_few_steps()
    ensures { (p : Program) (o : Outcome) → IsProgram p → IsOutcome p o → AreTold p o }
{}
