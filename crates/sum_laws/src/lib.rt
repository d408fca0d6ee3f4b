//! What the brick sums of a program are like where its link matrix is narrow and they are few: they make a fold.
#![tactic(auto)]

ghost use Rattle.std.specs.Prelude.{◌≡◌, ◌≤◌, ◌^◌, unsigned_abs, List, length, All};
ghost use Rattle.lattice_theory.specs.BasisLimits.{IsNarrow};
ghost use Rattle.lattice_theory.specs.SignedSums.{Sum, vectors};
ghost use Rattle.fold_theory.specs.declared.Phase.{Phase};
ghost use Rattle.fold_theory.specs.Programs.{Program};
ghost use Rattle.run_theory.specs.Links.{Bases, AreBases, generators, links_of};
ghost use Rattle.run_theory.specs.BrickSums.{AreBrickSums};
ghost use Rattle.run_theory.specs.Folds.{IsSmallImage};

/// Law: each brick sum has an entry for each column; and where the link matrix is narrow and there are at most 20,000
/// sums, none of them changes a linking row by more than `2^50`, since it is a sum of few generators. Where the
/// generators are narrow, no entry of a sum is past `2^47` for the same reason.
pub fn brick_sums_make_a_fold()
    ensures widths { (p : Program) (phase : Phase) (b : Bases) (sums : List Sum) →
        AreBases p b → AreBrickSums p phase b sums → All (λ w. length w ≡ p.brick.cols) (vectors sums) }
    ensures images { (p : Program) (phase : Phase) (b : Bases) (sums : List Sum) →
        AreBases p b → AreBrickSums p phase b sums → All IsNarrow (links_of p b.brick).rows → length sums ≤ 20000 →
        All (IsSmallImage p) (vectors sums) }
    ensures entries { (p : Program) (phase : Phase) (b : Bases) (sums : List Sum) →
        AreBases p b → AreBrickSums p phase b sums → All IsNarrow (generators p b.brick) → length sums ≤ 20000 →
        All (All (λ a. unsigned_abs a ≤ 2 ^ 47)) (vectors sums) }
{}
