//! A law of gains: each step length has a greatest gain at a point, or none, since there are only so many moves. So a
//! round knows the gains of all its lengths before any of them is computed.
#![tactic(auto)]

ghost use Rattle.std.specs.Prelude.{ℕ, List, Option};
ghost use Rattle.lattice_theory.specs.SignedSums.{vectors};
ghost use Rattle.fold_theory.specs.Programs.{Bricks};
ghost use Rattle.run_theory.specs.Folds.{FoldValue};
ghost use Rattle.run_theory.specs.Bests.{AreGains};

/// Law: each fold has the gains of all lengths at each point.
pub fn each_point_has_the_gains_of_all_lengths()
    ensures { (f : FoldValue) (x : Bricks) →
        (gains : List (Option ℕ)) × AreGains f.program f.phase (vectors f.sums) x gains }
{}
