//! Laws of the rule that picks a step by the keys of the lengths: what the best step of one length gains, and its
//! length. The step whose key beats all others is the rule's; a search over the lengths in order keeps the best step so
//! far, and where the gains of all lengths are known they name the length of the rule's step.
#![tactic(auto)]

ghost use Rattle.std.specs.Prelude.{◌≡◌, ◌≢◌, ℕ, ◌+◌, ◌<◌, ◌↔◌, false, List, Option, Some, None};
ghost use Rattle.lattice_theory.specs.SignedSums.{vectors};
ghost use Rattle.fold_theory.specs.Programs.{Bricks, IsLength};
ghost use Rattle.run_theory.specs.Steps.{IsGain};
ghost use Rattle.run_theory.specs.Outcomes.{Step};
ghost use Rattle.run_theory.specs.Keys.{beaten};
ghost use Rattle.run_theory.specs.Folds.{FoldValue};
ghost use Rattle.run_theory.specs.Bests.{IsFound, IsBeaten, IsRuleStep, AreGains, IsBestByGains};
ghost use Rattle.rule_laws.specs.BestUpTo.{IsBestUpTo, key_of, kept_key};

/// Law: the best step of one length is the rule's step, where its key beats every other length.
pub fn the_key_that_beats_all_others_names_the_step()
    ensures { (f : FoldValue) (x : Bricks) (k : ℕ) (s : Step) → IsFound f x k s →
        ((j : ℕ) → j ≢ k → IsLength f.program j → IsBeaten f x j (Some (key_of s))) → IsRuleStep f x (Some s) }
{}

/// Law: of no length at all there is no best step.
pub fn no_length_has_a_step()
    ensures { (f : FoldValue) (x : Bricks) → IsBestUpTo f x 0 None }
{}

/// Law: the best step of the first lengths is also the best with one length more, where that one is beaten.
pub fn a_beaten_length_keeps_the_best_step()
    ensures { (f : FoldValue) (x : Bricks) (n : ℕ) (best : Option Step) →
        IsBestUpTo f x n best → IsBeaten f x n (kept_key best) → IsBestUpTo f x (n + 1) best }
{}

/// Law: where the best step of the next length is not beaten by that of the lengths before it, it is the best of them
/// all.
pub fn a_step_that_is_not_beaten_is_the_best()
    ensures { (f : FoldValue) (x : Bricks) (n : ℕ) (best : Option Step) (s : Step) →
        IsBestUpTo f x n best → IsFound f x n s → beaten (record { gain = s.gain; k = n }) (kept_key best) ≡ false →
        IsBestUpTo f x (n + 1) (Some s) }
{}

/// Law: the best step of all lengths is the rule's step; where there is none the rule has none.
pub fn the_best_of_all_lengths_is_the_rules_step()
    ensures { (f : FoldValue) (x : Bricks) (n : ℕ) (best : Option Step) →
        ((k : ℕ) → (k < n) ↔ IsLength f.program k) → IsBestUpTo f x n best → IsRuleStep f x best }
{}

/// Law: what the best step of a length gains is the gain of that length.
pub fn the_best_step_has_the_gain_of_its_length()
    ensures { (f : FoldValue) (x : Bricks) (k : ℕ) (s : Step) →
        IsFound f x k s → IsGain f.program f.phase (vectors f.sums) x k (Some s.gain) }
{}

/// Law: where the gains of all lengths are known, the best step of the length that is best by them is the rule's step.
pub fn the_best_length_has_the_rules_step()
    ensures { (f : FoldValue) (x : Bricks) (gains : List (Option ℕ)) (k : ℕ) (s : Step) →
        AreGains f.program f.phase (vectors f.sums) x gains → IsBestByGains gains (Some k) → IsFound f x k s →
        IsRuleStep f x (Some s) }
{}

/// Law: where no length gains, the rule has no step.
pub fn no_gain_is_no_step()
    ensures { (f : FoldValue) (x : Bricks) (gains : List (Option ℕ)) →
        AreGains f.program f.phase (vectors f.sums) x gains → IsBestByGains gains None → IsRuleStep f x None }
{}
