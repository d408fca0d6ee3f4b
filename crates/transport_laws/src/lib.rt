//! What the transport programs of three suppliers are like: their matrices are the same for every number and for any
//! number of customers, so their bases and their brick sums are known, and a solve of them passes no limit.
#![tactic(auto)]

ghost use Rattle.std.specs.Prelude.{ℕ, ◌≤◌};
ghost use Rattle.run_theory.specs.declared.SolveFault.{SolveFault};
ghost use Rattle.run_theory.specs.Limits.{Caps, IsLimit};
ghost use Rattle.fold_gen.specs.Transports.{transport};

/// Law: a transport program with at most 10,000 customers passes no limit. The slack basis of its brick matrix has six
/// elements and that of its link matrix seven, their entries are 1, 0 and -1, and in each phase the brick sums are sums
/// of at most three signed generators, of which there are 37.
pub fn transports_pass_no_limit()
    ensures { (number bricks : ℕ) (c : Caps) (f : SolveFault) →
        bricks ≤ 10000 → 7 ≤ c.basis → 37 ≤ c.sums → IsLimit (transport number bricks) c f → ⊥ }
{}
