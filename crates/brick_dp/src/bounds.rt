//! Bounds on what a step has to gain, which may rise while a step is sought.

ghost use Rattle.std.specs.Prelude.{◌≡◌, Option, None};
ghost use Rattle.run_theory.specs.declared.Key.{Key};
ghost use Rattle.run_theory.specs.Keys.{IsNoWorse};
ghost use Rattle.brick_dp.specs.Needs.{IsNeeded};

use step_lengths::Key;

/// A bound that can be asked again and again, and never answers a worse key than before.
pub trait Bound {
    /// The last answer.
    ghost last: { Self → Option Key };

    /// The second state may come after the first.
    ghost later: { Self → Self → Type 0 };

    /// The key that a step has to beat, where there is one.
    fn now(&mut self) -> Option<Key>
        ensures answer { result ≡ last self.new }
        ensures kept { later self.old self.new }
        ensures better { IsNoWorse (last self.old) result };

    /// Each state comes after itself.
    ghost stays: { (b : Self) → later b b };

    /// What comes after a later state is later.
    ghost goes_on: { (a b c : Self) → later a b → later b c → later a c };
}

/// No bound at all: every answer is none.
#[derive(Clone, Copy, Debug, PartialEq, Eq, Drop)]
pub struct NoBound;

impl Bound for NoBound {
    ghost use Rattle.std.proofs.Common.{refl, ◌∙◌};

    ghost last = { λ b. None };

    ghost later = { λ a b. a ≡ b };

    ghost stays = { λ b. refl };

    ghost goes_on = { λ a b c before after. before ∙ after };

    fn now(&mut self) -> Option<Key> {
        None
    }
}

/// More than any step gains.
const MOST: u128 = 1 << 124;

/// The least gain above 0 that the bound does not beat, at most `2^124`.
pub(crate) fn needed(bound: Option<Key>, k: u32) -> i128
    ensures { IsNeeded k bound result }
{
    match bound {
        Some(key) if key.gain >= MOST => MOST as i128,
        Some(key) if key.k < k => key.gain as i128 + 1,
        Some(key) if key.gain > 0 => key.gain as i128,
        _ => 1,
    }
}
