//! What every round keeps, and what its end shows.

ghost use Rattle.std.specs.Prelude.{◌≡◌, ℕ, ◌≤◌, List, Option, Some, IsTrue};
ghost use Rattle.round_core.specs.declared.events.Event.{Event};
ghost use Rattle.run_theory.specs.Bests.{IsBestByGains};
ghost use Rattle.round_core.specs.Rounds.{Round, gains_of, first_round};
ghost use Rattle.round_core.specs.Steps.{step, steps, is_settled, best_of};
ghost use Rattle.round_core.specs.Sound.{IsSound, IsBestLength};

/// Law: an allowed event keeps the parts of a sound round.
pub fn an_event_keeps_a_round_sound()
    ensures { (r after : Round) (e : Event) → IsSound r → step r e ≡ Some after → IsSound after }
{}

/// Law: a round that allowed events reach from its beginning is sound, and where every length is settled the best
/// index is that of the length whose key beats all others, or 0 where no length has a gain.
pub fn a_settled_round_has_its_best_length()
    ensures { (gains : List (Option ℕ)) (workers : ℕ) (events : List Event) (r : Round) →
        1 ≤ workers → steps (first_round gains workers) events ≡ Some r →
        IsSound r × (IsTrue (is_settled r) → IsBestLength r (best_of r)) }
{}

/// Law: an event keeps the gains of all lengths.
pub fn an_event_keeps_the_gains()
    ensures { (r after : Round) (e : Event) → step r e ≡ Some after → gains_of after ≡ gains_of r }
{}

/// Law: where every length of a round is settled, the best index is that of the length that is best by the gains given
/// at the beginning, or 0 where none of them is a gain.
pub fn a_settled_round_names_the_best_by_its_gains()
    ensures { (gains : List (Option ℕ)) (workers : ℕ) (events : List Event) (r : Round) →
        1 ≤ workers → steps (first_round gains workers) events ≡ Some r → IsTrue (is_settled r) →
        IsBestByGains gains (best_of r) }
{}
