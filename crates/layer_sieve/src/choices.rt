//! The first of the moves that cost as little as a walk does.

ghost use Rattle.std.specs.Prelude.{◌≡◌, ◌<◌, ◌≤◌, ◌^◌, ℕ, ℤ, length, All, MatchOption, IsTrue};
ghost use Rattle.lattice_theory.specs.Vectors.{is_rising};
ghost use Rattle.lattice_theory.specs.SignedSums.{vectors};
ghost use Rattle.sieve_laws.specs.Sieve.{Goes};
ghost use Rattle.layer_sieve.specs.Reaching.{AreAtMost, IsFair, IsChoice};

use crate::reaching::reached_from;
use crate::targets::Targets;
use sieve_laws::PricedMove;

/// A move, by its place in the list of sums, the place of the sum to which it leads, and what walks cost from there.
#[derive(Clone, Copy, Debug, PartialEq, Eq, Drop)]
pub struct Choice {
    pub place: u32,
    pub to: u32,
    pub rest: i128,
}

/// The first move of a menu from a sum that costs this much together with the least walk behind it.
pub fn first_choice(
    targets: &Targets,
    menu: &[PricedMove],
    next: &[Option<i128>],
    from: u32,
    cost: i128,
) -> Option<Choice>
    requires rising { IsTrue (is_rising (vectors targets.now)) }
    requires fair { All (IsFair (length targets.now)) menu.now }
    requires size { length next.now ≡ length targets.now }
    requires small { AreAtMost (2 ^ 122) next.now }
    requires from { from < length targets.now }
    ensures { MatchOption result ((i : ℕ) → ¬ Goes (vectors targets.now) menu.now next.now from i cost)
        (IsChoice (vectors targets.now) menu.now next.now from cost) }
{
    for m in menu {
        let Some(reached) = reached_from(targets, next, m.place, from) else {
            continue;
        };
        if m.change + reached.rest == cost {
            return Some(Choice {
                place: m.place,
                to: reached.to,
                rest: reached.rest,
            });
        }
    }
    None
}
