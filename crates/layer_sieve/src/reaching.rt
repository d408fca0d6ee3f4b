//! The sum that a move reaches, and what walks cost from there.

ghost use Rattle.std.specs.Prelude.{◌≡◌, ◌<◌, ◌≤◌, ◌^◌, ℤ, pos, ◌+ℤ◌, length, IsTrue};
ghost use Rattle.lattice_theory.specs.Vectors.{is_rising};
ghost use Rattle.lattice_theory.specs.SignedSums.{vectors};
ghost use Rattle.sieve_laws.specs.Sieve.{IsOffer, live};
ghost use Rattle.layer_sieve.specs.Reaching.{IsReach, AreAtMost, IsFair};

use crate::targets::Targets;
use sieve_laws::PricedMove;

/// A sum to which a move leads, and the least cost of a walk from there.
#[derive(Clone, Copy, Debug, Drop)]
pub(crate) struct Reach {
    pub to: u32,
    pub rest: i128,
}

/// What the move at place `h` reaches from a sum; none where it leads to no sum from which there is a walk.
pub(crate) fn reached_from(
    targets: &Targets,
    next: &[Option<i128>],
    h: u32,
    from: u32,
) -> Option<Reach>
    requires rising { IsTrue (is_rising (vectors targets.now)) }
    requires listed { h < length targets.now }
    requires from { from < length targets.now }
    requires size { length next.now ≡ length targets.now }
    ensures { IsReach (vectors targets.now) next.now h from result }
{
    let Some(to) = targets.target(h, from) else {
        return None;
    };
    let Some(rest) = next[to as usize] else {
        return None;
    };
    Some(Reach { to, rest })
}

/// The same of the live cells alone: none, too, where walks from the sum that is reached cost more than the limit.
pub(crate) fn live_from(
    targets: &Targets,
    next: &[Option<i128>],
    limit: i128,
    h: u32,
    from: u32,
) -> Option<Reach>
    requires rising { IsTrue (is_rising (vectors targets.now)) }
    requires listed { h < length targets.now }
    requires from { from < length targets.now }
    requires size { length next.now ≡ length targets.now }
    ensures { IsReach (vectors targets.now) (live limit next.now) h from result }
{
    let reached = reached_from(targets, next, h, from)?;
    if reached.rest <= limit {
        Some(reached)
    } else {
        None
    }
}

/// What walks cost from a sum that begin with the move; none where it reaches no live cell.
pub(crate) fn offer(
    targets: &Targets,
    next: &[Option<i128>],
    limit: i128,
    m: PricedMove,
    from: u32,
) -> Option<i128>
    requires rising { IsTrue (is_rising (vectors targets.now)) }
    requires fair { IsFair (length targets.now) m }
    requires from { from < length targets.now }
    requires size { length next.now ≡ length targets.now }
    requires small { AreAtMost (2 ^ 122) next.now }
    ensures { IsOffer (vectors targets.now) (live limit next.now) m from result }
{
    let reached = live_from(targets, next, limit, m.place, from)?;
    Some(m.change + reached.rest)
}
