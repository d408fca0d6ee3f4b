//! The pairs of members whose sums are still to be looked at, the least norm first.

ghost use Rattle.std.specs.Prelude.{◌≡◌, ◌+◌, ◌≤◌, ◌<◌, ◌==◌, length, OnOk};
ghost use Rattle.std.proofs.Common.{rules};
ghost use Rattle.std.specs.Cmp.{partial_order_from_own_ties};
ghost use Rattle.std.specs.Cmp.Rules.{comparing};
ghost use Rattle.std.specs.Ordering.{nat_cmp, on, flip_args, as_partial_cmp};
ghost use Rattle.std.specs.BinaryHeap.{heap_items};
ghost use Rattle.pottier.specs.Stages.{AreMembers};
ghost use Rattle.pottier.specs.Queues.{IsPairedUp, IsPairedWith};

use crate::members::Members;
use crate::pairs::{counts, pair_norm};
use std::alloc::{AllocError, Global};
use std::cmp::Ordering;
use std::collections::BinaryHeap;

/// A pair of members that counts. Only norms are compared: of two pairs the greater is the one whose sum
/// has the lesser norm before the new entry, and pairs of one norm are equal.
#[derive(Clone, Copy, Debug)]
pub struct Pair {
    /// The norm of the sum before the new entry.
    pub norm: u64,
    /// The place of the first member.
    pub first: usize,
    /// The place of the second member, which stands behind the first.
    pub second: usize,
}

impl PartialEq for Pair {
    ghost eq = { on (λ e. e.norm) ◌==◌ };

    ghost laws = { Prim.search (comparing, rules) };

    fn eq(&self, other: &Pair) -> bool {
        self.norm == other.norm
    }
}

impl Eq for Pair {
    ghost laws = { Prim.search (comparing, rules) };
}

impl PartialOrd for Pair {
    ghost partial_cmp = { as_partial_cmp (flip_args (on (λ e. e.norm) nat_cmp)) };

    ghost laws = { partial_order_from_own_ties (Prim.search (comparing, rules)) (Prim.search (comparing, rules)) };

    fn partial_cmp(&self, other: &Pair) -> Option<Ordering> {
        Some(self.cmp(other))
    }
}

impl Ord for Pair {
    ghost cmp = { flip_args (on (λ e. e.norm) nat_cmp) };

    ghost total = { Prim.search (comparing, rules) };

    ghost matches_partial_cmp = { Prim.search (comparing, rules) };

    ghost matches_eq = { Prim.search (comparing, rules) };

    fn cmp(&self, other: &Pair) -> Ordering {
        other.norm.cmp(&self.norm)
    }
}

/// Adds the pairs of the members from a place on with those before them.
pub fn pair_up(
    pairs: &mut BinaryHeap<Pair, Global>,
    members: &Members,
    from: usize,
    at: usize,
) -> Result<(), AllocError>
    requires few { at ≤ 2016 }
    requires members { AreMembers (at + 1) members.now }
    requires from { from ≤ length members.now }
    ensures { OnOk result (IsPairedUp at members.now from (length members.now) (heap_items pairs.old)
        (heap_items pairs.new)) }
{
    for second in from..members.len() {
        add_pairs(pairs, members, second, at)?;
    }
    Ok(())
}

/// Adds the pairs of the member at a place with those before it.
fn add_pairs(
    pairs: &mut BinaryHeap<Pair, Global>,
    members: &Members,
    second: usize,
    at: usize,
) -> Result<(), AllocError>
    requires few { at ≤ 2016 }
    requires members { AreMembers (at + 1) members.now }
    requires second { second < length members.now }
    ensures { OnOk result (IsPairedWith at members.now second second (heap_items pairs.old) (heap_items pairs.new)) }
{
    let q = members.get(second);
    for first in 0..second {
        let p = members.get(first);
        if counts(p, q, at) {
            pairs.push(Pair {
                norm: pair_norm(p, q, at),
                first,
                second,
            })?;
        }
    }
    Ok(())
}
