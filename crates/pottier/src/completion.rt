//! The completion of a list of members by one new entry, the last one of each.
//!
//! By pairs, after L. Pottier, "The Euclidean algorithm in dimension n" (1996). A pair of two members, each
//! with either sign, counts where its vectors agree before the new entry and clash there. Pairs are taken by
//! the norm of their sums before the new entry, and a sum is added where no member is below it. So each
//! vector that is added is minimal, and no member is ever taken away.

ghost use Rattle.std.specs.Prelude.{◌≡◌, ℕ, ◌+◌, ◌≤◌, ◌<◌, ◌^◌, ◌⊎◌, length, map, All, IfOk, IfErr, OnOk, true, false};
ghost use Rattle.std.specs.Prelude.{unsigned_abs};
ghost use Rattle.lattice_theory.specs.Vectors as vector;
ghost use Rattle.lattice_theory.specs.Matrices as matrices;
ghost use Rattle.lattice_laws.proofs.SlackBases.{IsReducible};
ghost use Rattle.lattice_laws.proofs.Completion.{CoversBelow};
ghost use Rattle.pottier.specs.Partners.{sum_of_pair};
ghost use Rattle.pottier.specs.Ranks.{AreRanks};
ghost use Rattle.pottier.specs.Faults.{IsBasisFault};
ghost use Rattle.pottier.specs.Stages.{AreMembers, AreFitting, Grows, IsStage, IsDue, IsCompleted};
ghost use Rattle.pottier.specs.Queues.{IsPairOf, first_of, second_of};

use crate::BasisFault;
use crate::below::is_reducible;
use crate::members::Members;
use crate::pairs::{is_narrow, pair_sum, turn};
use crate::queue::{Pair, pair_up};
use crate::ranks::{Rank, add_rank, all_ranks};
use int_vectors::leads_positive;
use std::alloc::{AllocError, Global};
use std::collections::BinaryHeap;

/// Adds sums of pairs until each pair's sum has a member below it. The new entry is the one at `at`.
pub fn complete(
    alloc: Global,
    members: &mut Members,
    at: usize,
    limit: usize,
) -> Result<(), BasisFault>
    requires few { at ≤ 2016 }
    requires fitting { AreFitting (at + 1) limit members.old }
    ensures fitting { OnOk result (AreFitting (at + 1) limit members.new) }
    ensures completed { (m : matrices.Matrix) → IsStage m at members.old → OnOk result (IsCompleted m members.new) }
    ensures refused { (m : matrices.Matrix) → IsStage m at members.old → IfErr result (IsBasisFault m limit) }
{
    let mut ranks = all_ranks(alloc, members, at)?;
    let mut pairs = BinaryHeap::new(alloc);
    pair_up(&mut pairs, members, 0, at)?;
    while let Some(pair) = pairs.pop() {
        let paired = members.len();
        let sum = sum_of(alloc, members, pair, at)?;
        add_sum(members, &mut ranks, sum, at, limit)?;
        pair_up(&mut pairs, members, paired, at)?;
    }
    Ok(())
}

/// The sum of a pair of members.
fn sum_of(alloc: Global, members: &Members, pair: Pair, at: usize) -> Result<Vec<i64>, AllocError>
    requires members { AreMembers (at + 1) members.now }
    requires pair { IsPairOf at members.now pair }
    ensures { IfOk result (λ z. z.items ≡ sum_of_pair at (first_of members.now pair) (second_of members.now pair)) }
{
    pair_sum(alloc, members.get(pair.first), members.get(pair.second), at)
}

/// Adds a vector or its opposite, whichever leads positive, where no member is below it.
fn add_sum(
    members: &mut Members,
    ranks: &mut Vec<Rank>,
    sum: Vec<i64>,
    at: usize,
    limit: usize,
) -> Result<(), BasisFault>
    requires at { at ≤ length sum.items }
    requires ranks { AreRanks at members.old ranks.old.items }
    requires fitting { AreFitting (length sum.items) limit members.old }
    requires small { All (λ x. unsigned_abs x < 2 ^ 62) sum.items }
    ensures ranks { OnOk result (AreRanks at members.new ranks.new.items) }
    ensures fitting { OnOk result (AreFitting (length sum.items) limit members.new) }
    ensures grows { OnOk result (Grows members.old members.new) }
    ensures one { OnOk result (length members.new ≤ length members.old + 1) }
    ensures reducible { OnOk result (IsReducible members.new sum.items) }
    ensures stage { (m : matrices.Matrix) → IsStage m at members.old → IsDue m at members.old sum.items →
        OnOk result (IsStage m at members.new) }
    ensures refused { (m : matrices.Matrix) → IsStage m at members.old → IsDue m at members.old sum.items →
        IfErr result (IsBasisFault m limit) }
{
    if is_reducible(members, ranks, &sum, at) {
        return Ok(());
    }
    let member = leading(sum);
    if members.len() == limit || !is_narrow(&member) {
        return Err(BasisFault::Limit);
    }
    add_rank(ranks, &member, members.len(), at)?;
    members.push(&member)?;
    Ok(())
}

/// The one of a vector and its opposite whose first nonzero entry is positive.
fn leading(z: Vec<i64>) -> Vec<i64>
    requires { All (λ x. unsigned_abs x < 2 ^ 62) z.items }
    ensures either { (result.items ≡ z.items) ⊎ (result.items ≡ vector.opposite z.items) }
    ensures leads { vector.is_zero z.items ≡ false → vector.leads_positive result.items ≡ true }
{
    if leads_positive(&z) {
        z
    } else {
        let mut turned = z;
        turn(&mut turned);
        turned
    }
}
