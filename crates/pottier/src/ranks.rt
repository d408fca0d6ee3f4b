//! The members in the order of their norms before the new entry, with what is asked of each before its entries.

ghost use Rattle.std.specs.Prelude.{◌≡◌, ◌≤◌, ◌++◌, ◌∷◌, [], List, length, All, IfOk, OnOk};
ghost use Rattle.lattice_theory.specs.Vectors as vector;
ghost use Rattle.pottier.specs.Ranks.{AreRanks};

use crate::members::Members;
use int_vectors::{Signs, norm1, signs_of};
use std::alloc::{AllocError, Global};

/// What is asked of a member before its entries.
#[derive(Clone, Copy, Debug)]
pub struct Rank {
    /// The norm before the new entry.
    pub norm: u128,
    /// The place of the member.
    pub place: usize,
    /// Its signs.
    pub signs: Signs,
}

/// The ranks of all members.
pub fn all_ranks(alloc: Global, members: &Members, at: usize) -> Result<Vec<Rank>, AllocError>
    requires { All (λ v. at ≤ length v) members.now }
    ensures { IfOk result (λ ranks. AreRanks at members.now ranks.items) }
{
    let mut ranks = Vec::with_capacity(alloc, members.len())?;
    for place in 0..members.len() {
        add_rank(&mut ranks, members.get(place), place, at)?;
    }
    Ok(ranks)
}

/// Ranks one member more, which is to stand at the place.
pub fn add_rank(
    ranks: &mut Vec<Rank>,
    member: &[i64],
    place: usize,
    at: usize,
) -> Result<(), AllocError>
    requires { at ≤ length member.now }
    ensures { (vs : List vector.Vector) → AreRanks at vs ranks.old.items → place ≡ length vs →
        OnOk result (AreRanks at (vs ++ member.now ∷ []) ranks.new.items) }
{
    let norm = norm1(&member[..at]);
    let behind = ranks.partition_point(|r| r.norm <= norm);
    ranks.insert(
        behind,
        Rank {
            norm,
            place,
            signs: signs_of(member),
        },
    )?;
    Ok(())
}
