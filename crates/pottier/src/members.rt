//! The members of a slack basis: vectors of one width, one behind the other in one block of numbers.

ghost use Rattle.std.specs.Prelude.{◌≡◌, ◌+◌, ◌<◌, ◌^◌, ◌++◌, ◌∷◌, [], Some, length, slice_get, All, IfOk, OnOk};
ghost use Rattle.std.specs.List.Sorted.{IsPermutation, IsSorted};
ghost use Rattle.lattice_theory.specs.Vectors.{lex_cmp};

use std::alloc::{AllocError, Global};
use std::marker::Model;

/// Vectors of one width, which the first one gives. Places count from 0.
#[derive(Debug, Drop)]
pub struct Members {
    width: usize,
    count: usize,
    entries: Vec<i64>,
}

impl Model for Members {
    ghost use Rattle.std.specs.Prelude.{◌≡◌, ◌*◌, List, length};
    ghost use Rattle.lattice_theory.specs.Vectors as vector;
    ghost use Rattle.lattice_theory.specs.Matrices.{rows_of};

    ghost Value = { List vector.Vector };

    ghost view = { λ m. rows_of m.count m.width m.entries.items };

    ghost invariant = { λ m. length m.entries.items ≡ m.count * m.width };
}

impl Members {
    /// No member.
    pub fn new(alloc: Global) -> Members
        ensures { result ≡ [] }
    {
        Members {
            width: 0,
            count: 0,
            entries: Vec::new(alloc),
        }
    }

    /// How many members there are.
    #[tactic(auto, using(lattice_laws::proofs::VectorLists::length_rows_of))]
    pub fn len(&self) -> usize
        ensures { result ≡ length self.now }
    {
        self.count
    }

    /// The member at a place.
    #[tactic(auto, using(lattice_laws::proofs::VectorLists::length_rows_of))]
    pub fn get(&self, place: usize) -> &[i64]
        requires { place < length self.now }
        ensures member { slice_get self.now place ≡ Some result.now }
        ensures width { All (λ v. length v ≡ length result.now) self.now }
    {
        let at = place * self.width;
        &self.entries[at..at + self.width]
    }

    /// Adds a member behind the others.
    pub fn push(&mut self, member: &[i64]) -> Result<(), AllocError>
        requires width { All (λ v. length v ≡ length member.now) self.old }
        requires room { length self.old + 1 < 2 ^ 64 }
        ensures { OnOk result (self.new ≡ self.old ++ member.now ∷ []) }
    {
        self.entries.extend_from_slice(member)?;
        self.width = member.len();
        self.count += 1;
        Ok(())
    }

    /// The same members in lexicographic order.
    #[tactic(auto, using(lattice_laws::proofs::VectorLists::length_rows_of))]
    pub fn sorted(&self, alloc: Global) -> Result<Members, AllocError>
        ensures permutation { IfOk result (IsPermutation self.now) }
        ensures sorted { IfOk result (IsSorted lex_cmp) }
    {
        let mut order = Vec::with_capacity(alloc, self.count)?;
        for place in 0..self.count {
            order.push(self.get(place))?;
        }
        order.sort()?;
        let mut sorted = Members::new(alloc);
        for member in &order {
            sorted.push(member)?;
        }
        Ok(sorted)
    }
}
