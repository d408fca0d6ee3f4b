//! The list of all sums, and its readers.

ghost use Rattle.std.specs.Prelude.{◌≡◌, ◌<◌, ◌≤◌, Some, List, length, slice_get, MatchOption, Contains, IsTrue, IfOk};
ghost use Rattle.lattice_theory.specs.Vectors.{zeros, is_rising};
ghost use Rattle.lattice_theory.specs.SignedSums.{Sum, vectors};
ghost use Rattle.brick_sums.specs.Places.{AreListed, IsIndex, levels, width};

use crate::member::Member;
use std::alloc::{AllocError, Global};
use std::collections::HashMap;
use std::marker::Model;

/// Sums in lexicographic order, all of one width, zero among them, each with its level: the least number of
/// generators whose sum it is. Places count from 0. No reader takes memory.
#[derive(Debug, Drop)]
pub struct Sums {
    members: Vec<Member>,
    /// The place of each of their vectors.
    places: HashMap<Vec<i64>, u32>,
    zero: u32,
}

impl Model for Sums {
    ghost Value = { List Sum };

    ghost view = { λ s. s.members.items };

    ghost invariant = { λ s. AreListed s.members.items s.zero × IsIndex s.members.items s.places.entries };
}

impl Sums {
    /// The listed sums, with the place of zero.
    pub(crate) fn new(alloc: Global, members: Vec<Member>, zero: usize) -> Result<Sums, AllocError>
        requires { AreListed members.items zero }
        ensures { IfOk result (λ sums. sums ≡ members.items) }
    {
        let places = index(alloc, &members)?;
        Ok(Sums {
            members,
            places,
            zero: zero as u32,
        })
    }

    /// How many sums there are.
    pub fn len(&self) -> u32
        ensures { result ≡ length self.now }
    {
        self.members.len() as u32
    }

    /// The entries of the sum at a place.
    pub fn get(&self, i: u32) -> &[i64]
        requires { i < length self.now }
        ensures vector { slice_get (vectors self.now) i ≡ Some result.now }
        ensures width { length result.now ≡ width self.now }
    {
        self.members[i as usize].vector()
    }

    /// The level of the sum at a place.
    pub fn level(&self, i: u32) -> u64
        requires { i < length self.now }
        ensures { slice_get (levels self.now) i ≡ Some result }
    {
        self.members[i as usize].level()
    }

    /// The place of a vector, where it is one of the sums.
    pub fn find(&self, v: &[i64]) -> Option<u32>
        ensures { MatchOption result (¬ Contains (vectors self.now) v.now)
            (λ i. slice_get (vectors self.now) i ≡ Some v.now) }
    {
        self.places.get(v).copied()
    }

    /// The place of the zero vector.
    pub fn zero(&self) -> u32
        ensures { slice_get (vectors self.now) result ≡ Some (zeros (width self.now)) }
    {
        self.zero
    }
}

/// The place of each vector.
fn index(alloc: Global, members: &[Member]) -> Result<HashMap<Vec<i64>, u32>, AllocError>
    requires rising { IsTrue (is_rising (vectors members.now)) }
    requires few { length members.now ≤ 20000 }
    ensures { IfOk result (λ places. IsIndex members.now places.entries) }
{
    let mut places = HashMap::with_capacity(alloc, members.len())?;
    for (at, member) in members.iter().enumerate() {
        places.insert(Vec::from_slice(alloc, member.vector())?, at as u32)?;
    }
    Ok(places)
}
