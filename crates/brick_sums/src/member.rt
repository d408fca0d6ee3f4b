//! A listed sum.

ghost use Rattle.std.specs.Prelude.{◌≡◌, position};
ghost use Rattle.lattice_theory.specs.Vectors as vector;
ghost use Rattle.lattice_theory.specs.SignedSums.{Sum};

use int_vectors::is_zero;
use std::marker::Model;

/// A sum with its level, the least number of generators whose sum it is.
#[derive(Debug, Drop)]
pub struct Member {
    level: u64,
    vector: Vec<i64>,
}

impl Model for Member {
    ghost Value = { Sum };

    ghost view = { λ m. record { level = m.level; vector = m.vector.items } };
}

impl Member {
    /// The sum and its level.
    pub fn new(level: u64, vector: Vec<i64>) -> Member
        ensures { result ≡ record { level = level; vector = vector.items } }
    {
        Member { level, vector }
    }

    /// The least number of generators whose sum it is.
    pub fn level(&self) -> u64
        ensures { result ≡ self.now.level }
    {
        self.level
    }

    /// The entries.
    pub fn vector(&self) -> &[i64]
        ensures { result.now ≡ self.now.vector }
    {
        self.vector.as_slice()
    }
}

/// The first place with a zero vector.
pub fn place_of_zero(members: &[Member]) -> Option<usize>
    ensures { result ≡ position (λ s. vector.is_zero s.vector) members.now }
{
    members.iter().position(|member| is_zero(member.vector()))
}
