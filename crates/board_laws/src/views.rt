//! What the seats of a board know, as plain data. No value of these types is made: a view exists in proofs alone.

use round_core::{Fate, Stand};
use std::collections::LinkedList;

/// A length that a seat has claimed, and what became of it.
#[derive(Drop)]
pub struct Owned {
    pub k: u64,
    pub fate: Fate,
}

/// What one seat knows: a worker of the round, as far as its own steps show it.
#[derive(Drop)]
pub struct View {
    /// Which worker it is; 0 is the opening seat.
    pub number: u64,
    /// Working, Finished or Joined.
    pub stand: Stand,
    /// The lengths that it claimed, in the order of their claims, and those of the seats that were joined into it.
    pub owned: LinkedList<Owned>,
    /// The index of the best length that it saw, or 0. The index of length `k` is `k + 1`.
    pub seen: u64,
    /// How many seats were joined into it, with those that were joined into these.
    pub joined: u64,
    /// In the opening seat, how many seats it split off.
    pub made: u64,
}
