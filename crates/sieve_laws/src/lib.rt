//! Laws of the layered programme as a sieve, in `proofs/`: moves lead to live cells alone, those that cost at most a
//! limit; of these a move that cannot lower any cell of a layer is left out, bricks whose moves are all left out share
//! one layer, and the best step is read off the layers that are left.
#![tactic(auto)]

/// A move of a brick that stays within its bounds: its place in the list of sums, and what it changes the cost by.
#[derive(Clone, Copy, Debug, PartialEq, Eq, Drop)]
pub struct PricedMove {
    pub place: u32,
    pub change: i128,
}
