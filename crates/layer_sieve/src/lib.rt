//! The layers of the layered programme as a sieve: how one layer of least costs comes from the next one by the moves of
//! a brick, where a move that can lower no cell is left out, and how the best move is read off.
//!
//! Moves lead to live cells alone, those that cost at most a limit. For a layer and a move it is enough to know how
//! much more a sum costs than the live one to which the move leads. A brick none of whose moves costs less than that
//! leaves the layer as it is.
#![tactic(auto)]

mod choices;
mod layers;
mod lowering;
mod moves;
mod reaching;
mod targets;
mod tops;

pub use choices::{Choice, first_choice};
pub use layers::Layers;
pub use lowering::{lower_by, lower_cell};
pub use moves::Moves;
pub use sieve_laws::PricedMove;
pub use targets::Targets;
pub use tops::{all_idle, widen};

#[cfg(test)]
mod tests;
