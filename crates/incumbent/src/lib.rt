//! The best length so far of a round, on a board that workers share without a lock: they claim lengths, store the gains
//! of their candidates, offer them, and see what was offered. Once all are joined, the board names the best length.
#![tactic(auto)]

mod board;
mod calls;
mod rule;
mod steps;
#[cfg(test)]
mod tests;

pub use board::{Board, Seat};
pub use rule::Gains;
pub use step_lengths::Key;
