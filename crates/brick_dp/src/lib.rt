//! The layered programme: for one step length the best step of a point, and for length 1 the least costs of all walks.
//!
//! A step moves the bricks one after the other, each by a listed sum, so that the moves so far always add up to a
//! listed sum. So there is one layer before each brick and one behind the last, with a node for each sum, and a step
//! is a walk from zero in the first layer. The layers are filled from the last one to the first.
//!
//! After R. Hemmecke, S. Onn and L. Romanchuk, "N-fold integer programming in cubic time" (2013).
#![tactic(auto)]

mod answers;
mod best;
mod blocks;
mod bounds;
mod changes;
mod ends;
mod filling;
mod floors;
mod folds;
mod least_costs;
mod menus;
mod reading;
mod tables;

pub use answers::{Step, StepAnswer};
pub use best::{best_step, best_step_with};
pub use bounds::{Bound, NoBound};
pub use fold_program::{Phase, Point, Program};
pub use folds::Fold;
pub use layer_sieve::{Moves, PricedMove, Targets};
pub use least_costs::potentials;
pub use menus::{Menus, changed_bricks};
pub use step_lengths::Key;
pub use tables::Potentials;

#[cfg(test)]
mod tests;
