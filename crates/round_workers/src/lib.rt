//! A round: workers side by side seek the best step of each length, offer what they find, and the best step of all is
//! the rule's. Which worker tries which length, and in which order, changes nothing.
#![tactic(auto)]

mod looking;
mod menus;
mod rounds;
mod task;
mod teams;
mod workers;

pub use brick_dp::{Fold, Step, StepAnswer};
pub use fold_shelf::Gate;
pub use menus::RunMenus;
pub use rounds::round;
pub use task::Task;

#[cfg(test)]
mod tests;
