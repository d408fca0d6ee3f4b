//! The whole solve: every brick settles, phase `Counted` lowers what the linking rows are missed by, phase `Closed`
//! lowers the cost, each within its limits; and the certificate of the outcome.
#![tactic(auto)]

mod certifying;
mod settings;
mod solved;
mod solving;

pub use fold_shelf::Gate;
pub use phase_run::{End, Fold, RunRecord, Step, bound_number, run};
pub use run_theory::SolveFault;
pub use settings::Settings;
pub use solved::Solved;
pub use solving::solve;

#[cfg(test)]
mod tests;
