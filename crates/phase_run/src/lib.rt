//! The run of a phase: the steps of the rule, one after the other, until it has none.
//!
//! A round tries all step lengths, shared by workers, and takes the best step of any. After R. Hemmecke, S. Onn and L.
//! Romanchuk, "N-fold integer programming in cubic time" (2013), whose steps are Graver-best ones.
#![tactic(auto)]

mod factor;
mod points;
mod records;
mod runs;

pub use brick_dp::{Fold, Step};
pub use factor::bound_number;
pub use fold_shelf::Gate;
pub use records::{End, RunRecord};
pub use runs::run;
