//! Convex costs of one coordinate on its bounds: which are accepted, their values, and how large these can be.
#![tactic(auto)]

mod bound_cost;
mod fault;
mod lines;
mod quadratic;

pub use bound_cost::BoundCost;
pub use fault::CostFault;
pub use fold_theory::{Breakpoint, Breakpoints, Cost};
