//! The n-fold program, its points, what a point breaks and what it costs.
//!
//! A program stands in memory as five matrices, a list of costs and the relations of its linking rows; contracts see
//! it as the linking matrix with its right sides and relations, the matrix of all bricks, and the list of bricks.
#![tactic(auto)]

mod fault;
mod parts;
mod point;
mod program;

pub use convex_costs::{BoundCost, Breakpoint, Breakpoints, Cost, CostFault};
pub use fault::{FileKind, ProgramFault};
pub use fold_theory::{Broken, Phase, Relation};
pub use parts::Parts;
pub use point::Point;
pub use program::Program;
