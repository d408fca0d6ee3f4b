//! Lists of sums of generators, each with its level: where a sum stands, and whether a list is closed under one more
//! generator. A list stands as a matrix: each row is the level of a sum and then the sum.
#![tactic(auto)]

mod closure;
mod places;

pub use closure::are_closed;
pub use places::{level_of, place_of, vector_of};
