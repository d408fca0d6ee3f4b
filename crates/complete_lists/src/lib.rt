//! Whether a list of vectors is complete for the lattice of a matrix, by Pottier's criterion.
#![tactic(auto)]

mod clashes;
mod completeness;
mod elements;
mod ranked;

pub use completeness::is_complete;

#[cfg(test)]
mod tests;
