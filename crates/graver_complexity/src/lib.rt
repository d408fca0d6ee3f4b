//! The link matrix of a program and its complexity, which bounds how many generators one step needs.
//!
//! The columns of the link matrix are the linking images of the vectors that keep a brick's rows met. The
//! complexity is the greatest 1-norm of the combinations in its slack basis.
#![tactic(auto)]

mod fault;
mod images;
mod laws;
mod norms;

pub use fault::LinkFault;
pub use images::link_matrix;
pub use laws::{few_levels, kernel_generators, small_images, small_sums};
pub use norms::complexity;

#[cfg(test)]
mod tests;
