//! The link matrix of listed generators, and bounds on the listed elements of its lattice.
#![tactic(auto)]

mod complexity;
mod images;
mod kernels;

pub use complexity::is_bound;
pub use images::link_matrix;
pub use kernels::generators;
