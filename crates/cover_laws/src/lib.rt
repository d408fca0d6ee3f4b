//! What a list of vectors covers that is complete for a lattice: each element of the lattice is a conformal sum of its
//! signed members. Slack bases are such lists, and their kernels are the Graver bases of the matrices.
#![tactic(auto)]

mod graver;
mod lattices;

pub use graver::a_kernel_is_the_graver_basis;
pub use lattices::{a_complete_list_covers_its_lattice, a_complete_list_sums_up_its_lattice};
