//! Slack bases of integer matrices.
//!
//! The lattice of a matrix A holds all (v, A·v). Its slack basis is its Graver basis, the finitely many
//! elements that are minimal in the conformal order, one of each pair of signs.
#![tactic(auto)]

mod basis;
mod below;
mod completion;
mod fault;
mod members;
mod pairs;
mod queue;
mod ranks;
mod slack;

pub use basis::{Basis, kernel, one_basis};
pub use fault::BasisFault;
pub use slack::slack_basis;
