//! The files of a program: reading them, one after the other, up to the first fault.
#![tactic(auto)]

mod cost_file;
mod fault;
mod files;
mod relation_file;

pub use cost_file::parse_costs;
pub use fault::{CostFileFault, ReadFault, RelationFault};
pub use files::{file_name, read_certificate, read_plain, read_point, read_program};
pub use relation_file::parse_relations;
