//! The starting points of the phases: every brick is brought to meet its rows, and what the joint point then misses of
//! the linking rows says which phase comes first.
#![tactic(auto)]

mod ends;
mod phases;
mod starting;

pub use ends::Start;
pub use phases::{counted, judge};
pub use starting::start;

#[cfg(test)]
mod tests;
