//! The sums of generators, each taken with either sign: all sums of at most so many, in lexicographic order,
//! each with the least number of generators that gives it.
#![tactic(auto)]

mod fault;
mod growth;
mod list;
mod member;

pub use fault::SumsFault;
pub use growth::sums;
pub use list::Sums;
