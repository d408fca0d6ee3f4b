//! Programs for trials: transport from three suppliers to any number of customers, by a generator of numbers, so that
//! each can be made again from its number.
//!
//! A point is planted, so each of them is feasible.
#![tactic(auto)]

mod customers;
mod draws;
mod programs;

pub use programs::transport;

#[cfg(test)]
mod tests;
