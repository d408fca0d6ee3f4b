//! Whether a listed table of potentials shows that no walk through the layers costs less than nothing.
#![tactic(auto)]

mod changes;
mod columns;
mod ends;
mod layers;

pub use layers::potentials_hold;
