//! The checker of certificates: it reads a program and a certificate, and confirms what the certificate
//! claims, or names the first rule that it breaks. It stands on nothing of the solver.
#![tactic(auto)]

mod answer;
mod checking;
mod folds;
mod points;
mod shapes;
mod steps;

pub use answer::Check;
pub use checking::check;
pub use fold_theory::Verdict;
pub use run_theory::Rule;

#[cfg(test)]
mod tests;
