//! Certificates: the text that shows another program that a verdict is right.
#![tactic(auto)]

mod certificate;
mod fault;
mod fold_part;
mod reading;
mod table;

pub use certificate::{Certificate, print};
pub use fault::{CertFault, CertKind};
pub use fold_part::FoldPart;
pub use reading::parse;
pub use run_theory::Claim;
pub use table::Table;

#[cfg(test)]
mod tests;
