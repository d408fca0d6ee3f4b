//! The words of the solver and the checker: the plain data of limits, keys, claims and rules, and in `specs/` the
//! definitions of steps, runs, outcomes, certificates and the rules that a checker goes by.
//!
//! Steps and their lengths are those of Graver-best augmentation: R. Hemmecke, S. Onn and L. Romanchuk, "N-fold integer
//! programming in cubic time" (2013). Certificates and their rules are this project's own.
#![tactic(auto)]

use fold_theory::Phase;
use thiserror::Error;

/// What a certificate claims. Bricks are numbered from 1.
#[derive(Clone, Copy, Debug, PartialEq, Eq, Drop)]
pub enum Claim {
    Optimal,
    InfeasibleBrick { brick: u32 },
    InfeasibleLink,
}

/// The rules of the checker: C1 to C7 for the claims on all bricks; B1, C2, B2 and C7 for that on one.
#[derive(Clone, Copy, Debug, PartialEq, Eq, Drop)]
pub enum Rule {
    C1,
    C2,
    C3,
    C4,
    C5,
    C6,
    C7,
    B1,
    B2,
}

/// What the best candidate of one step length gains, and the exponent of that length.
#[derive(Clone, Copy, Debug, PartialEq, Eq, Drop)]
pub struct Key {
    pub gain: u128,
    pub k: u32,
}

/// The limit that the solver meets first. Rows and columns are numbered from 1.
#[derive(Clone, Copy, Debug, PartialEq, Eq, Drop, Error)]
pub enum SolveFault {
    #[error("the slack basis of the brick matrix exceeds its limit")]
    BrickBasis,
    #[error("the entry of the link matrix in row {row} and column {col} is too large")]
    LinkEntry { row: u32, col: u32 },
    #[error("the slack basis of the link matrix exceeds its limit")]
    LinkBasis,
    #[error("there are too many brick sums in phase {phase:?}")]
    Sums { phase: Phase },
    #[error("the table of layers is too large in phase {phase:?}")]
    Table { phase: Phase },
    /// Memory ran out, which may happen at any call that allocates.
    #[error("out of memory")]
    Memory,
}
