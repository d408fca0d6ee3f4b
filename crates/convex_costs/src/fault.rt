//! Why a cost is refused over its bounds.

use thiserror::Error;

/// The first fault of a cost over its bounds, in the order of the variants. Breakpoints are numbered from 1.
#[derive(Clone, Copy, Debug, PartialEq, Eq, Drop, Error)]
pub enum CostFault {
    /// Breakpoint `at` is the first that is not right of the one before.
    #[error("breakpoint {at} is not right of the one before")]
    NotRising { at: u32 },
    /// The slope that ends at breakpoint `at` is the first that is no whole number.
    #[error("the slope that ends at breakpoint {at} is no whole number")]
    SlopeNotWhole { at: u32 },
    /// The slope that ends at breakpoint `at` is the first that is less than the one before. Of a quadratic cost
    /// the square has a negative factor, and `at` is 0.
    #[error("the cost bends down at breakpoint {at}")]
    NotConvex { at: u32 },
    /// The first breakpoint is right of the lower bound, or the last one left of the upper bound.
    #[error("the breakpoints do not reach from the lower to the upper bound")]
    NotCovered,
    /// The magnitude is past `2^120`.
    #[error("the cost is too large")]
    TooLarge,
}
