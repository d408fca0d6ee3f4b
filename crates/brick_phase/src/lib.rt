//! The brick phase: each brick is brought to meet its rows, or as near to them as its bounds let it come.
//!
//! From the point of its bounds that is nearest to 0, a brick takes the best step of the brick rule again and again,
//! until no step brings it nearer to its rows. A step is a first part of an element of the slack basis of the brick
//! matrix, or its opposite, times a power of two.
#![tactic(auto)]

mod moves;
mod offers;
mod settling;
mod starts;
mod steps;

pub use settling::{BrickEnd, settle_brick};
pub use steps::BrickStep;
