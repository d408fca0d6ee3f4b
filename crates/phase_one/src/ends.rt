//! How the runs of the bricks end.

use brick_phase::BrickStep;
use fold_program::Point;

/// How the runs of the bricks end, with the steps of each run, brick by brick.
#[derive(Debug, Drop)]
pub enum Start {
    /// Every brick meets its rows. The point joins the ends of their runs.
    Ready {
        point: Point,
        traces: Vec<Vec<BrickStep>>,
    },
    /// This brick, numbered from 1, is the first that is stuck: its run, which is the last one, ends at the point,
    /// and misses its rows by the residual, which is above 0.
    Stuck {
        brick: u32,
        point: Vec<i64>,
        traces: Vec<Vec<BrickStep>>,
        residual: u128,
    },
}
