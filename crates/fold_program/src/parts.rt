//! What a program is made from.

use convex_costs::Cost;
use mat_files::Matrix;

/// The parts of a program with `n` bricks of `t` columns, `r` linking rows and `s` brick rows.
#[derive(Debug, Drop)]
pub struct Parts {
    /// The linking matrix, `r` by `t`.
    pub link: Matrix,
    /// The matrix of all bricks, `s` by `t`.
    pub brick: Matrix,
    /// The lower bounds, `n` by `t`.
    pub lower: Matrix,
    /// The upper bounds, `n` by `t`.
    pub upper: Matrix,
    /// The right sides, one row: those of the `r` linking rows, and then the `s` of each brick.
    pub right: Matrix,
    /// The costs, `n·t` of them, brick by brick and column by column.
    pub costs: Vec<Cost>,
}
