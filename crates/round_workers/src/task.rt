//! What a round reads.

use crate::menus::RunMenus;
use brick_dp::Fold;
use fold_program::Point;

/// The fold and the point from which a step is sought, and what the run keeps of this point.
#[derive(Clone, Copy)]
pub struct Task<'a> {
    pub fold: &'a Fold<'a>,
    pub point: &'a Point,
    pub menus: &'a RunMenus<'a>,
}
