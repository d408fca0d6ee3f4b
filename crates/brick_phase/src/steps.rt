//! One step of the brick rule.

use std::marker::Model;

/// One step of the brick rule: the point goes on by `2^k` times the vector.
#[derive(Debug, Drop)]
pub struct BrickStep {
    pub k: u32,
    pub vector: Vec<i64>,
}

impl Model for BrickStep {
    ghost use Rattle.run_theory.specs.BrickRuns.{BrickMove};

    ghost Value = { BrickMove };

    ghost view = { λ s. record { k = s.k; vector = s.vector.items } };
}
