//! Steps as they are recorded, and the answer for one length.

use std::marker::Model;

/// A step of `2^k` times its move, and how much the cost falls by it: the bricks with a nonzero part of the move,
/// numbered from 1 and rising, and as many entries as there are columns for each of them.
#[derive(Debug, Drop)]
pub struct Step {
    pub k: u32,
    pub gain: u128,
    pub bricks: Vec<u32>,
    pub entries: Vec<i64>,
}

impl Model for Step {
    ghost use Rattle.run_theory.specs.Outcomes as outcomes;

    ghost Value = { outcomes.Step };

    ghost view = { λ s. record { k = s.k; gain = s.gain; bricks = s.bricks.items; entries = s.entries.items } };
}

/// What is answered for one length.
#[derive(Debug, Drop)]
pub enum StepAnswer {
    /// The best step of that length, which the bound does not beat.
    Found(Step),
    /// No step of that length gains anything, or the bound beats the best one.
    Beaten,
}
