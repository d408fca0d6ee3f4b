//! Runs as they are recorded.

use crate::Step;
use fold_program::Point;
use std::marker::Model;

/// The run of a phase: its steps, how much they lower the phase cost together, and the bound number: in each so many
/// steps the rule gains half of what is left to gain.
#[derive(Debug, Drop)]
pub struct RunRecord {
    pub steps: Vec<Step>,
    pub gain: u128,
    pub factor: u128,
}

impl Model for RunRecord {
    ghost use Rattle.run_theory.specs.Outcomes as outcomes;

    ghost Value = { outcomes.RunRecord };

    ghost view = { λ r. record { steps = r.steps.items; gain = r.gain; factor = r.factor } };
}

/// Where a run ended, and what it made.
#[derive(Debug, Drop)]
pub struct End {
    pub point: Point,
    pub made: RunRecord,
}
