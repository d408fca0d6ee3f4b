//! What was solved.

use brick_phase::BrickStep;
use certificate::Certificate;
use fold_program::Point;
use fold_theory::Verdict;
use phase_run::RunRecord;
use std::marker::Model;

/// The outcome of a program: the verdict; the best point, where there is one; the steps of each brick's run, up to the
/// first brick that is stuck; the runs of the two phases, as far as they were begun; and the certificate.
#[derive(Debug, Drop)]
pub struct Solved {
    pub verdict: Verdict,
    pub point: Option<Point>,
    pub bricks: Vec<Vec<BrickStep>>,
    pub counted: Option<RunRecord>,
    pub closed: Option<RunRecord>,
    pub certificate: Certificate,
}

impl Model for Solved {
    ghost use Rattle.run_theory.specs.Solved.{SolvedValue};
    ghost use Rattle.phase_one.specs.Started.{lists};

    ghost Value = { SolvedValue };

    ghost view = { λ s. record {
      verdict = s.verdict;
      point = s.point;
      traces = lists s.bricks.items;
      counted = s.counted;
      closed = s.closed;
      certificate = s.certificate;
    } };
}
