//! The words of n-fold integer programs: the plain data that every layer speaks of, and in `specs/` the
//! definitions that every contract cites.
//!
//! The theory is that of R. Hemmecke, S. Onn and L. Romanchuk, "N-fold integer programming in cubic time"
//! (2013), and S. Onn, "Nonlinear Discrete Optimization" (2010).
#![tactic(auto)]

ghost use Rattle.std.specs.Prelude.{◌≡◌};

use std::marker::Model;

/// In phase `Closed` the linking rows are met and the cost falls; in phase `Counted` what the linking rows
/// miss falls.
#[derive(Clone, Copy, Debug, PartialEq, Eq, Drop)]
pub enum Phase {
    Closed,
    Counted,
}

/// What the sum of a linking row has to be: its right side, at most that, or at least that.
#[derive(Clone, Copy, Debug, PartialEq, Eq, Drop)]
pub enum Relation {
    Equal,
    Less,
    Greater,
}

/// A place and the cost there.
#[derive(Clone, Copy, Debug, PartialEq, Eq, Drop)]
pub struct Breakpoint {
    pub at: i64,
    pub value: i64,
}

/// The breakpoints of one cost, from left to right. Contracts see them as a list.
#[derive(Debug, Drop)]
pub struct Breakpoints {
    points: Vec<Breakpoint>,
}

impl Model for Breakpoints {
    ghost use Rattle.std.specs.Prelude.{List};
    ghost use Rattle.fold_theory.specs.declared.Breakpoint.{Breakpoint};

    ghost Value = { List Breakpoint };

    ghost view = { λ b. b.points.items };
}

impl Breakpoints {
    /// The breakpoints in the order of the `Vec`; nothing is allocated.
    pub fn from_vec(points: Vec<Breakpoint>) -> Breakpoints
        ensures { result ≡ points.items }
    {
        Breakpoints { points }
    }

    /// The breakpoints as a slice.
    pub fn as_slice(&self) -> &[Breakpoint]
        ensures { result.now ≡ self.now }
    {
        self.points.as_slice()
    }

    /// Gives the `Vec` back.
    pub fn into_vec(self) -> Vec<Breakpoint>
        ensures { result.items ≡ self }
    {
        self.points
    }
}

/// The cost of one coordinate: `a·v² + b·v + c`, or linear between neighbouring breakpoints.
#[derive(Debug, Drop)]
pub enum Cost {
    Quadratic { a: i64, b: i64, c: i64 },
    Points(Breakpoints),
}

/// What the solver answers, and the checker confirms. Bricks are numbered from 1.
#[derive(Clone, Copy, Debug, PartialEq, Eq, Drop)]
pub enum Verdict {
    /// A feasible point has this cost, and none has a lower one.
    Optimal { cost: i128 },
    /// No vector within this brick's bounds misses its rows by less than the residual, which is above 0.
    InfeasibleBrick { brick: u32, residual: u128 },
    /// No point that meets the brick rows misses the linking rows by less than the residual, which is above 0.
    InfeasibleLink { residual: u128 },
}

/// The first thing that a point breaks. Bricks, columns and rows are numbered from 1.
#[derive(Clone, Copy, Debug, PartialEq, Eq, Drop)]
pub enum Broken {
    Below { brick: u32, col: u32 },
    Above { brick: u32, col: u32 },
    BrickRow { brick: u32, row: u32 },
    LinkRow { row: u32 },
}
