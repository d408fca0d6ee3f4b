//! A point: one vector of whole numbers for each brick of a program.

ghost use Rattle.std.specs.Prelude.{◌≡◌, ◌≤◌, ◌-◌, ◌*◌, Some, length, slice_get, All, IfSome, IfNone, IsSome};
ghost use Rattle.lattice_theory.specs.Matrices.{rows_of};
ghost use Rattle.fold_theory.specs.Programs.{AreWithin};
ghost use Rattle.fold_program.specs.Points.{HasPointShape, IsPoint, IsNoPoint};
ghost use Rattle.lattice_theory.specs.Vectors.{IsBoundedRow};

use crate::program::Program;
use mat_files::Matrix;
use std::marker::Model;

/// A point of a program, which contracts see as the list of its bricks' vectors.
#[derive(Debug, Drop)]
pub struct Point {
    bricks: Matrix,
}

impl Model for Point {
    ghost use Rattle.std.specs.Prelude.{All};
    ghost use Rattle.fold_theory.specs.Programs.{Bricks};
    ghost use Rattle.lattice_theory.specs.Vectors.{IsBoundedRow};

    ghost Value = { Bricks };

    ghost view = { λ p. p.bricks.rows };

    ghost invariant = { λ p. All IsBoundedRow p.bricks.rows };
}

impl Point {
    /// The point with these entries, brick by brick: `n·t` of them, each at most `2^62` in absolute value. None
    /// where their number is another, or one is larger; so entries within the bounds of a program make a point of it.
    pub fn new(program: &Program, entries: Vec<i64>) -> Option<Point>
        ensures made { IfSome result (IsPoint program.now entries.items) }
        ensures shape { IfSome result (HasPointShape program.now) }
        ensures refused { IfNone result (IsNoPoint program.now entries.items) }
        ensures within { length entries.items ≡ length program.now.bricks * program.now.link.cols →
            AreWithin program.now.bricks (rows_of (length program.now.bricks) program.now.link.cols entries.items) →
            IsSome result }
    {
        let (rows, cols) = (program.n(), program.t());
        if entries.len() as u64 != u64::from(rows) * u64::from(cols) {
            return None;
        }
        if !entries.iter().all(|entry| entry.unsigned_abs() <= 1 << 62) {
            return None;
        }
        Some(Point {
            bricks: Matrix::new(rows, cols, entries),
        })
    }

    /// The vector of one brick; bricks are numbered from 1.
    pub fn brick(&self, i: u32) -> &[i64]
        requires from { 1 ≤ i }
        requires to { i ≤ length self.now }
        ensures vector { slice_get self.now (i - 1) ≡ Some result.now }
        ensures bounded { IsBoundedRow result.now }
    {
        self.bricks.row(i)
    }
}
