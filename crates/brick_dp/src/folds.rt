//! What the layered programme stands on.

ghost use Rattle.std.specs.Prelude.{◌≡◌, ◌≤◌, ◌<◌, ◌^◌, Some, length, slice_get, All, unsigned_abs, MatchOption};
ghost use Rattle.lattice_theory.specs.Matrices.{product};
ghost use Rattle.lattice_theory.specs.SignedSums.{vectors};
ghost use Rattle.run_theory.specs.Limits.{FitsTable};
ghost use Rattle.run_theory.specs.Folds.{IsSmallImage, IsFold};

use brick_sums::Sums;
use fold_program::{Phase, Program};
use std::marker::Model;

/// A program with the sums that its steps take in a phase.
#[derive(Debug, Drop)]
pub struct Fold<'a> {
    program: &'a Program,
    sums: &'a Sums,
    phase: Phase,
}

impl<'a> Model for Fold<'a> {
    ghost use Rattle.run_theory.specs.Folds.{FoldValue, IsFold};

    ghost Value = { FoldValue };

    ghost view = { λ f. record { program = f.program.now; phase = f.phase; sums = f.sums.now } };

    ghost invariant = { λ f. IsFold (record { program = f.program.now; phase = f.phase; sums = f.sums.now }) };
}

impl<'a> Fold<'a> {
    /// The program with these sums, which have an entry for each column and change each linking row by at most
    /// `2^50`. None where the table of all layers would have more than `2^20` nodes.
    pub fn new(program: &'a Program, sums: &'a Sums, phase: Phase) -> Option<Fold<'a>>
        requires widths { All (λ w. length w ≡ program.now.brick.cols) (vectors sums.now) }
        requires images { All (IsSmallImage program.now) (vectors sums.now) }
        ensures { MatchOption result (¬ FitsTable program.now sums.now)
            (λ f. FitsTable program.now sums.now × (f ≡ record {
              program = program.now;
              phase = phase;
              sums =
                  sums.now;
            })) }
    {
        let layers = u64::from(program.n()) + 1;
        if layers * u64::from(sums.len()) > 1 << 20 {
            return None;
        }
        Some(Fold {
            program,
            sums,
            phase,
        })
    }

    /// The program.
    pub fn program(&self) -> &Program
        ensures { result.now ≡ self.now.program }
    {
        self.program
    }

    /// The sums.
    pub fn sums(&self) -> &Sums
        ensures sums { result.now ≡ self.now.sums }
        ensures fold { IsFold self.now }
    {
        self.sums
    }

    /// The entries of the sum at a place, one for each column.
    pub(crate) fn sum(&self, i: u32) -> &[i64]
        requires { i < length self.now.sums }
        ensures vector { slice_get (vectors self.now.sums) i ≡ Some result.now }
        ensures width { length result.now ≡ self.now.program.link.cols }
        ensures image { IsSmallImage self.now.program result.now }
    {
        let _ = self.program.t();
        self.sums.get(i)
    }

    /// The phase.
    pub fn phase(&self) -> Phase
        ensures { result ≡ self.now.phase }
    {
        self.phase
    }
}
