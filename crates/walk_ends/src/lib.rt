//! What the ends of walks cost: what the linking rows miss after a step along a sum, against what they missed before.
#![tactic(auto)]

ghost use Rattle.std.specs.Prelude.{◌≡◌, ◌<◌, ◌≤◌, ◌^◌, pos, ◌-ℤ◌, ◌*ℤ◌, length, All, unsigned_abs, IfSome};
ghost use Rattle.lattice_theory.specs.Vectors.{dot, scale, sub};
ghost use Rattle.lattice_theory.specs.Matrices.{product};
ghost use Rattle.lattice_theory.specs.BasisLimits.{IsNarrow};
ghost use Rattle.fold_theory.specs.Programs.{link_miss};
ghost use Rattle.run_theory.specs.Walks.{end_at};
ghost use Rattle.walk_ends.specs.Steps.{IsSmallStep};

use fold_program::{Phase, Program};
use step_targets::image;

/// What the linking rows miss in all after `2^k` times the sum, where they have `rests` left before it: of each row the
/// distance from its right side that its relation does not allow. A rest is at most `2^113` in absolute value, and so
/// is what the step changes a row by.
pub fn missed_after(program: &Program, rests: &[i128], sum: &[i64], k: u32) -> u128
    requires rests { length rests.now ≡ length program.now.link.rows }
    requires small { All (λ rest. unsigned_abs rest ≤ 2 ^ 113) rests.now }
    requires width { length sum.now ≡ program.now.link.cols }
    requires step { IsSmallStep program.now k sum.now }
    requires short { k < 64 }
    ensures missed { result ≡ link_miss program.now
        (sub rests.now (scale (pos (2 ^ k)) (product program.now.link sum.now))) }
    ensures small { result ≤ 2 ^ 118 }
{
    prove!(program.t() <= 32 && program.r() <= 16);
    let mut missed = 0;
    for (at, rest) in rests.iter().enumerate() {
        let row = at as u32 + 1;
        missed += program.missed(row, left(*rest, program.link().row(row), sum, k));
    }
    missed
}

/// What a row has left of its right side after `2^k` times the sum.
fn left(rest: i128, row: &[i64], sum: &[i64], k: u32) -> i128
    requires narrow { IsNarrow row.now }
    requires width { length sum.now ≤ 32 }
    requires short { k < 64 }
    requires small { unsigned_abs rest ≤ 2 ^ 113 }
    requires step { unsigned_abs (pos (2 ^ k) *ℤ dot row.now sum.now) ≤ 2 ^ 113 }
    ensures left { result ≡ rest -ℤ pos (2 ^ k) *ℤ dot row.now sum.now }
    ensures small { unsigned_abs result ≤ 2 ^ 114 }
{
    rest - further(1u64 << k, image(row, sum))
}

/// So many times the image of a sum.
fn further(length: u64, image: i128) -> i128
    requires step { unsigned_abs (pos length *ℤ image) ≤ 2 ^ 113 }
    ensures value { result ≡ pos length *ℤ image }
    ensures small { unsigned_abs result ≤ 2 ^ 113 }
{
    i128::from(length) * image
}

/// What walks cost that end where the linking rows miss so much `after`, of which they missed so much `before`, each at
/// most `2^118`. In phase `Closed` walks end only where nothing is missed.
pub fn end(phase: Phase, before: u128, after: u128) -> Option<i128>
    requires before { before ≤ 2 ^ 118 }
    requires after { after ≤ 2 ^ 118 }
    ensures cost { result ≡ end_at phase before after }
    ensures small { IfSome result (λ cost. unsigned_abs cost ≤ 2 ^ 118) }
{
    match phase {
        Phase::Closed => (after == 0).then_some(0),
        Phase::Counted => Some(after as i128 - before as i128),
    }
}

#[cfg(test)]
mod tests {
    use super::*;

    #[test]
    fn walks_end_by_what_is_missed(rt: HostRuntime) {
        assert_eq!(rt; end(Phase::Closed, 7, 0), Some(0));
        assert_eq!(rt; end(Phase::Closed, 0, 1), None);
        assert_eq!(rt; end(Phase::Counted, 7, 4), Some(-3));
        assert_eq!(rt; end(Phase::Counted, 4, 7), Some(3));
    }
}
