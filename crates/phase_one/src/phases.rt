//! Which phase comes first from a point.

ghost use Rattle.std.specs.Prelude.{◌≡◌, ◌<◌, ◌≤◌, ◌^◌, ◌↔◌, IsTrue};
ghost use Rattle.fold_theory.specs.Programs.{link_miss, link_rests};
ghost use Rattle.fold_program.specs.Points.{HasPointShape};

use fold_program::{Point, Program};

/// Whether the point misses a linking row, so that phase `Counted` comes first. No memory is taken.
pub fn counted(program: &Program, p: &Point) -> bool
    requires { HasPointShape program.now p.now }
    ensures { IsTrue result ↔ (0 < link_miss program.now (link_rests program.now p.now)) }
{
    judge(program, p) != 0
}

/// What the point misses of the linking rows in all, which is its cost in phase `Counted`: at most `2^117`. No memory
/// is taken.
pub fn judge(program: &Program, p: &Point) -> u128
    requires { HasPointShape program.now p.now }
    ensures miss { result ≡ link_miss program.now (link_rests program.now p.now) }
    ensures small { result ≤ 2 ^ 117 }
{
    program.link_residual(p)
}
