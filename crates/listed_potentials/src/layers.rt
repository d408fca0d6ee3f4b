//! All layers of a listed table of potentials.

ghost use Rattle.std.specs.Prelude.{◌≡◌, ◌≤◌, ◌+◌, ◌^◌, ◌&&◌, length, map, All, IfOk, IsTrue};
ghost use Rattle.lattice_theory.specs.Vectors.{is_rising, zeros};
ghost use Rattle.fold_theory.specs.Programs.{AreWithin, link_rests};
ghost use Rattle.run_theory.specs.Checker.{layers_hold, starts_at_zero};
ghost use Rattle.fold_program.specs.Points.{HasPointShape};
ghost use Rattle.listed_sums.specs.Places.{vectors_of, IsModest};
ghost use Rattle.listed_potentials.specs.Moves as moves;
ghost use Rattle.listed_potentials.specs.Sizes.{AreSmall};

use crate::changes::changes;
use crate::columns::columns_hold;
use crate::ends::{ends_hold, is_at_most};
use certificate::Table;
use fold_program::{Phase, Point, Program};
use listed_sums::place_of;
use mat_files::Matrix;
use std::alloc::{AllocError, Global};

/// Whether the potentials, a row for each layer and a column for each sum, show that no walk of listed sums costs less
/// than nothing: in the last layer none is above what an end at its sum costs, in each other layer none is above what a
/// move costs and the potential to which it leads, and the first one of the sum 0 is not negative. None stands for
/// infinity.
///
/// Each two sums are added up once; then each brick takes one addition and one comparison.
pub fn potentials_hold(
    alloc: Global,
    program: &Program,
    phase: Phase,
    point: &Point,
    sums: &Matrix,
    potentials: &Table,
) -> Result<bool, AllocError>
    requires shape { HasPointShape program.now point.now }
    requires within { AreWithin program.now.bricks point.now }
    requires few { length sums.now.rows ≤ 20000 }
    requires sums { sums.now.cols ≡ 1 + program.now.link.cols }
    requires modest { All IsModest (vectors_of sums.now.rows) }
    requires rising { IsTrue (is_rising (vectors_of sums.now.rows)) }
    requires layers { length potentials.now.rows ≡ 1 + length program.now.bricks }
    requires cols { potentials.now.cols ≡ length sums.now.rows }
    requires cells { All (AreSmall (2 ^ 124)) potentials.now.rows }
    ensures { IfOk result (λ b. b ≡ (layers_hold program.now phase (vectors_of sums.now.rows)
        (link_rests program.now point.now) program.now.bricks point.now potentials.now.rows && starts_at_zero
        program.now (vectors_of sums.now.rows) potentials.now.rows)) }
{
    if !layers_hold(alloc, program, phase, point, sums, potentials)? {
        return Ok(false);
    }
    let zero = vec![in alloc; 0; program.t() as usize]?;
    Ok(starts_at_zero(program, sums, potentials, &zero))
}

/// Whether each layer holds.
fn layers_hold(
    alloc: Global,
    program: &Program,
    phase: Phase,
    point: &Point,
    sums: &Matrix,
    potentials: &Table,
) -> Result<bool, AllocError>
    requires shape { HasPointShape program.now point.now }
    requires within { AreWithin program.now.bricks point.now }
    requires few { length sums.now.rows ≤ 20000 }
    requires sums { sums.now.cols ≡ 1 + program.now.link.cols }
    requires modest { All IsModest (vectors_of sums.now.rows) }
    requires rising { IsTrue (is_rising (vectors_of sums.now.rows)) }
    requires layers { length potentials.now.rows ≡ 1 + length program.now.bricks }
    requires cols { potentials.now.cols ≡ length sums.now.rows }
    requires cells { All (AreSmall (2 ^ 124)) potentials.now.rows }
    ensures { IfOk result (λ b. b ≡ layers_hold program.now phase (vectors_of sums.now.rows)
        (link_rests program.now point.now) program.now.bricks point.now potentials.now.rows) }
{
    prove!(potentials.cols() >= sums.rows());
    let last = potentials.row(program.n());
    if !ends_hold(alloc, program, phase, point, sums, last)? {
        return Ok(false);
    }
    let mut to = vec![in alloc; 0; program.t() as usize]?;
    let changes = all_changes(alloc, program, phase, point, sums, &mut to)?;
    columns_hold(alloc, &changes, sums, potentials, &mut to)
}

/// What the listed moves of each brick change the phase cost by. `to` has room for one vector.
fn all_changes(
    alloc: Global,
    program: &Program,
    phase: Phase,
    point: &Point,
    sums: &Matrix,
    to: &mut [i64],
) -> Result<Vec<Vec<Option<i128>>>, AllocError>
    requires shape { HasPointShape program.now point.now }
    requires within { AreWithin program.now.bricks point.now }
    requires few { length sums.now.rows ≤ 20000 }
    requires sums { sums.now.cols ≡ 1 + program.now.link.cols }
    requires modest { All IsModest (vectors_of sums.now.rows) }
    requires room { length to.old ≡ program.now.link.cols }
    ensures changes { IfOk result (λ all. map (λ cs. cs.items) all.items ≡ moves.all_changes phase
        (vectors_of sums.now.rows) program.now.bricks point.now) }
    ensures small { IfOk result (λ all. All (λ cs. AreSmall (2 ^ 121) cs.items) all.items) }
{
    let mut all = Vec::with_capacity(alloc, program.n() as usize)?;
    for before in 0..program.n() {
        let brick = before + 1;
        let at = point.brick(brick);
        all.push(changes(alloc, program, phase, brick, at, sums, to)?)?;
    }
    Ok(all)
}

/// Whether the first potential of the sum 0, which is `zero`, is not negative.
fn starts_at_zero(program: &Program, sums: &Matrix, potentials: &Table, zero: &[i64]) -> bool
    requires zero { zero.now ≡ zeros program.now.brick.cols }
    requires width { length zero.now + 1 ≡ sums.now.cols }
    requires few { length sums.now.rows ≤ 20000 }
    requires rising { IsTrue (is_rising (vectors_of sums.now.rows)) }
    requires layers { 1 ≤ length potentials.now.rows }
    requires cols { potentials.now.cols ≡ length sums.now.rows }
    ensures { result ≡ starts_at_zero program.now (vectors_of sums.now.rows) potentials.now.rows }
{
    prove!(potentials.cols() >= sums.rows());
    match place_of(sums, zero) {
        Some(place) => is_at_most(Some(0), potentials.get(0, place)),
        None => false,
    }
}
