//! The table of potentials, sum by sum.

ghost use Rattle.std.specs.Prelude.{◌≡◌, ◌<◌, ◌≤◌, ◌+◌, ◌^◌, length, map, All, Some, unsigned_abs, IfOk, IfSome};
ghost use Rattle.std.specs.Prelude.{slice_get, IsTrue};
ghost use Rattle.lattice_theory.specs.Vectors.{is_rising};
ghost use Rattle.listed_sums.specs.Places.{vectors_of, IsModest};
ghost use Rattle.listed_potentials.specs.Moves.{places_of, there};
ghost use Rattle.listed_potentials.specs.Moves as moves;
ghost use Rattle.listed_potentials.specs.Columns as columns;
ghost use Rattle.listed_potentials.specs.Sizes.{AreSmall};

use certificate::Table;
use listed_sums::{place_of, vector_of};
use mat_files::Matrix;
use std::alloc::{AllocError, Global};
use vector_sums::add_into;

/// Whether no move leads below the potential of a sum, in any layer. `to` has room for one sum.
pub(crate) fn columns_hold(
    alloc: Global,
    changes: &[Vec<Option<i128>>],
    sums: &Matrix,
    potentials: &Table,
    to: &mut [i64],
) -> Result<bool, AllocError>
    requires layers { length potentials.now.rows ≡ length changes.now + 1 }
    requires bricks { length changes.now ≤ 10000 }
    requires widths { All (λ cs. length cs.items ≡ length sums.now.rows) changes.now }
    requires small { All (λ cs. AreSmall (2 ^ 121) cs.items) changes.now }
    requires cols { potentials.now.cols ≡ length sums.now.rows }
    requires cells { All (AreSmall (2 ^ 124)) potentials.now.rows }
    requires few { length sums.now.rows ≤ 20000 }
    requires level { 1 ≤ sums.now.cols }
    requires room { length to.old + 1 ≡ sums.now.cols }
    requires modest { All IsModest (vectors_of sums.now.rows) }
    requires rising { IsTrue (is_rising (vectors_of sums.now.rows)) }
    ensures { IfOk result (λ b. b ≡ columns.columns_hold (map (λ cs. cs.items) changes.now)
        (vectors_of sums.now.rows) potentials.now.rows 0 (vectors_of sums.now.rows)) }
{
    for place in 0..sums.rows() {
        let places = places(alloc, sums, vector_of(sums, place), to)?;
        if !column_holds(changes, &places, place, potentials) {
            return Ok(false);
        }
    }
    Ok(true)
}

/// The place of the sum of `w` and each listed sum. `to` has room for one sum.
fn places(
    alloc: Global,
    sums: &Matrix,
    w: &[i64],
    to: &mut [i64],
) -> Result<Vec<Option<u32>>, AllocError>
    requires few { length sums.now.rows ≤ 20000 }
    requires width { length w.now + 1 ≡ sums.now.cols }
    requires room { length to.old ≡ length w.now }
    requires bounded { IsModest w.now }
    requires modest { All IsModest (vectors_of sums.now.rows) }
    requires rising { IsTrue (is_rising (vectors_of sums.now.rows)) }
    ensures places { IfOk result (λ ps. ps.items ≡ places_of (vectors_of sums.now.rows) w.now) }
    ensures inside { IfOk result (λ ps. All (λ p. IfSome p (λ at. at < length sums.now.rows)) ps.items) }
{
    let mut places = Vec::with_capacity(alloc, sums.rows() as usize)?;
    for place in 0..sums.rows() {
        add_into(to, w, vector_of(sums, place));
        places.push(place_of(sums, to))?;
    }
    Ok(places)
}

/// Whether no move from the sum at a place leads below its potential, in any layer.
fn column_holds(
    changes: &[Vec<Option<i128>>],
    places: &[Option<u32>],
    at: u32,
    potentials: &Table,
) -> bool
    requires layers { length potentials.now.rows ≡ length changes.now + 1 }
    requires bricks { length changes.now ≤ 10000 }
    requires widths { All (λ cs. length cs.items ≡ length places.now) changes.now }
    requires small { All (λ cs. AreSmall (2 ^ 121) cs.items) changes.now }
    requires cols { potentials.now.cols ≡ length places.now }
    requires cells { All (AreSmall (2 ^ 124)) potentials.now.rows }
    requires at { at < potentials.now.cols }
    requires inside { All (λ p. IfSome p (λ at. at < length places.now)) places.now }
    ensures { result ≡ columns.column_holds (map (λ cs. cs.items) changes.now) places.now at potentials.now.rows }
{
    for layer in 0..changes.len() {
        let here = potentials.get(layer as u32, at);
        let next = potentials.row(layer as u32 + 1);
        if !row_holds(here, &changes[layer], places, next) {
            return false;
        }
    }
    true
}

/// Whether no move leads below the potential here, where the potentials of the next layer are `next`.
fn row_holds(
    here: Option<i128>,
    changes: &[Option<i128>],
    places: &[Option<u32>],
    next: &[Option<i128>],
) -> bool
    requires same { length changes.now ≡ length places.now }
    requires width { length next.now ≡ length places.now }
    requires small { AreSmall (2 ^ 121) changes.now }
    requires cells { AreSmall (2 ^ 124) next.now }
    requires inside { All (λ p. IfSome p (λ at. at < length places.now)) places.now }
    ensures { result ≡ moves.row_holds here changes.now places.now next.now }
{
    for at in 0..changes.len() {
        let Some(place) = places[at] else {
            continue;
        };
        if !move_holds(here, changes[at], next[place as usize]) {
            return false;
        }
    }
    true
}

/// Whether a move with this change does not lead from this potential below the next one.
fn move_holds(here: Option<i128>, change: Option<i128>, next: Option<i128>) -> bool
    requires change { IfSome change (λ d. unsigned_abs d ≤ 2 ^ 121) }
    requires next { IfSome next (λ a. unsigned_abs a ≤ 2 ^ 124) }
    ensures { result ≡ moves.move_holds here change (Some next) }
{
    match (here, change, next) {
        (_, None, _) | (_, _, None) => true,
        (None, Some(_), Some(_)) => false,
        (Some(here), Some(change), Some(next)) => here <= change + next,
    }
}
