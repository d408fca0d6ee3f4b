//! Whether a list of sums is closed under one more generator.

ghost use Rattle.std.specs.Prelude.{◌≡◌, ◌≤◌, ◌<◌, ◌+◌, ◌&&◌, ◌||◌, length, nat_le, suc, IsTrue, IfOk, IfSome, All};
ghost use Rattle.std.specs.Prelude.{slice_get};
ghost use Rattle.std.specs.List.{list_all};
ghost use Rattle.lattice_theory.specs.Vectors.{add, sub};
ghost use Rattle.lattice_theory.specs.Vectors as vector;
ghost use Rattle.lattice_theory.specs.BasisLimits.{IsNarrow};
ghost use Rattle.run_theory.specs.Checker.{is_sum_within, sums_are_closed};
ghost use Rattle.listed_sums.specs.Places.{sums_of, vectors_of, IsModest};
ghost use Rattle.listed_sums.specs.Closure.{is_closed_at};

use crate::places::{level_of, place_of, vector_of};
use int_vectors::cmp_lex;
use mat_files::Matrix;
use std::alloc::{AllocError, Global};
use vector_sums::{add_into, subtract_into};

/// Whether the sums rise, 0 is one of them at level 0, and each sum of a level below `bound`, with a generator added or
/// taken away, is one of a level that is at most greater by 1.
pub fn are_closed(
    alloc: Global,
    sums: &Matrix,
    generators: &Matrix,
    bound: u64,
) -> Result<bool, AllocError>
    requires width { generators.now.cols + 1 ≡ sums.now.cols }
    requires few { length sums.now.rows ≤ 20000 }
    requires modest { All IsModest (vectors_of sums.now.rows) }
    requires narrow { All IsNarrow generators.now.rows }
    ensures { IfOk result (λ b. b ≡ sums_are_closed generators.now.cols generators.now.rows bound
        (sums_of sums.now.rows)) }
{
    if !is_rising(sums) {
        return Ok(false);
    }
    let mut w = vec![in alloc; 0; generators.cols() as usize]?;
    if !is_listed(sums, 0, &w) {
        return Ok(false);
    }
    Ok(neighbours_are_listed(sums, generators, bound, &mut w))
}

/// Whether each sum is less than the next one.
fn is_rising(sums: &Matrix) -> bool
    requires level { 1 ≤ sums.now.cols }
    requires few { length sums.now.rows ≤ 20000 }
    ensures { result ≡ vector.is_rising (vectors_of sums.now.rows) }
{
    for place in 1..sums.rows() {
        if !is_less(vector_of(sums, place - 1), vector_of(sums, place)) {
            return false;
        }
    }
    true
}

/// Whether `u` comes before `v`.
fn is_less(u: &[i64], v: &[i64]) -> bool
    requires { length u.now ≡ length v.now }
    ensures { result ≡ vector.lex_less u.now v.now }
{
    cmp_lex(u, v).is_lt()
}

/// Whether `w` is a sum of at most this level.
fn is_listed(sums: &Matrix, level: u64, w: &[i64]) -> bool
    requires width { length w.now + 1 ≡ sums.now.cols }
    requires few { length sums.now.rows ≤ 20000 }
    requires rising { IsTrue (vector.is_rising (vectors_of sums.now.rows)) }
    ensures { result ≡ is_sum_within (sums_of sums.now.rows) level w.now }
{
    match place_of(sums, w) {
        Some(place) => level_of(sums, place) <= level,
        None => false,
    }
}

/// Whether that holds of each sum of a level below `bound`. `w` has room for one sum.
fn neighbours_are_listed(sums: &Matrix, generators: &Matrix, bound: u64, w: &mut [i64]) -> bool
    requires width { generators.now.cols + 1 ≡ sums.now.cols }
    requires room { length w.old ≡ generators.now.cols }
    requires few { length sums.now.rows ≤ 20000 }
    requires modest { All IsModest (vectors_of sums.now.rows) }
    requires narrow { All IsNarrow generators.now.rows }
    requires rising { IsTrue (vector.is_rising (vectors_of sums.now.rows)) }
    ensures { result ≡ list_all (is_closed_at (sums_of sums.now.rows) generators.now.rows bound)
        (sums_of sums.now.rows) }
{
    for place in 0..sums.rows() {
        if !is_closed_at(sums, generators, bound, place, w) {
            return false;
        }
    }
    true
}

/// Whether that holds of the sum at a place.
fn is_closed_at(sums: &Matrix, generators: &Matrix, bound: u64, place: u32, w: &mut [i64]) -> bool
    requires place { place < length sums.now.rows }
    requires width { generators.now.cols + 1 ≡ sums.now.cols }
    requires room { length w.old ≡ generators.now.cols }
    requires few { length sums.now.rows ≤ 20000 }
    requires modest { All IsModest (vectors_of sums.now.rows) }
    requires narrow { All IsNarrow generators.now.rows }
    requires rising { IsTrue (vector.is_rising (vectors_of sums.now.rows)) }
    ensures { IfSome (slice_get (sums_of sums.now.rows) place) (λ s. result ≡ is_closed_at
        (sums_of sums.now.rows) generators.now.rows bound s) }
{
    let level = level_of(sums, place);
    bound <= level || are_listed(sums, generators, level + 1, vector_of(sums, place), w)
}

/// Whether the sum, with each generator added and taken away, is one of at most this level.
fn are_listed(sums: &Matrix, generators: &Matrix, level: u64, sum: &[i64], w: &mut [i64]) -> bool
    requires width { generators.now.cols + 1 ≡ sums.now.cols }
    requires same { length sum.now ≡ generators.now.cols }
    requires room { length w.old ≡ generators.now.cols }
    requires few { length sums.now.rows ≤ 20000 }
    requires modest { IsModest sum.now }
    requires narrow { All IsNarrow generators.now.rows }
    requires rising { IsTrue (vector.is_rising (vectors_of sums.now.rows)) }
    ensures { result ≡ list_all (λ e. is_sum_within (sums_of sums.now.rows) level (add sum.now e) && is_sum_within
        (sums_of sums.now.rows) level (sub sum.now e)) generators.now.rows }
{
    for row in 0..generators.rows() {
        let generator = generators.row(row + 1);
        add_into(w, sum, generator);
        if !is_listed(sums, level, w) {
            return false;
        }
        subtract_into(w, sum, generator);
        if !is_listed(sums, level, w) {
            return false;
        }
    }
    true
}
