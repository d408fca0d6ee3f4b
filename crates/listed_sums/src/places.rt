//! Where a sum stands in a rising list, and its level.

ghost use Rattle.std.specs.Prelude.{◌≡◌, ◌≤◌, ◌<◌, ◌+◌, ◌-◌, Some, length, slice_get, option_map, IsTrue, IfSome};
ghost use Rattle.lattice_theory.specs.Vectors.{is_rising};
ghost use Rattle.listed_sums.specs.Places.{sums_of, vectors_of, place_in};

use int_vectors::cmp_lex;
use mat_files::Matrix;
use std::cmp::Ordering;

/// The sum at a place, from 0, of a list.
pub fn vector_of(sums: &Matrix, place: u32) -> &[i64]
    requires place { place < length sums.now.rows }
    requires level { 1 ≤ sums.now.cols }
    requires few { length sums.now.rows ≤ 20000 }
    ensures sum { slice_get (vectors_of sums.now.rows) place ≡ Some result.now }
    ensures width { length result.now + 1 ≡ sums.now.cols }
{
    &sums.row(place + 1)[1..]
}

/// The level of the sum at a place, from 0, of a list.
pub fn level_of(sums: &Matrix, place: u32) -> u64
    requires place { place < length sums.now.rows }
    requires level { 1 ≤ sums.now.cols }
    requires few { length sums.now.rows ≤ 20000 }
    ensures { IfSome (slice_get (sums_of sums.now.rows) place) (λ s. s.level ≡ result) }
{
    sums.row(place + 1)[0].unsigned_abs()
}

/// The place, from 0, of `w` in a list that rises.
pub fn place_of(sums: &Matrix, w: &[i64]) -> Option<u32>
    requires width { length w.now + 1 ≡ sums.now.cols }
    requires few { length sums.now.rows ≤ 20000 }
    requires rising { IsTrue (is_rising (vectors_of sums.now.rows)) }
    ensures place { result ≡ place_in (vectors_of sums.now.rows) w.now }
    ensures inside { IfSome result (λ at. at < length sums.now.rows) }
{
    let mut low = 0;
    let mut high = sums.rows();
    while low < high {
        let middle = low + (high - low) / 2;
        match cmp_lex(vector_of(sums, middle), w) {
            Ordering::Less => low = middle + 1,
            Ordering::Equal => return Some(middle),
            Ordering::Greater => high = middle,
        }
    }
    None
}
