//! Pairs of vectors of one length, whose last entry is the new one: when a pair counts, its norm and its sum.
//!
//! The second vector of a pair is taken with the sign with which its new entry clashes with that of the first.
//! With the other sign the two new entries agree, so a pair counts with one sign at most.

ghost use Rattle.std.specs.Prelude.{◌≡◌, ◌≤◌, ◌<◌, ◌^◌, ◌+◌, IfOk, length, All, MatchBool, unsigned_abs, true};
ghost use Rattle.lattice_theory.specs.Vectors as vector;
ghost use Rattle.lattice_theory.specs.BasisLimits.{IsNarrow};
ghost use Rattle.lattice_laws.proofs.Signs as signs;
ghost use Rattle.lattice_laws.proofs.Conformal as conformal;
ghost use Rattle.pottier.specs.Partners as partners;
ghost use Rattle.pottier.specs.Partners.{pair_counts, sum_of_pair, norm_of_sum};

use int_vectors::norm1;
use std::alloc::{AllocError, Global};
use vector_sums::{difference, sum};

/// Whether the pair counts: its vectors agree before the last entry, and clash there.
pub fn counts(p: &[i64], q: &[i64], at: usize) -> bool
    requires first { length p.now ≡ at + 1 }
    requires second { length q.now ≡ at + 1 }
    ensures { result ≡ pair_counts at p.now q.now }
{
    if agrees(p[at], q[at]) {
        !agrees_turned(p[at], q[at]) && agree_turned(&p[..at], &q[..at])
    } else {
        agree(&p[..at], &q[..at])
    }
}

/// Whether neither number has the other's sign.
fn agrees(x: i64, y: i64) -> bool
    ensures { result ≡ signs.agrees x y }
{
    x == 0 || y == 0 || (x < 0) == (y < 0)
}

/// Whether no two entries at one place have opposite signs.
fn agree(p: &[i64], q: &[i64]) -> bool
    requires { length p.now ≡ length q.now }
    ensures { result ≡ conformal.agree p.now q.now }
{
    for (x, y) in p.iter().zip(q) {
        if !agrees(*x, *y) {
            return false;
        }
    }
    true
}

/// Whether neither number has the other's sign once one of them is turned.
fn agrees_turned(x: i64, y: i64) -> bool
    ensures { result ≡ partners.agrees_turned x y }
{
    x == 0 || y == 0 || (x < 0) != (y < 0)
}

/// Whether no two entries at one place have opposite signs once those of `q` are turned.
fn agree_turned(p: &[i64], q: &[i64]) -> bool
    requires { length p.now ≡ length q.now }
    ensures { result ≡ partners.agree_turned p.now q.now }
{
    for (x, y) in p.iter().zip(q) {
        if !agrees_turned(*x, *y) {
            return false;
        }
    }
    true
}

/// The norm before the last entry of the sum of a pair that counts.
pub fn pair_norm(p: &[i64], q: &[i64], at: usize) -> u64
    requires first { length p.now ≡ at + 1 }
    requires second { length q.now ≡ at + 1 }
    requires few { at ≤ 2016 }
    requires narrow { IsNarrow p.now }
    requires narrower { IsNarrow q.now }
    ensures norm { pair_counts at p.now q.now ≡ true → result ≡ norm_of_sum at p.now q.now }
{
    (norm1(&p[..at]) + norm1(&q[..at])) as u64
}

/// The sum of a pair.
pub fn pair_sum(alloc: Global, p: &[i64], q: &[i64], at: usize) -> Result<Vec<i64>, AllocError>
    requires first { length p.now ≡ at + 1 }
    requires second { length q.now ≡ at + 1 }
    requires narrow { IsNarrow p.now }
    requires narrower { IsNarrow q.now }
    ensures { IfOk result (λ z. z.items ≡ sum_of_pair at p.now q.now) }
{
    if agrees(p[at], q[at]) {
        difference(alloc, p, q)
    } else {
        sum(alloc, p, q)
    }
}

/// Turns all signs.
pub fn turn(z: &mut [i64])
    requires { All (λ x. unsigned_abs x < 2 ^ 62) z.old }
    ensures { z.new ≡ vector.opposite z.old }
{
    for x in z.iter_mut() {
        *x = -*x;
    }
}

/// Whether each entry is at most `2^31 - 1` in absolute value.
pub fn is_narrow(z: &[i64]) -> bool
    ensures { MatchBool result (IsNarrow z.now) (IsNarrow z.now → ⊥) }
{
    z.iter().all(|x| x.unsigned_abs() < 1 << 31)
}
