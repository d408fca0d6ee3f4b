//! Sums and differences of vectors, in room that is there already or in a vector of their own.
#![tactic(auto)]

ghost use Rattle.std.specs.Prelude.{◌≡◌, ◌+ℤ◌, ◌-ℤ◌, ◌≤◌, ◌<◌, ◌^◌, length, unsigned_abs, IfOk};
ghost use Rattle.lattice_theory.specs.Vectors.{add, sub};
ghost use Rattle.vector_sums.specs.Sizes.{IsBounded, IsSmall};

use std::alloc::{AllocError, Global};

/// Writes `u + v` into `sum`, place by place.
pub fn add_into(sum: &mut [i64], u: &[i64], v: &[i64])
    requires room { length sum.old ≡ length u.now }
    requires same { length v.now ≡ length u.now }
    requires bounded { IsBounded u.now }
    requires small { IsSmall v.now }
    ensures { sum.new ≡ add u.now v.now }
{
    for at in 0..sum.len() {
        sum[at] = u[at] + v[at];
    }
}

/// Writes `u - v` into `difference`, place by place.
pub fn subtract_into(difference: &mut [i64], u: &[i64], v: &[i64])
    requires room { length difference.old ≡ length u.now }
    requires same { length v.now ≡ length u.now }
    requires bounded { IsBounded u.now }
    requires small { IsSmall v.now }
    ensures { difference.new ≡ sub u.now v.now }
{
    for at in 0..difference.len() {
        difference[at] = u[at] - v[at];
    }
}

/// The sum `u + v`.
pub fn sum(alloc: Global, u: &[i64], v: &[i64]) -> Result<Vec<i64>, AllocError>
    requires same { length v.now ≡ length u.now }
    requires bounded { IsBounded u.now }
    requires small { IsSmall v.now }
    ensures { IfOk result (λ made. made.items ≡ add u.now v.now) }
{
    let mut made = Vec::with_capacity(alloc, u.len())?;
    for (x, y) in u.iter().zip(v) {
        made.push(entry_sum(*x, *y))?;
    }
    Ok(made)
}

/// The difference `u - v`.
pub fn difference(alloc: Global, u: &[i64], v: &[i64]) -> Result<Vec<i64>, AllocError>
    requires same { length v.now ≡ length u.now }
    requires bounded { IsBounded u.now }
    requires small { IsSmall v.now }
    ensures { IfOk result (λ made. made.items ≡ sub u.now v.now) }
{
    let mut made = Vec::with_capacity(alloc, u.len())?;
    for (x, y) in u.iter().zip(v) {
        made.push(entry_difference(*x, *y))?;
    }
    Ok(made)
}

/// The sum of two entries.
fn entry_sum(x: i64, y: i64) -> i64
    requires bounded { unsigned_abs x ≤ 2 ^ 62 }
    requires small { unsigned_abs y < 2 ^ 62 }
    ensures { result ≡ x +ℤ y }
{
    x + y
}

/// The difference of two entries.
fn entry_difference(x: i64, y: i64) -> i64
    requires bounded { unsigned_abs x ≤ 2 ^ 62 }
    requires small { unsigned_abs y < 2 ^ 62 }
    ensures { result ≡ x -ℤ y }
{
    x - y
}

#[cfg(test)]
mod tests {
    use super::*;
    use std::test::Fail;

    #[test]
    fn the_largest_entries_are_added_and_subtracted(rt: HostRuntime) {
        let u = [1 << 62, -(1 << 62), 5].as_slice();
        let v = [(1 << 62) - 1, (1 << 62) - 1, -7].as_slice();
        let mut w = [0, 0, 0];
        add_into(&mut w, u, v);
        assert_eq!(rt; w, [i64::MAX, -1, -2]);
        subtract_into(&mut w, u, v);
        assert_eq!(rt; w, [1, i64::MIN + 1, 12]);
    }

    #[test]
    fn sums_and_differences_stand_in_vectors_of_their_own(rt: HostRuntime) -> Result<(), Fail> {
        let u = [1 << 62, -(1 << 62), 5].as_slice();
        let v = [(1 << 62) - 1, (1 << 62) - 1, -7].as_slice();
        let made = sum(rt.alloc(), u, v)?;
        assert_eq!(rt; made.as_slice(), [i64::MAX, -1, -2].as_slice());
        let made = difference(rt.alloc(), u, v)?;
        assert_eq!(rt; made.as_slice(), [1, i64::MIN + 1, 12].as_slice());
        Ok(())
    }
}
