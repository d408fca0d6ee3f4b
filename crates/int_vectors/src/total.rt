//! The sum of two vectors, within the range of the entries of points.

ghost use Rattle.std.specs.Prelude.{◌≡◌, length, IsTrue, SomeIff, ◌+ℤ◌, IfOk, IfErr, OnOk};
ghost use Rattle.lattice_theory.specs.Vectors as vector;
ghost use Rattle.int_vectors.specs.Refusals.{IsAddFault};

use std::alloc::Global;

/// Why a sum of two vectors is refused.
#[derive(Clone, Copy, Debug, PartialEq, Eq, Drop)]
pub enum VecFault {
    /// The first place, from 0, at which the sum is past `2^62` in absolute value.
    TooLarge { at: usize },
    /// Memory ran out.
    Memory,
}

/// The sum place by place.
///
/// `TooLarge` comes exactly where an entry of the sum is past `2^62` in absolute value, `Memory` where there
/// is none for the sum.
pub fn add(alloc: Global, a: &[i64], b: &[i64]) -> Result<Vec<i64>, VecFault>
    requires { length a.now ≡ length b.now }
    ensures sum { IfOk result (λ v. v.items ≡ vector.add a.now b.now) }
    ensures bounded { OnOk result (vector.first_unbounded (vector.add a.now b.now) ≡ None) }
    ensures refused { IfErr result (IsAddFault (vector.add a.now b.now)) }
{
    let mut sums = Vec::new(alloc);
    for (x, y) in a.iter().zip(b) {
        let Some(sum) = bounded_sum(*x, *y) else {
            return Err(VecFault::TooLarge { at: sums.len() });
        };
        if sums.push(sum).is_err() {
            return Err(VecFault::Memory);
        }
    }
    Ok(sums)
}

/// The sum of two entries, where it is at most `2^62` in absolute value.
fn bounded_sum(x: i64, y: i64) -> Option<i64>
    ensures { SomeIff result (IsTrue (vector.is_bounded (x +ℤ y))) (x +ℤ y) }
{
    x.checked_add(y).filter(|sum| sum.unsigned_abs() <= 1 << 62)
}

#[cfg(test)]
mod tests {
    use super::*;
    use std::test::Fail;

    #[test]
    fn sums_place_by_place(rt: HostRuntime) -> Result<(), Fail> {
        let sum = add(rt.alloc(), [1, -1].as_slice(), [1, 0].as_slice())?;
        assert_eq!(rt; sum.as_slice(), [2, -1].as_slice());
        Ok(())
    }

    #[test]
    fn a_sum_past_the_range_is_refused_by_its_place(rt: HostRuntime) {
        let sum = add(rt.alloc(), [1 << 62].as_slice(), [1].as_slice());
        assert!(rt; matches!(sum, Err(VecFault::TooLarge { at: 0 })));
    }
}
