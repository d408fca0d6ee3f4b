//! The conformal order: one vector lies below another where no entry has the other sign and none is larger
//! in absolute value.

ghost use Rattle.std.specs.Prelude.{◌≡◌, ◌<◌, ◌^◌, length, false, All, unsigned_abs, neg_ℤ};
ghost use Rattle.lattice_theory.specs.Vectors.{◌⊑◌, is_between, IsGreatestMultiple};
ghost use Rattle.lattice_theory.specs.Vectors as vector;
ghost use Rattle.lattice_theory.specs.Lattices as lattice;

/// Whether `a` is conformally below `b`.
pub fn conforms(a: &[i64], b: &[i64]) -> bool
    requires { length a.now ≡ length b.now }
    ensures { result ≡ vector.conforms a.now b.now }
{
    for (x, y) in a.iter().zip(b) {
        if !lies_between(*x, *y) {
            return false;
        }
    }
    true
}

/// Whether `x` lies between 0 and `y`.
fn lies_between(x: i64, y: i64) -> bool
    ensures { result ≡ is_between x y }
{
    x == 0 || (x < 0) == (y < 0) && y != 0 && x.unsigned_abs() <= y.unsigned_abs()
}

/// Whether the opposite of `a` is conformally below `b`.
pub fn conforms_turned(a: &[i64], b: &[i64]) -> bool
    requires { length a.now ≡ length b.now }
    ensures { result ≡ vector.conforms (vector.opposite a.now) b.now }
{
    for (x, y) in a.iter().zip(b) {
        if !lies_opposite(*x, *y) {
            return false;
        }
    }
    true
}

/// Whether `-x` lies between 0 and `y`.
fn lies_opposite(x: i64, y: i64) -> bool
    ensures { result ≡ is_between (neg_ℤ x) y }
{
    x == 0 || (x < 0) != (y < 0) && y != 0 && x.unsigned_abs() <= y.unsigned_abs()
}

/// The greatest `m` for which `m·e` is conformally below `v`, where `e` is so and is not zero.
pub fn greatest_multiple(e: &[i64], v: &[i64]) -> u64
    requires same { length e.now ≡ length v.now }
    requires nonzero { vector.is_zero e.now ≡ false }
    requires below { e.now ⊑ v.now }
    requires first { All (λ x. unsigned_abs x < 2 ^ 63) e.now }
    requires second { All (λ y. unsigned_abs y < 2 ^ 63) v.now }
    ensures value { result ≡ lattice.greatest_multiple e.now v.now }
    ensures greatest { IsGreatestMultiple e.now v.now result }
{
    let mut most = u64::MAX;
    for (x, y) in e.iter().zip(v) {
        if *x != 0 {
            most = most.min(y.unsigned_abs() / x.unsigned_abs());
        }
    }
    most
}

#[cfg(test)]
mod tests {
    use super::*;

    #[test]
    fn an_entry_of_the_other_sign_or_a_larger_one_is_not_below(rt: HostRuntime) {
        let v = [1, 7, -3].as_slice();
        for (u, below) in [([1, 0, -2], true), ([1, 0, 2], false), ([2, 0, -2], false)] {
            assert_eq!(rt; conforms(u.as_slice(), v), below, "at {u:?}");
        }
    }

    #[test]
    fn the_opposite_is_below_where_no_sign_is_shared(rt: HostRuntime) {
        let v = [1, 7, -3].as_slice();
        for (u, below) in [
            ([-1, 0, 2], true),
            ([1, 0, 2], false),
            ([-2, 0, 2], false),
            ([-1, -7, 3], true),
        ] {
            assert_eq!(rt; conforms_turned(u.as_slice(), v), below, "at {u:?}");
        }
    }

    #[test]
    fn the_scarcest_entry_bounds_the_multiple(rt: HostRuntime) {
        assert_eq!(rt;
            greatest_multiple([1, 0, -2].as_slice(), [7, 5, -9].as_slice()),
            4
        );
    }
}
