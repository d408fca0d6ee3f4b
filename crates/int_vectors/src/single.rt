//! What a vector is by its entries: zero or not, its 1-norm, its first sign and its place in the
//! lexicographic order.

ghost use Rattle.std.specs.Prelude.{◌≡◌, length};
ghost use Rattle.lattice_theory.specs.Vectors.{lex_cmp};
ghost use Rattle.lattice_theory.specs.Vectors as vector;

use std::cmp::Ordering;

/// Whether every entry is 0.
pub fn is_zero(a: &[i64]) -> bool
    ensures { result ≡ vector.is_zero a.now }
{
    a.iter().all(|x| *x == 0)
}

/// The sum of the absolute values.
pub fn norm1(a: &[i64]) -> u128
    ensures { result ≡ vector.norm1 a.now }
{
    let mut norm = 0;
    for x in a {
        norm += u128::from(x.unsigned_abs());
    }
    norm
}

/// Whether a first nonzero entry exists and is positive.
pub fn leads_positive(a: &[i64]) -> bool
    ensures { result ≡ vector.leads_positive a.now }
{
    for x in a {
        if *x != 0 {
            return *x > 0;
        }
    }
    false
}

/// The lexicographic order.
pub fn cmp_lex(a: &[i64], b: &[i64]) -> Ordering
    requires { length a.now ≡ length b.now }
    ensures { result ≡ lex_cmp a.now b.now }
{
    a.cmp(b)
}

#[cfg(test)]
mod tests {
    use super::*;

    #[test]
    fn zero_has_zeros_alone(rt: HostRuntime) {
        assert!(rt; is_zero([0, 0].as_slice()));
        assert!(rt; !is_zero([0, -1].as_slice()));
    }

    #[test]
    fn the_norm_counts_both_signs(rt: HostRuntime) {
        assert_eq!(rt; norm1([3, 0, -4].as_slice()), 7);
        assert_eq!(rt; norm1([i64::MIN, i64::MIN].as_slice()), 1 << 64);
    }

    #[test]
    fn the_first_nonzero_entry_leads(rt: HostRuntime) {
        for (v, leads) in [([0, 2, -1], true), ([0, -2, 1], false), ([0, 0, 0], false)] {
            assert_eq!(rt; leads_positive(v.as_slice()), leads, "at {v:?}");
        }
    }

    #[test]
    fn the_first_difference_orders(rt: HostRuntime) {
        assert_eq!(rt;
            cmp_lex([0, 1, 9].as_slice(), [0, 2, -9].as_slice()),
            Ordering::Less
        );
        assert_eq!(rt;
            cmp_lex([0, 1].as_slice(), [0, 1].as_slice()),
            Ordering::Equal
        );
    }
}
