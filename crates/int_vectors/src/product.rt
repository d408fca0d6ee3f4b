//! The product of two vectors.

ghost use Rattle.std.specs.Prelude.{◌≡◌, ◌≤◌, ◌<◌, ◌^◌, ◌*◌, ◌*ℤ◌, length, All, unsigned_abs};
ghost use Rattle.lattice_theory.specs.Vectors as vector;

/// The sum of the products at each place, of a row of a matrix and a vector. Entries of the row are below `2^31` in
/// absolute value, those of the vector below `2^63`, and there are at most `2^20`.
pub fn dot(a: &[i64], b: &[i64]) -> i128
    requires same { length a.now ≡ length b.now }
    requires few { length a.now ≤ 2 ^ 20 }
    requires first { All (λ x. unsigned_abs x < 2 ^ 31) a.now }
    requires second { All (λ y. unsigned_abs y < 2 ^ 63) b.now }
    ensures value { result ≡ vector.dot a.now b.now }
    ensures small { unsigned_abs result ≤ 2 ^ 94 * length a.now }
{
    let mut sum = 0;
    for (x, y) in a.iter().zip(b) {
        sum += times(*x, *y);
    }
    sum
}

/// The product of an entry of the matrix and one of the vector.
fn times(x: i64, y: i64) -> i128
    requires first { unsigned_abs x < 2 ^ 31 }
    requires second { unsigned_abs y < 2 ^ 63 }
    ensures value { result ≡ x *ℤ y }
    ensures small { unsigned_abs result ≤ 2 ^ 94 }
{
    i128::from(x) * i128::from(y)
}

#[cfg(test)]
mod tests {
    use super::*;

    #[test]
    fn the_product_counts_every_place(rt: HostRuntime) {
        assert_eq!(rt; dot([1, -2, 3].as_slice(), [4, 5, -6].as_slice()), -24);
    }
}
