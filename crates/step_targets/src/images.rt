//! What a sum changes of a linking row.

ghost use Rattle.std.specs.Prelude.{◌≡◌, ◌<◌, ◌≤◌, ◌^◌, ◌*ℤ◌, length, unsigned_abs};
ghost use Rattle.lattice_theory.specs.Vectors.{dot};
ghost use Rattle.lattice_theory.specs.BasisLimits.{IsNarrow};

/// The product of a row and a sum: the row's entries are below `2^31` in absolute value, and the sum has at most 32
/// entries.
pub fn image(row: &[i64], sum: &[i64]) -> i128
    requires narrow { IsNarrow row.now }
    requires width { length sum.now ≤ 32 }
    ensures { result ≡ dot row.now sum.now }
{
    let mut image = 0;
    for (a, x) in row.iter().zip(sum) {
        image += times(*a, *x);
    }
    image
}

/// The product of a coefficient and an entry.
fn times(a: i64, x: i64) -> i128
    requires { unsigned_abs a < 2 ^ 31 }
    ensures value { result ≡ a *ℤ x }
    ensures small { unsigned_abs result ≤ 2 ^ 94 }
{
    i128::from(a) * i128::from(x)
}
