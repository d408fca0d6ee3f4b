//! Quadratic costs `a·v² + b·v + c`.
#![tactic(auto)]

ghost use Rattle.std.specs.Prelude.{◌≡◌, ◌^◌, ◌≤◌, ◌+ℤ◌, ◌*ℤ◌, unsigned_abs, IsTrue, IfSome, IfNone};
ghost use Rattle.lattice_theory.specs.Vectors.{is_bounded};
ghost use Rattle.convex_costs.specs.Bounds.{terms};

/// `a·v² + b·v + c`.
pub(crate) fn quadratic(a: i64, b: i64, c: i64, v: i64) -> i128
    requires small { terms a b c (unsigned_abs v) ≤ 2 ^ 120 }
    ensures { result ≡ a *ℤ (v *ℤ v) +ℤ b *ℤ v +ℤ c }
{
    let (a, b, c, v) = (a as i128, b as i128, c as i128, v as i128);
    a * (v * v) + b * v + c
}

/// `|a|·m² + |b|·m + |c|`, or None where that does not fit 128 bits.
pub(crate) fn quadratic_magnitude(a: i64, b: i64, c: i64, m: u64) -> Option<u128>
    requires linear { IsTrue (is_bounded b) }
    requires constant { IsTrue (is_bounded c) }
    requires widest { m ≤ 2 ^ 62 }
    ensures fits { IfSome result (λ r. r ≡ terms a b c m) }
    ensures large { IfNone result (2 ^ 128 ≤ terms a b c m) }
{
    let m = m as u128;
    let square = (a.unsigned_abs() as u128).checked_mul(m * m)?;
    let line = b.unsigned_abs() as u128 * m + c.unsigned_abs() as u128;
    square.checked_add(line)
}
