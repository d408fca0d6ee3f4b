//! The point from which the run of a brick starts.

ghost use Rattle.std.specs.Prelude.{◌≡◌, ◌≤ℤ◌, IfOk};
ghost use Rattle.std.specs.List.{AllZip};
ghost use Rattle.lattice_theory.specs.Lists.{zip_with};
ghost use Rattle.run_theory.specs.BrickRuns.{nearest};
ghost use Rattle.step_targets.specs.Targets.{AreBetween};

use std::alloc::{AllocError, Global};

/// The point of these bounds that is nearest to 0 in every coordinate.
pub fn nearest_point(alloc: Global, lower: &[i64], upper: &[i64]) -> Result<Vec<i64>, AllocError>
    requires { AllZip ◌≤ℤ◌ lower.now upper.now }
    ensures point { IfOk result (λ v. v.items ≡ zip_with nearest lower.now upper.now) }
    ensures within { IfOk result (λ v. AreBetween lower.now upper.now v.items) }
{
    let mut point = Vec::with_capacity(alloc, lower.len())?;
    for (at, low) in lower.iter().enumerate() {
        point.push(nearest_to_zero(*low, upper[at]))?;
    }
    Ok(point)
}

/// The number between these two that is nearest to 0.
fn nearest_to_zero(low: i64, high: i64) -> i64
    requires { low ≤ℤ high }
    ensures value { result ≡ nearest low high }
    ensures above { low ≤ℤ result }
    ensures below { result ≤ℤ high }
{
    0i64.clamp(low, high)
}
