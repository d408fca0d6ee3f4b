//! Where a step leads that one brick takes: its vector after `2^k` times the step's part, where that is within the
//! bounds; and what a sum of parts changes of a linking row.
#![tactic(auto)]

mod images;

ghost use Rattle.std.specs.Prelude.{◌≡◌, ◌<◌, ◌≤◌, ◌^◌, ℤ, pos, ◌+ℤ◌, ◌*ℤ◌, ◌≤ℤ◌, length, SomeIff, IfOk};
ghost use Rattle.step_targets.specs.Targets.{Leads, after};

pub use images::image;
use std::alloc::{AllocError, Global};

/// The vector after `2^k` times the part, where each entry is between its bounds.
///
/// None where an entry leaves its bounds; entries are computed in 128 bits, so that no product is too large. An error
/// comes only where memory runs out.
pub fn target(
    alloc: Global,
    lower: &[i64],
    upper: &[i64],
    point: &[i64],
    part: &[i64],
    k: u32,
) -> Result<Option<Vec<i64>>, AllocError>
    requires lowers { length lower.now ≡ length point.now }
    requires uppers { length upper.now ≡ length point.now }
    requires width { length part.now ≡ length point.now }
    requires short { k < 64 }
    ensures { IfOk result (Leads lower.now upper.now (after k point.now part.now)) }
{
    let length = 1u64 << k;
    let mut moved = Vec::with_capacity(alloc, point.len())?;
    for (at, entry) in point.iter().enumerate() {
        let Some(entry) = moved_within(lower[at], upper[at], *entry, part[at], length) else {
            return Ok(None);
        };
        moved.push(entry)?;
    }
    Ok(Some(moved))
}

/// The entry after so many times its part, where it is between these two.
fn moved_within(lower: i64, upper: i64, entry: i64, part: i64, length: u64) -> Option<i64>
    requires short { length ≤ 2 ^ 63 }
    ensures { let moved = entry +ℤ pos length *ℤ part in SomeIff result ((lower ≤ℤ moved) × (moved ≤ℤ upper)) moved }
{
    let moved = moved_entry(entry, part, length);
    if i128::from(lower) <= moved && moved <= i128::from(upper) {
        Some(moved as i64)
    } else {
        None
    }
}

/// The entry after so many times its part.
fn moved_entry(entry: i64, part: i64, length: u64) -> i128
    requires short { length ≤ 2 ^ 63 }
    ensures { result ≡ entry +ℤ pos length *ℤ part }
{
    i128::from(entry) + i128::from(length) * i128::from(part)
}

#[cfg(test)]
mod tests;
