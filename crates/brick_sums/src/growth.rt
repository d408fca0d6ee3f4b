//! The sums, made level by level: what one more generator gives that fewer don't is of the next level.

ghost use Rattle.std.specs.Prelude.{◌≡◌, ◌<◌, ◌≤◌, ◌⊎◌, ◌^◌, suc, [], ◌∷◌, length, All, IsTrue, IfOk, IfErr, OnOk};
ghost use Rattle.lattice_theory.specs.Vectors.{is_rising, zeros};
ghost use Rattle.lattice_theory.specs.BasisLimits.{IsNarrow};
ghost use Rattle.lattice_theory.specs.SignedSums.{IsSignedSum, AreSums, vectors};
ghost use Rattle.brick_sums.specs.Generators.{AreGenerators};
ghost use Rattle.brick_sums.specs.Levels.{sums_of, kept, IsFound, AreLast, AreSumsSoFar, AreGrown, HasNeighbours};
ghost use Rattle.brick_sums.specs.Refusals.{IsSumsFault};

use crate::fault::SumsFault;
use crate::list::Sums;
use crate::member::{Member, place_of_zero};
use mat_files::Matrix;
use std::alloc::{AllocError, Global};
use std::collections::BTreeMap;
use std::mem;
use vector_sums::{difference, sum};

/// All sums of at most `g` rows of `gens`, each with either sign and any of them more than once, in
/// lexicographic order. The empty sum is zero.
///
/// `Limit` comes exactly where there are more than `most` of them.
///
/// Level by level: the sums of a level that no lower one has, plus and minus each generator, until a level
/// adds nothing or `g` is reached. For the Graver basis of a brick these are the states of R. Hemmecke, S. Onn
/// and L. Romanchuk, "N-fold integer programming in cubic time" (2013).
pub fn sums(alloc: Global, gens: &Matrix, g: u64, most: u32) -> Result<Sums, SumsFault>
    requires narrow { All IsNarrow gens.now.rows }
    requires distinct { AreGenerators gens.now.rows }
    requires some { 1 ≤ g }
    requires least { 1 ≤ most }
    requires greatest { most ≤ 20000 }
    ensures sums { IfOk result (AreSums gens.now.cols gens.now.rows g) }
    ensures few { IfOk result (λ zs. length zs ≤ most) }
    ensures refused { IfErr result (IsSumsFault gens.now g most) }
{
    let members = all_members(alloc, gens, g, most)?;
    let zero = place_of_zero(&members).unwrap();
    Ok(Sums::new(alloc, members, zero)?)
}

/// The sums that were found.
#[derive(Drop)]
struct Found {
    /// Each of them, with its level.
    levels: BTreeMap<Vec<i64>, u64>,
    /// Copies of those of the last level.
    last: Vec<Vec<i64>>,
}

/// All these sums, in lexicographic order.
fn all_members(alloc: Global, gens: &Matrix, g: u64, most: u32) -> Result<Vec<Member>, SumsFault>
    requires narrow { All IsNarrow gens.now.rows }
    requires least { 1 ≤ most }
    requires greatest { most ≤ 20000 }
    ensures sums { IfOk result (λ members. AreSums gens.now.cols gens.now.rows g members.items) }
    ensures even { OnOk result (All (λ e. length e ≡ gens.now.cols) gens.now.rows) }
    ensures few { IfOk result (λ members. length members.items ≤ most) }
    ensures refused { IfErr result (IsSumsFault gens.now g most) }
{
    let found = all_found(alloc, gens, g, most)?;
    Ok(listed(alloc, found.levels)?)
}

/// The sums with their levels, in the order of the map.
fn listed(alloc: Global, levels: BTreeMap<Vec<i64>, u64>) -> Result<Vec<Member>, AllocError>
    ensures { IfOk result (λ members. members.items ≡ sums_of levels.entries) }
{
    let mut members = Vec::with_capacity(alloc, levels.len())?;
    for (vector, level) in levels {
        members.push(Member::new(level, vector))?;
    }
    Ok(members)
}

/// All these sums, found level by level.
fn all_found(alloc: Global, gens: &Matrix, g: u64, most: u32) -> Result<Found, SumsFault>
    requires narrow { All IsNarrow gens.now.rows }
    requires least { 1 ≤ most }
    requires greatest { most ≤ 20000 }
    ensures sums { IfOk result (λ found. AreSums gens.now.cols gens.now.rows g (sums_of found.levels.entries)) }
    ensures even { OnOk result (All (λ e. length e ≡ gens.now.cols) gens.now.rows) }
    ensures few { IfOk result (λ found. length (sums_of found.levels.entries) ≤ most) }
    ensures refused { IfErr result (IsSumsFault gens.now g most) }
{
    let mut found = zero_found(alloc, gens.cols())?;
    for level in 0..g {
        let before = found.levels.len();
        add_level(alloc, gens, level, most, &mut found)?;
        if found.levels.len() == before {
            return Ok(found);
        }
    }
    Ok(found)
}

/// The sum of no generators.
fn zero_found(alloc: Global, cols: u32) -> Result<Found, AllocError>
    ensures { IfOk result (λ found. (sums_of found.levels.entries ≡ record { level = 0; vector = zeros cols } ∷ [])
        × (kept found.last.items ≡ zeros cols ∷ [])) }
{
    let zero = vec![in alloc; 0; cols as usize]?;
    let mut last = Vec::new(alloc);
    last.push(Vec::from_slice(alloc, &zero)?)?;
    let mut levels = BTreeMap::new(alloc);
    levels.insert(zero, 0)?;
    Ok(Found { levels, last })
}

/// Adds the sums of one more generator to those of at most `level`.
fn add_level(
    alloc: Global,
    gens: &Matrix,
    level: u64,
    most: u32,
    found: &mut Found,
) -> Result<(), SumsFault>
    requires narrow { All IsNarrow gens.now.rows }
    requires even { All (λ e. length e ≡ gens.now.cols) gens.now.rows }
    requires low { level < 20000 }
    requires listed { AreSums gens.now.cols gens.now.rows level (sums_of found.old.levels.entries) }
    requires last { AreLast gens.now.cols gens.now.rows level (sums_of found.old.levels.entries)
        (kept found.old.last.items) }
    requires few { length (sums_of found.old.levels.entries) ≤ most }
    ensures sums { OnOk result (AreSums gens.now.cols gens.now.rows (suc level) (sums_of found.new.levels.entries)) }
    ensures last { OnOk result (AreLast gens.now.cols gens.now.rows (suc level) (sums_of found.new.levels.entries)
        (kept found.new.last.items)) }
    ensures few { OnOk result (length (sums_of found.new.levels.entries) ≤ most) }
    ensures grown { OnOk result ((sums_of found.new.levels.entries ≡ sums_of found.old.levels.entries)
        ⊎ (length (sums_of found.old.levels.entries) < length (sums_of found.new.levels.entries))) }
    ensures refused { IfErr result (IsSumsFault gens.now (suc level) most) }
{
    let last = mem::replace(&mut found.last, Vec::new(alloc));
    for before in &last {
        add_neighbours(alloc, gens, before, level, found)?;
        if found.levels.len() > most as usize {
            return Err(SumsFault::Limit);
        }
    }
    Ok(())
}

/// Adds the sums of a vector of this level and each generator, with either sign.
fn add_neighbours(
    alloc: Global,
    gens: &Matrix,
    before: &[i64],
    level: u64,
    found: &mut Found,
) -> Result<(), AllocError>
    requires narrow { All IsNarrow gens.now.rows }
    requires even { All (λ e. length e ≡ gens.now.cols) gens.now.rows }
    requires low { level < 20000 }
    requires sum { IsSignedSum gens.now.cols gens.now.rows level before.now }
    requires so_far { AreSumsSoFar gens.now.cols gens.now.rows level (sums_of found.old.levels.entries) }
    requires last { AreLast gens.now.cols gens.now.rows (suc level) (sums_of found.old.levels.entries)
        (kept found.old.last.items) }
    ensures grown { OnOk result (AreGrown gens.now.cols gens.now.rows level (sums_of found.old.levels.entries)
        (sums_of found.new.levels.entries)) }
    ensures last { OnOk result (AreLast gens.now.cols gens.now.rows (suc level) (sums_of found.new.levels.entries)
        (kept found.new.last.items)) }
    ensures done { OnOk result (HasNeighbours gens.now.rows (sums_of found.new.levels.entries) before.now) }
{
    for row in 0..gens.rows() {
        let e = gens.row(row + 1);
        offer(alloc, found, level + 1, sum(alloc, before, e)?)?;
        offer(alloc, found, level + 1, difference(alloc, before, e)?)?;
    }
    Ok(())
}

/// Adds the vector with this level, unless it is there.
fn offer(alloc: Global, found: &mut Found, level: u64, vector: Vec<i64>) -> Result<(), AllocError>
    requires { IsTrue (is_rising (vectors (sums_of found.old.levels.entries))) }
    ensures { OnOk result (IsFound (record { level = level; vector = vector.items }) (sums_of found.old.levels.entries)
        (sums_of found.new.levels.entries) (kept found.old.last.items) (kept found.new.last.items)) }
{
    if found.levels.contains_key(vector.as_slice()) {
        return Ok(());
    }
    found.last.push(Vec::from_slice(alloc, &vector)?)?;
    found.levels.insert(vector, level)?;
    Ok(())
}

#[cfg(test)]
mod tests;
