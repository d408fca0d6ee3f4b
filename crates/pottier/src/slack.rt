//! The slack basis of a matrix, one row after the other.

ghost use Rattle.std.specs.Prelude.{◌≡◌, ℕ, ◌+◌, ◌≤◌, ◌<◌, ◌^◌, [], ◌∷◌, length, map, All, Contains, IfOk, IfErr};
ghost use Rattle.lattice_theory.specs.Vectors as vector;
ghost use Rattle.lattice_theory.specs.Matrices as matrices;
ghost use Rattle.lattice_theory.specs.BasisLimits.{IsNarrow, IsBasisWithin};
ghost use Rattle.lattice_laws.proofs.Elements.{width, with_rows};
ghost use Rattle.lattice_laws.proofs.UnitVectors.{first_units};
ghost use Rattle.pottier.specs.Faults.{LimitOnly, IsBasisFault};
ghost use Rattle.pottier.specs.Stages.{AreFitting, IsCompleted, with_product};

use crate::completion::complete;
use crate::members::Members;
use crate::{Basis, BasisFault};
use int_vectors::dot;
use mat_files::Matrix;
use std::alloc::{AllocError, Global};

/// The slack basis of `a`: of each pair `z`, `-z` of Graver elements of the lattice of all `(v, a·v)`, the
/// one whose first nonzero entry is positive, in lexicographic order.
///
/// An element has `a.cols + a.rows` entries, `v` first, each at most `2^31 - 1` in absolute value.
/// `Limit` comes exactly where the basis has more than `limit` elements or one with a larger entry.
///
/// By pairs, after L. Pottier, "The Euclidean algorithm in dimension n" (1996), one row at a time: the unit
/// vectors are the basis of the matrix with no row, and each row adds an entry to its members.
pub fn slack_basis(alloc: Global, a: &Matrix, limit: u32) -> Result<Basis, BasisFault>
    requires narrow { All IsNarrow a.now.rows }
    requires cols { a.now.cols ≤ 2000 }
    requires rows { length a.now.rows ≤ 16 }
    requires least { 1 ≤ limit }
    requires greatest { limit ≤ 2000 }
    ensures basis { IfOk result (λ b. IsBasisWithin a.now limit b.elements) }
    ensures matrix { IfOk result (λ b. b.matrix ≡ a.now) }
    ensures refused { IfErr result (IsBasisFault a.now limit) }
{
    if a.cols() > limit {
        return Err(BasisFault::Limit);
    }
    let mut members = unit_vectors(alloc, a.cols() as usize)?;
    for row in 0..a.rows() {
        members = with_row(
            alloc,
            &members,
            a.row(row + 1),
            (a.cols() + row) as usize,
            limit as usize,
        )?;
    }
    Ok(Basis::new(alloc, a, members.sorted(alloc)?)?)
}

/// The unit vectors of so many entries.
fn unit_vectors(alloc: Global, cols: usize) -> Result<Members, AllocError>
    requires { cols ≤ 2000 }
    ensures { IfOk result (λ units. units ≡ first_units cols cols) }
{
    let mut units = Members::new(alloc);
    for col in 0..cols {
        let mut unit = vec![in alloc; 0; cols]?;
        unit[col] = 1;
        units.push(&unit)?;
    }
    Ok(units)
}

/// The members for one row more.
fn with_row(
    alloc: Global,
    members: &Members,
    row: &[i64],
    at: usize,
    limit: usize,
) -> Result<Members, BasisFault>
    requires few { at ≤ 2016 }
    requires size { length row.now ≤ at }
    requires narrow { IsNarrow row.now }
    requires fitting { AreFitting at limit members.now }
    ensures fitting { IfOk result (λ more. AreFitting (at + 1) limit more) }
    ensures completed { (m : matrices.Matrix) → m.cols ≡ length row.now → width m ≡ at → IsCompleted m members.now →
        IfOk result (λ more. IsCompleted (with_rows m (row.now ∷ [])) more) }
    ensures refused { (m : matrices.Matrix) → m.cols ≡ length row.now → width m ≡ at → IsCompleted m members.now →
        IfErr result (IsBasisFault (with_rows m (row.now ∷ [])) limit) }
{
    let mut members = extended(alloc, members, row)?;
    complete(alloc, &mut members, at, limit)?;
    Ok(members)
}

/// Each member with its product with the row as its last entry.
fn extended(alloc: Global, members: &Members, row: &[i64]) -> Result<Members, BasisFault>
    requires few { length row.now ≤ 2016 }
    requires narrow { IsNarrow row.now }
    requires members { All (λ z. (length row.now ≤ length z) × IsNarrow z) members.now }
    ensures products { IfOk result (λ more. more ≡ map (with_product row.now) members.now) }
    ensures narrow { IfOk result (λ more. All IsNarrow more) }
    ensures refused { IfErr result (LimitOnly ((z : vector.Vector) × Contains members.now z
        × (IsNarrow (with_product row.now z) → ⊥))) }
{
    let mut extended = Members::new(alloc);
    for place in 0..members.len() {
        let longer = lengthened(alloc, members.get(place), row)?;
        extended.push(&longer)?;
    }
    Ok(extended)
}

/// The member with its product with the row as its last entry.
fn lengthened(alloc: Global, member: &[i64], row: &[i64]) -> Result<Vec<i64>, BasisFault>
    requires few { length row.now ≤ 2016 }
    requires size { length row.now ≤ length member.now }
    requires narrow { IsNarrow row.now }
    requires narrower { IsNarrow member.now }
    ensures product { IfOk result (λ more. more.items ≡ with_product row.now member.now) }
    ensures narrow { IfOk result (λ more. IsNarrow more.items) }
    ensures refused { IfErr result (LimitOnly (IsNarrow (with_product row.now member.now) → ⊥)) }
{
    let entry = dot(row, &member[..row.len()]);
    if entry.unsigned_abs() >= 1 << 31 {
        return Err(BasisFault::Limit);
    }
    let mut longer = Vec::with_capacity(alloc, member.len() + 1)?;
    longer.extend_from_slice(member)?;
    longer.push(entry as i64)?;
    Ok(longer)
}

#[cfg(test)]
mod tests {
    use super::*;
    use crate::kernel;
    use crate::pairs::is_narrow;
    use int_vectors::{is_zero, leads_positive};
    use std::test::Fail;

    /// The answer for the matrix with these entries, or None where it is no matrix that may be asked for.
    fn answer(
        alloc: Global,
        rows: u32,
        cols: u32,
        entries: &[i64],
        limit: u32,
    ) -> Option<Result<Basis, BasisFault>> {
        let kept = Vec::from_slice(alloc, entries).ok()?;
        if kept.len() != rows as usize * cols as usize || !is_narrow(&kept) {
            return None;
        }
        let a = Matrix::new(rows, cols, kept);
        if a.rows() > 16 || a.cols() > 2000 || limit == 0 || limit > 2000 {
            return None;
        }
        Some(slack_basis(alloc, &a, limit))
    }

    /// The elements, one after the other.
    fn elements(alloc: Global, basis: &Basis) -> Result<Vec<i64>, AllocError> {
        let mut all = Vec::new(alloc);
        for i in 0..basis.len() {
            all.extend_from_slice(basis.element(i))?;
        }
        Ok(all)
    }

    fn is_shared<T: Send + Sync>(_value: &T) -> bool {
        true
    }

    #[test]
    fn has_the_elements_worked_by_hand(rt: HostRuntime) -> Result<(), Fail> {
        let nine = [
            0, 0, 1, 1, 0, 1, -2, 0, 0, 1, -1, 1, 0, 1, 0, 2, 1, -1, 0, -1, 1, -1, 1, 0, 1, 0, -1,
            0, 1, 0, 0, 1, 2, -1, 0, 0,
        ];
        for (rows, cols, row, limit, wanted) in [
            (1, 3, [1, 2, 1].as_slice(), 9, nine.as_slice()),
            (
                1,
                2,
                [1, 1].as_slice(),
                3,
                [0, 1, 1, 1, -1, 0, 1, 0, 1].as_slice(),
            ),
            (0, 2, [].as_slice(), 2, [0, 1, 1, 0].as_slice()),
        ] {
            let basis = answer(rt.alloc(), rows, cols, row, limit).ok_or("a small matrix")??;
            assert!(rt; is_shared(&basis));
            assert_eq!(rt;
                elements(rt.alloc(), &basis)?.as_slice(),
                wanted,
                "at {row:?}"
            );
        }
        Ok(())
    }

    #[test]
    fn has_the_first_parts_of_the_kernel(rt: HostRuntime) -> Result<(), Fail> {
        let basis = answer(rt.alloc(), 1, 3, [1, 2, 1].as_slice(), 9).ok_or("a small matrix")??;
        let g = kernel(rt.alloc(), &basis)?;
        assert_eq!(rt;
            g.entries(),
            [0, 1, -2, 1, -1, 1, 1, 0, -1, 2, -1, 0].as_slice()
        );
        Ok(())
    }

    #[test]
    fn is_refused_past_a_limit(rt: HostRuntime) -> Result<(), Fail> {
        for (rows, cols, entries, limit) in [
            (1, 3, [1, 2, 1].as_slice(), 8),
            (0, 2, [].as_slice(), 1),
            (2, 2, [1, 1, 2147483647, -2147483647].as_slice(), 2000),
        ] {
            let found = answer(rt.alloc(), rows, cols, entries, limit).ok_or("a small matrix")?;
            assert!(rt; matches!(found, Err(BasisFault::Limit)), "at {entries:?}");
        }
        Ok(())
    }

    /// The element for a code: four is subtracted from each of its digits in base 9.
    fn element(alloc: Global, row: &[i64], code: u32) -> Result<Vec<i64>, AllocError> {
        let mut vector = Vec::new(alloc);
        let mut digits = code;
        let mut image = 0i64;
        for x in row {
            let entry = i64::from(digits % 9) - 4;
            vector.push(entry)?;
            image = image.wrapping_add(x.wrapping_mul(entry));
            digits /= 9;
        }
        vector.push(image)?;
        Ok(vector)
    }

    fn lies_below(u: &[i64], z: &[i64]) -> bool {
        u.iter().zip(z).all(|(x, y)| x.wrapping_mul(*y) >= 0
            && x.unsigned_abs() <= y.unsigned_abs())
    }

    /// The minimal elements among those with first parts within 4 that lead positive, one after the other.
    fn minimal_in_box(alloc: Global, row: &[i64], codes: u32) -> Result<Vec<i64>, AllocError> {
        let mut all = Vec::new(alloc);
        for code in 0..codes {
            all.push(element(alloc, row, code)?)?;
        }
        all.sort()?;
        let mut found = Vec::new(alloc);
        for z in &all {
            if leads_positive(z)
                && !all.iter().any(|u| !is_zero(u)
                    && u.as_slice() != z.as_slice()
                    && lies_below(u, z))
            {
                found.extend_from_slice(z)?;
            }
        }
        Ok(found)
    }

    #[test]
    fn agrees_with_a_search_of_a_box(rt: HostRuntime) -> Result<(), Fail> {
        for (row, cols, codes) in [
            ([1, 1, 1].as_slice(), 3, 729),
            ([1, 2].as_slice(), 2, 81),
            ([1, 2, 3].as_slice(), 3, 729),
            ([0, 0].as_slice(), 2, 81),
            ([1, 0].as_slice(), 2, 81),
            ([2, 2].as_slice(), 2, 81),
        ] {
            let basis = answer(rt.alloc(), 1, cols, row, 2000).ok_or("a small matrix")??;
            let wanted = minimal_in_box(rt.alloc(), row, codes)?;
            assert_eq!(rt;
                elements(rt.alloc(), &basis)?.as_slice(),
                wanted.as_slice(),
                "at {row:?}"
            );
        }
        Ok(())
    }
}
