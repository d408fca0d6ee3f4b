//! Lists for the row `1 1`, for no row, and for the rows `1 1` and `0 1`, worked by hand.

ghost use Rattle.std.specs.Prelude.{⊤, MatchBool};
ghost use Rattle.lattice_theory.specs.BasisLimits.{IsNarrow};

use crate::is_complete;
use mat_files::Matrix;
use std::alloc::{AllocError, Global};
use std::test::Fail;

/// Whether each entry is at most `2^31 - 1` in absolute value.
fn is_narrow(entries: &[i64]) -> bool
    ensures { MatchBool result (IsNarrow entries.now) ⊤ }
{
    entries.iter().all(|x| x.unsigned_abs() < 1 << 31)
}

/// Whether the members are complete for the matrix, both row by row; None where they are no lists of such rows.
fn answer(
    alloc: Global,
    rows: u32,
    cols: u32,
    entries: &[i64],
    count: u32,
    members: &[i64],
) -> Result<Option<bool>, AllocError> {
    if rows > 16 || cols > 2_000 || count > 2_000 {
        return Ok(None);
    }
    if entries.len() != rows as usize * cols as usize {
        return Ok(None);
    }
    let entries = Vec::from_slice(alloc, entries)?;
    let members = Vec::from_slice(alloc, members)?;
    if !is_narrow(&entries) || !is_narrow(&members) {
        return Ok(None);
    }
    let matrix = Matrix::new(rows, cols, entries);
    if matrix.rows() > 16 || matrix.cols() > 2_000 {
        return Ok(None);
    }
    let width = matrix.cols() + matrix.rows();
    if members.len() != count as usize * width as usize {
        return Ok(None);
    }
    let list = Matrix::new(count, width, members);
    Ok(Some(is_complete(alloc, &matrix, &list)?))
}

#[test]
fn a_slack_basis_is_complete(rt: HostRuntime) -> Result<(), Fail> {
    for (rows, cols, entries, count, members) in [
        (
            1,
            2,
            [1, 1].as_slice(),
            3,
            [0, 1, 1, 1, -1, 0, 1, 0, 1].as_slice(),
        ),
        (0, 2, [].as_slice(), 2, [0, 1, 1, 0].as_slice()),
        (
            2,
            2,
            [1, 1, 0, 1].as_slice(),
            3,
            [0, 1, 1, 1, 1, -1, 0, -1, 1, 0, 1, 0].as_slice(),
        ),
        (
            1,
            1,
            [2_147_483_647].as_slice(),
            1,
            [1, 2_147_483_647].as_slice(),
        ),
    ] {
        let complete = answer(rt.alloc(), rows, cols, entries, count, members)?;
        assert_eq!(rt; complete, Some(true), "at {members:?}");
    }
    Ok(())
}

#[test]
fn a_list_is_not_complete_where_one_test_fails(rt: HostRuntime) -> Result<(), Fail> {
    let row = [1, 1].as_slice();
    for (count, members) in [
        // a difference, or a unit vector, is missing
        (2, [0, 1, 1, 1, 0, 1].as_slice()),
        (2, [0, 1, 1, 1, -1, 0].as_slice()),
        (0, [].as_slice()),
        // out of order, twice, no element, or with a negative lead
        (3, [1, -1, 0, 0, 1, 1, 1, 0, 1].as_slice()),
        (4, [0, 1, 1, 0, 1, 1, 1, -1, 0, 1, 0, 1].as_slice()),
        (3, [0, 1, 1, 1, -1, 0, 1, 0, 2].as_slice()),
        (3, [-1, 1, 0, 0, 1, 1, 1, 0, 1].as_slice()),
    ] {
        let complete = answer(rt.alloc(), 1, 2, row, count, members)?;
        assert_eq!(rt; complete, Some(false), "at {members:?}");
    }
    Ok(())
}

#[test]
fn a_member_that_is_not_minimal_does_no_harm(rt: HostRuntime) -> Result<(), Fail> {
    let members = [0, 1, 1, 1, -1, 0, 1, 0, 1, 1, 1, 2].as_slice();
    let complete = answer(rt.alloc(), 1, 2, [1, 1].as_slice(), 4, members)?;
    assert_eq!(rt; complete, Some(true));
    Ok(())
}

/// The slack basis of the row `1 1998`: the two unit vectors, and the differences that take `1998` down to 0 by 1.
fn long_list(alloc: Global) -> Result<Vec<i64>, AllocError> {
    let mut members = [0, 1, 1_998, 1, -1, -1_997, 1, 0, 1].to_vec(alloc)?;
    for count in 2..1_999u32 {
        let times = i64::from(count);
        members.extend_from_slice([times, -1, times - 1_998].as_slice())?;
    }
    Ok(members)
}

#[test]
fn two_thousand_rows_are_complete_and_not_without_the_last(rt: HostRuntime) -> Result<(), Fail> {
    let mut members = long_list(rt.alloc())?;
    let row = [1, 1_998].as_slice();
    let whole = answer(rt.alloc(), 1, 2, row, 2_000, &members)?;
    assert_eq!(rt; whole, Some(true));
    members.truncate(5_997);
    let short = answer(rt.alloc(), 1, 2, row, 1_999, &members)?;
    assert_eq!(rt; short, Some(false));
    Ok(())
}
