//! Reading the parts of a certificate about the linking rows.

ghost use Rattle.std.specs.Prelude.{◌≡◌, ◌≤◌, ◌^◌, ◌*◌, Ok, MatchResult, IfOk, All, length};
ghost use Rattle.lattice_theory.specs.Matrices.{rows_of};
ghost use Rattle.mat_files.specs.Reading.{Gives, IsTokenFault, IsAdded, repeated, next_by};
ghost use Rattle.certificate.specs.CertificateText.{next_fold, next_bound, next_sums, next_sum, next_potentials};
ghost use Rattle.certificate.specs.CertificateText.{width_at, cell_at};
ghost use Rattle.certificate.specs.Readable.{IsSumRow, IsCell, IsReadablePart};

use super::{Limits, part, size};
use crate::fold_part::FoldPart;
use crate::table::Table;
use mat_files::{FaultKind, Matrix, Scanner, TokenFault};
use std::alloc::Global;

const LINKS: Limits = Limits {
    rows: 2_000,
    cols: 2_016,
    largest: (1 << 31) - 1,
};

/// The largest absolute value of an entry of a sum.
const SUM: u64 = 1 << 47;

/// The most entries of a table of potentials.
const CELLS: u64 = 1 << 20;

/// The parts about the linking rows.
pub(super) fn fold(alloc: Global, tokens: &mut Scanner<'_>) -> Result<FoldPart, TokenFault>
    ensures read { MatchResult result (λ f. next_fold tokens.old ≡ Ok (f, tokens.new))
        (IsTokenFault (next_fold tokens.old)) }
    ensures readable { IfOk result IsReadablePart }
{
    let links = part(alloc, tokens, b"links", &LINKS)?;
    let bound = bound(tokens)?;
    let sums = sums(alloc, tokens)?;
    let potentials = potentials(alloc, tokens)?;
    let fold = FoldPart::new(links, bound, sums, potentials);
    fold.is_within_limits();
    Ok(fold)
}

/// The word `bound`, and the bound.
fn bound(tokens: &mut Scanner<'_>) -> Result<u64, TokenFault>
    ensures bound { Gives (next_bound tokens.old) result tokens.new }
    ensures small { IfOk result (λ n. n ≤ 2 ^ 62) }
{
    tokens.word(b"bound")?;
    tokens.count(0, 1 << 62, FaultKind::TooBig)
}

/// The word `sums`, and the matrix of the sums with their levels.
fn sums(alloc: Global, tokens: &mut Scanner<'_>) -> Result<Matrix, TokenFault>
    ensures read { MatchResult result (λ m. next_sums tokens.old ≡ Ok (m, tokens.new))
        (IsTokenFault (next_sums tokens.old)) }
    ensures rows { IfOk result (λ m. length m.rows ≤ 20000) }
    ensures cols { IfOk result (λ m. m.cols ≤ 33) }
    ensures entries { IfOk result (λ m. All IsSumRow m.rows) }
{
    tokens.word(b"sums")?;
    let rows = size(tokens, 20_000)?;
    let cols = size(tokens, 33)?;
    let entries = sum_rows(alloc, tokens, rows, cols)?;
    Ok(Matrix::new(rows, cols, entries))
}

/// The entries of the next rows of sums, row by row.
fn sum_rows(
    alloc: Global,
    tokens: &mut Scanner<'_>,
    rows: u32,
    cols: u32,
) -> Result<Vec<i64>, TokenFault>
    ensures read { MatchResult result
        (λ v. repeated (next_sum cols) rows tokens.old ≡ Ok (rows_of rows cols v.items, tokens.new))
        (IsTokenFault (repeated (next_sum cols) rows tokens.old)) }
    ensures all { IfOk result (λ v. length v.items ≡ rows * cols) }
{
    let mut entries = Vec::new(alloc);
    for _ in 0..rows {
        add_sum(tokens, &mut entries, cols)?;
    }
    Ok(entries)
}

/// Adds the entries of the next row of sums: the level, and then the sum. There is no level where there is no column.
fn add_sum(tokens: &mut Scanner<'_>, entries: &mut Vec<i64>, cols: u32) -> Result<(), TokenFault>
    ensures { MatchResult result
        (λ _. IsAdded (next_sum cols tokens.old) entries.old.items entries.new.items tokens.new)
        (IsTokenFault (next_sum cols tokens.old)) }
{
    if cols == 0 {
        return Ok(());
    }
    let level = tokens.count(0, 1 << 62, FaultKind::TooBig)?;
    entries.push(level as i64)?;
    tokens.add_numbers(entries, u64::from(cols) - 1, SUM)
}

/// The word `potentials`, and the table of potentials.
fn potentials(alloc: Global, tokens: &mut Scanner<'_>) -> Result<Table, TokenFault>
    ensures read { MatchResult result (λ t. next_potentials tokens.old ≡ Ok (t, tokens.new))
        (IsTokenFault (next_potentials tokens.old)) }
    ensures rows { IfOk result (λ t. length t.rows ≤ 10001) }
    ensures cols { IfOk result (λ t. t.cols ≤ 20000) }
    ensures product { IfOk result (λ t. length t.rows * t.cols ≤ 2 ^ 20) }
    ensures cells { IfOk result (λ t. All (λ row. All IsCell row) t.rows) }
{
    tokens.word(b"potentials")?;
    let rows = size(tokens, 10_001)?;
    let cols = width(tokens, rows)?;
    let cells = cells(alloc, tokens, u64::from(rows) * u64::from(cols))?;
    Ok(Table::new(rows, cols, cells))
}

/// The number of columns of a table of so many rows.
fn width(tokens: &mut Scanner<'_>, rows: u32) -> Result<u32, TokenFault>
    ensures width { Gives (next_by (width_at rows) tokens.old) result tokens.new }
    ensures cols { IfOk result (λ n. n ≤ 20000) }
    ensures product { IfOk result (λ n. rows * n ≤ 2 ^ 20) }
{
    let token = tokens.token()?;
    let cols = token.count(0, 20_000, FaultKind::TooMany)? as u32;
    if u64::from(rows) * u64::from(cols) > CELLS {
        return Err(TokenFault::new(token.at, FaultKind::TooMany));
    }
    Ok(cols)
}

/// The next `count` potentials.
fn cells(
    alloc: Global,
    tokens: &mut Scanner<'_>,
    count: u64,
) -> Result<Vec<Option<i128>>, TokenFault>
    ensures read { MatchResult result (λ v. repeated (next_by cell_at) count tokens.old ≡ Ok (v.items, tokens.new))
        (IsTokenFault (repeated (next_by cell_at) count tokens.old)) }
{
    let mut cells = Vec::new(alloc);
    for _ in 0..count {
        cells.push(cell(tokens)?)?;
    }
    Ok(cells)
}

/// The next potential: a number, or `none`, which stands for infinity.
fn cell(tokens: &mut Scanner<'_>) -> Result<Option<i128>, TokenFault>
    ensures { Gives (next_by cell_at tokens.old) result tokens.new }
{
    let token = tokens.token()?;
    if token.text == b"none".as_slice() {
        return Ok(None);
    }
    Ok(Some(token.number(1 << 124)?))
}
