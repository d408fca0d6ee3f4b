//! The text of a certificate.

ghost use Rattle.std.specs.Prelude.{◌≡◌, ◌++◌, Some, Ok, IfOk, OnOk, codes};
ghost use Rattle.certificate.specs.CertificateText.{claim_text, cell_text, cells_text, table_text, fold_text};
ghost use Rattle.certificate.specs.CertificateText.{certificate_text, parsed_certificate};

use super::Certificate;
use crate::fold_part::FoldPart;
use crate::table::Table;
use itoa::Buffer;
use run_theory::Claim;
use std::alloc::{AllocError, Global};

/// The text of the certificate, a line for each of its words, and its matrices as in a matrix file. Reading it gives
/// the certificate back.
pub fn print(alloc: Global, c: &Certificate) -> Result<Vec<u8>, AllocError>
    ensures text { IfOk result (λ t. t.items ≡ certificate_text c.now) }
    ensures back { IfOk result (λ t. parsed_certificate t.items ≡ Ok c.now) }
{
    c.is_read_back();
    let point = mat_files::print(alloc, c.point())?;
    let bricks = mat_files::print(alloc, c.bricks())?;
    let mut text = Vec::new(alloc);
    text.extend_from_slice(b"nfold-certificate 1\nclaim ")?;
    print_claim(&mut text, c.claim())?;
    text.extend_from_slice(b"\npoint\n")?;
    text.extend_from_slice(&point)?;
    text.extend_from_slice(b"bricks\n")?;
    text.extend_from_slice(&bricks)?;
    print_fold(alloc, &mut text, &c.fold)?;
    text.extend_from_slice(b"end\n")?;
    Ok(text)
}

/// Adds the words of the claim.
fn print_claim(out: &mut Vec<u8>, claim: Claim) -> Result<(), AllocError>
    ensures { OnOk result (out.new.items ≡ out.old.items ++ claim_text claim) }
{
    match claim {
        Claim::Optimal => out.extend_from_slice(b"optimal")?,
        Claim::InfeasibleBrick { brick } => {
            out.extend_from_slice(b"infeasible-brick ")?;
            out.extend_from_slice(Buffer::new().format(brick).as_bytes())?;
        }
        Claim::InfeasibleLink => out.extend_from_slice(b"infeasible-link")?,
    }
    Ok(())
}

/// Adds the parts about the linking rows, where there are any.
fn print_fold(alloc: Global, out: &mut Vec<u8>, fold: &Option<FoldPart>) -> Result<(), AllocError>
    ensures { OnOk result (out.new.items ≡ out.old.items ++ fold_text fold.now) }
{
    match fold {
        None => Ok(()),
        Some(fold) => print_part(alloc, out, fold),
    }
}

/// Adds the parts about the linking rows.
fn print_part(alloc: Global, out: &mut Vec<u8>, fold: &FoldPart) -> Result<(), AllocError>
    ensures { OnOk result (out.new.items ≡ out.old.items ++ fold_text (Some fold.now)) }
{
    let links = mat_files::print(alloc, fold.links())?;
    let sums = mat_files::print(alloc, fold.sums())?;
    out.extend_from_slice(b"links\n")?;
    out.extend_from_slice(&links)?;
    out.extend_from_slice(b"bound ")?;
    out.extend_from_slice(Buffer::new().format(fold.bound()).as_bytes())?;
    out.extend_from_slice(b"\nsums\n")?;
    out.extend_from_slice(&sums)?;
    out.extend_from_slice(b"potentials\n")?;
    print_table(out, fold.potentials())?;
    Ok(())
}

/// Adds a table: its numbers of rows and columns, and then each row on a line.
fn print_table(out: &mut Vec<u8>, table: &Table) -> Result<(), AllocError>
    ensures { OnOk result (out.new.items ≡ out.old.items ++ table_text table.now) }
{
    let mut buffer = Buffer::new();
    out.extend_from_slice(buffer.format(table.rows()).as_bytes())?;
    out.push(b' ')?;
    out.extend_from_slice(buffer.format(table.cols()).as_bytes())?;
    out.push(b'\n')?;
    for row in 0..table.rows() {
        print_cells(out, table.row(row))?;
    }
    Ok(())
}

/// Adds the line of one row.
fn print_cells(out: &mut Vec<u8>, row: &[Option<i128>]) -> Result<(), AllocError>
    ensures { OnOk result (out.new.items ≡ out.old.items ++ cells_text row.now) }
{
    for (i, cell) in row.iter().enumerate() {
        if i > 0 {
            out.push(b' ')?;
        }
        print_cell(out, *cell)?;
    }
    out.push(b'\n')?;
    Ok(())
}

/// Adds an entry of a table: a number, or `none`.
fn print_cell(out: &mut Vec<u8>, cell: Option<i128>) -> Result<(), AllocError>
    ensures { OnOk result (out.new.items ≡ out.old.items ++ cell_text cell) }
{
    match cell {
        None => out.extend_from_slice(b"none")?,
        Some(value) => out.extend_from_slice(Buffer::new().format(value).as_bytes())?,
    }
    Ok(())
}
