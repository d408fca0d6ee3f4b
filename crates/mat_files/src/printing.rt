//! Writing matrix files.

ghost use Rattle.std.specs.Prelude.{◌≡◌, ◌++◌, All, Ok, IfOk, OnOk, FitsSigned};
ghost use Rattle.std.specs.Int.{w64};
ghost use Rattle.mat_files.specs.declared.shape.Shape.{Shape};
ghost use Rattle.mat_files.specs.MatrixText.{row_text, matrix_text, parsed_matrix, Admits};

use crate::matrix::Matrix;
use itoa::Buffer;
use std::alloc::{AllocError, Global};

/// The text of a matrix file that holds the matrix: its numbers of rows and columns on a line, and then each
/// row on a line, with one space between numbers. Reading it gives the matrix back, within each shape that
/// admits the matrix.
pub fn print(alloc: Global, m: &Matrix) -> Result<Vec<u8>, AllocError>
    ensures text { IfOk result (λ t. t.items ≡ matrix_text m.now) }
    ensures back { IfOk result (λ t. (s : Shape) → Admits s m.now → parsed_matrix s t.items ≡ Ok m.now) }
{
    let mut text = Vec::new(alloc);
    let mut buffer = Buffer::new();
    text.extend_from_slice(buffer.format(m.rows()).as_bytes())?;
    text.push(b' ')?;
    text.extend_from_slice(buffer.format(m.cols()).as_bytes())?;
    text.push(b'\n')?;
    for row in 1..=m.rows() {
        print_row(&mut text, m.row(row))?;
    }
    Ok(text)
}

/// Adds the line of one row.
fn print_row(out: &mut Vec<u8>, row: &[i64]) -> Result<(), AllocError>
    ensures text { OnOk result (out.new.items ≡ out.old.items ++ row_text row.now) }
    ensures narrow { OnOk result (All (λ a. FitsSigned w64 a) row.now) }
{
    let mut buffer = Buffer::new();
    for (i, entry) in row.iter().enumerate() {
        if i > 0 {
            out.push(b' ')?;
        }
        out.extend_from_slice(buffer.format(*entry).as_bytes())?;
    }
    out.push(b'\n')?;
    Ok(())
}

#[cfg(test)]
mod tests {
    use super::*;
    use std::test::Fail;

    #[test]
    fn prints_a_row_on_a_line(rt: HostRuntime) -> Result<(), Fail> {
        let entries = vec![in rt.alloc(); 1, -20, 0, 7, 8, 9]?;
        let text = print(rt.alloc(), &Matrix::new(2, 3, entries))?;
        assert_eq!(rt; text.as_slice(), b"2 3\n1 -20 0\n7 8 9\n".as_slice());
        Ok(())
    }
}
