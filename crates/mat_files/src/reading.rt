//! Reading matrix files.

ghost use Rattle.std.specs.Prelude.{◌≡◌, ◌≤◌, ◌^◌, Ok, MatchResult};
ghost use Rattle.mat_files.specs.Reading.{only, IsTokenFault};
ghost use Rattle.mat_files.specs.MatrixText.{next_shaped, parsed_matrix, IsMatFault};

use crate::fault::{MatFault, TokenFault};
use crate::matrix::Matrix;
use crate::shape::Shape;
use crate::tokens::Scanner;
use std::alloc::Global;

/// The matrix that a file holds: its number of rows, its number of columns, and its entries row by row, as
/// tokens with white space between them.
///
/// The numbers of rows and columns and the entries have to be within the shape, and nothing may follow the
/// last entry. Otherwise the answer is the fault of the first token that is refused, in the order of the
/// file, or `Memory`. No memory is asked for before there are entries to keep in it.
pub fn parse(alloc: Global, bytes: &[u8], shape: &Shape) -> Result<Matrix, MatFault>
    requires { shape.now.largest ≤ 2 ^ 62 }
    ensures { MatchResult result (λ m. parsed_matrix shape.now bytes.now ≡ Ok m) (IsMatFault
        (parsed_matrix shape.now bytes.now)) }
{
    Ok(shaped(alloc, bytes, shape)?)
}

/// The matrix that is all that the bytes spell.
fn shaped(alloc: Global, bytes: &[u8], shape: &Shape) -> Result<Matrix, TokenFault>
    requires { shape.now.largest ≤ 2 ^ 62 }
    ensures { MatchResult result (λ m. only (next_shaped shape.now) bytes.now ≡ Ok m)
        (IsTokenFault (only (next_shaped shape.now) bytes.now)) }
{
    let mut tokens = Scanner::new(bytes);
    let rows = tokens.size(shape.rows_from, shape.rows_to)?;
    let cols = tokens.size(shape.cols_from, shape.cols_to)?;
    let matrix = tokens.matrix(alloc, rows, cols, shape.largest)?;
    tokens.end()?;
    Ok(matrix)
}

#[cfg(test)]
mod tests {
    use super::*;

    const SHAPE: Shape = Shape {
        rows_from: 0,
        rows_to: 16,
        cols_from: 2,
        cols_to: 32,
        largest: 5,
    };

    #[test]
    fn reads_row_by_row(rt: HostRuntime) {
        let matrix = parse(rt.alloc(), b"2 2\n1 -5\t+03 -0", &SHAPE).expect(&rt, "a matrix file");
        assert_eq!(rt; (matrix.rows(), matrix.cols()), (2, 2));
        assert_eq!(rt; matrix.entries(), [1, -5, 3, 0].as_slice());
    }

    #[test]
    fn names_the_first_fault(rt: HostRuntime) {
        let cases = [
            (b"2 2\n0 *".as_slice(), MatFault::NoBound { at: 6 }),
            (b"1 2\n".as_slice(), MatFault::EndsEarly { at: 4 }),
            (b"1 2\n1 1 5".as_slice(), MatFault::Extra { at: 8 }),
            (b"".as_slice(), MatFault::EndsEarly { at: 0 }),
        ];
        for (bytes, fault) in cases {
            assert_eq!(rt; parse(rt.alloc(), bytes, &SHAPE).err(), Some(fault));
        }
    }
}
