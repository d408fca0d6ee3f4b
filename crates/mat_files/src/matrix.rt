//! A matrix of whole numbers, which contracts see by its rows.

ghost use Rattle.std.specs.Prelude.{◌≡◌, ◌≤◌, ◌-◌, ◌*◌, Some, length, slice_get, flat_map, IfSome, All};
ghost use Rattle.lattice_theory.specs.Matrices.{rows_of};

use std::marker::Model;

/// A matrix. With no row it still has a number of columns. Rows and columns are numbered from 1.
#[derive(Debug, Drop)]
pub struct Matrix {
    rows: u32,
    cols: u32,
    entries: Vec<i64>,
}

impl Model for Matrix {
    ghost use Rattle.std.specs.Prelude.{◌≡◌, ◌*◌, length};
    ghost use Rattle.lattice_theory.specs.Matrices as matrices;

    ghost Value = { matrices.Matrix };

    ghost view = { λ m. record { cols = m.cols; rows = matrices.rows_of m.rows m.cols m.entries.items } };

    ghost invariant = { λ m. length m.entries.items ≡ m.rows * m.cols };
}

impl Matrix {
    /// The matrix of so many rows and columns whose entries stand row by row. Nothing is allocated.
    pub fn new(rows: u32, cols: u32, entries: Vec<i64>) -> Matrix
        requires { length entries.items ≡ rows * cols }
        ensures { result ≡ record { cols = cols; rows = rows_of rows cols entries.items } }
    {
        Matrix {
            rows,
            cols,
            entries,
        }
    }

    /// How many rows there are.
    #[tactic(auto, using(lattice_laws::proofs::VectorLists::length_rows_of))]
    pub fn rows(&self) -> u32
        ensures { result ≡ length self.now.rows }
    {
        self.rows
    }

    /// How many columns there are: each row has so many entries.
    pub fn cols(&self) -> u32
        ensures cols { result ≡ self.now.cols }
        ensures each_row { All (λ row. length row ≡ result) self.now.rows }
    {
        self.cols
    }

    /// The entries of one row.
    #[tactic(auto, using(lattice_laws::proofs::VectorLists::length_rows_of))]
    pub fn row(&self, row: u32) -> &[i64]
        requires from { 1 ≤ row }
        requires to { row ≤ length self.now.rows }
        ensures entries { slice_get self.now.rows (row - 1) ≡ Some result.now }
        ensures width { length result.now ≡ self.now.cols }
    {
        let cols = self.cols as usize;
        let at = (row as usize - 1) * cols;
        &self.entries[at..at + cols]
    }

    /// One entry.
    pub fn entry(&self, row: u32, col: u32) -> i64
        requires from { 1 ≤ row }
        requires to { row ≤ length self.now.rows }
        requires left { 1 ≤ col }
        requires right { col ≤ self.now.cols }
        ensures { IfSome (slice_get self.now.rows (row - 1)) (λ entries. slice_get entries (col - 1) ≡ Some result) }
    {
        self.row(row)[col as usize - 1]
    }

    /// Gives all entries back, row by row.
    pub fn into_entries(self) -> Vec<i64>
        ensures { result.items ≡ flat_map (λ row. row) self.rows }
    {
        self.entries
    }

    /// All entries, row by row.
    pub fn entries(&self) -> &[i64]
        ensures { result.now ≡ flat_map (λ row. row) self.now.rows }
    {
        self.entries.as_slice()
    }
}

#[cfg(test)]
mod tests {
    use super::*;
    use crate::fault::{FaultKind, MatFault, TokenFault};
    use crate::shape::Shape;
    use std::test::Fail;

    fn crosses_threads<T: Send + Sync + Drop>(_value: T) {}

    #[test]
    fn matrices_and_faults_cross_threads(rt: HostRuntime) {
        crosses_threads(Matrix::new(0, 0, Vec::new(rt.alloc())));
        crosses_threads(TokenFault::new(0, FaultKind::Word));
        crosses_threads(MatFault::Memory);
        crosses_threads(Shape {
            rows_from: 0,
            rows_to: 1,
            cols_from: 0,
            cols_to: 1,
            largest: 1,
        });
    }

    #[test]
    fn rows_and_columns_count_from_1(rt: HostRuntime) -> Result<(), Fail> {
        let matrix = Matrix::new(2, 3, vec![in rt.alloc(); 1, 2, 3, 4, 5, 6]?);
        assert_eq!(rt; (matrix.rows(), matrix.cols()), (2, 3));
        assert_eq!(rt; matrix.row(2), [4, 5, 6].as_slice());
        assert_eq!(rt; matrix.entry(1, 3), 3);
        assert_eq!(rt;
            matrix.into_entries().as_slice(),
            [1, 2, 3, 4, 5, 6].as_slice()
        );
        Ok(())
    }
}
