//! A table whose entries may be absent, which contracts see by its rows.

ghost use Rattle.std.specs.Prelude.{◌≡◌, ◌<◌, ◌*◌, Some, length, slice_get, IfSome, All};
ghost use Rattle.run_theory.specs.Certificates.{table_of};

use std::marker::Model;

/// A table: an entry that is none stands for infinity. Rows and columns are numbered from 0, as the layers of a table
/// of potentials are.
#[derive(Debug, Drop)]
pub struct Table {
    rows: u32,
    cols: u32,
    cells: Vec<Option<i128>>,
}

impl Model for Table {
    ghost use Rattle.std.specs.Prelude.{◌≡◌, ◌*◌, length};
    ghost use Rattle.run_theory.specs.Certificates as certificates;

    ghost Value = { certificates.Table };

    ghost view = { λ t. certificates.table_of t.rows t.cols t.cells.items };

    ghost invariant = { λ t. length t.cells.items ≡ t.rows * t.cols };
}

impl Table {
    /// The table of so many rows and columns whose entries stand row by row. Nothing is allocated.
    pub fn new(rows: u32, cols: u32, cells: Vec<Option<i128>>) -> Table
        requires { length cells.items ≡ rows * cols }
        ensures { result ≡ table_of rows cols cells.items }
    {
        Table { rows, cols, cells }
    }

    /// How many rows there are.
    #[tactic(auto, using(crate::proofs::TableLaws::length_table_rows))]
    pub fn rows(&self) -> u32
        ensures { result ≡ length self.now.rows }
    {
        self.rows
    }

    /// How many columns there are: each row has so many entries.
    pub fn cols(&self) -> u32
        ensures cols { result ≡ self.now.cols }
        ensures each_row { All (λ row. length row ≡ result) self.now.rows }
    {
        self.cols
    }

    /// The entries of one row.
    #[tactic(auto, using(crate::proofs::TableLaws::length_table_rows))]
    pub fn row(&self, row: u32) -> &[Option<i128>]
        requires { row < length self.now.rows }
        ensures cells { slice_get self.now.rows row ≡ Some result.now }
        ensures width { length result.now ≡ self.now.cols }
    {
        let cols = self.cols as usize;
        let at = row as usize * cols;
        &self.cells[at..at + cols]
    }

    /// One entry.
    pub fn get(&self, row: u32, col: u32) -> Option<i128>
        requires row { row < length self.now.rows }
        requires col { col < self.now.cols }
        ensures { IfSome (slice_get self.now.rows row) (λ cells. slice_get cells col ≡ Some result) }
    {
        self.row(row)[col as usize]
    }
}
