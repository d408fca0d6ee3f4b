//! What a matrix file may hold.

/// The numbers of rows and columns that a matrix may have, both ends included, and the largest absolute
/// value of an entry.
#[derive(Clone, Copy, Debug, PartialEq, Eq, Drop)]
pub struct Shape {
    pub rows_from: u32,
    pub rows_to: u32,
    pub cols_from: u32,
    pub cols_to: u32,
    pub largest: u64,
}
