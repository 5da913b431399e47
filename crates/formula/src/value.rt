// What terms are worth.
use edge_io::List;

/// A cell of storage, or of a list of cells.
#[derive(Clone, Copy, Debug, PartialEq, Eq)]
pub enum Cell {
    Int(i128),
    Logical(bool),
    Undefined,
}

/// A value of a term: that of a cell, or a list of cells.
#[derive(Debug, Drop, PartialEq, Eq)]
pub enum Value {
    Int(i128),
    Logical(bool),
    Undefined,
    Cells(List<Cell>),
}
