// Parts of values as plain data.
use crate::Plain;
use edge_io::NoMemory;
use formula::{Cell, Word};
use std::alloc::Global;

impl Plain for Cell {
    fn copied(&self, _: Global) -> Result<Cell, NoMemory> {
        Ok(*self)
    }

    fn is_same(&self, other: &Cell) -> bool {
        *self == *other
    }
}

impl Plain for Word {
    fn copied(&self, _: Global) -> Result<Word, NoMemory> {
        Ok(*self)
    }

    fn is_same(&self, other: &Word) -> bool {
        *self == *other
    }
}
