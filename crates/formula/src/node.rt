// The nodes of terms.
ghost use Rattle.std.specs.Prelude.{◌≡◌};

use crate::{Args, Func, Word};

/// The place of a node in its pool, counted from 0. It stands for the term below that node.
#[derive(Clone, Copy, Debug, PartialEq, Eq, Hash)]
pub struct TermId {
    pub place: u32,
}

impl TermId {
    /// The place, as an index.
    pub fn index(self) -> usize
        ensures { result ≡ self.place }
    {
        self.place as usize
    }
}

/// A node: a number, a truth value, a symbol, the entry value of a symbol, or a function with its
/// arguments.
#[derive(Debug, Drop, PartialEq, Eq, Hash)]
pub enum Node {
    Num(i128),
    Truth(bool),
    Symbol(Word),
    Old(Word),
    Apply(Func, Args),
}
