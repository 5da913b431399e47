// Definitions of functions.
use crate::{TermId, Word};
use edge_io::List;

/// What a definition stands for: the term, or the base and the step of a counting definition.
#[derive(Clone, Copy, Debug, PartialEq, Eq)]
pub enum Body {
    Plain(TermId),
    Counting(TermId, TermId),
}

/// A function of a deck's own.
#[derive(Debug, Drop, PartialEq, Eq)]
pub struct Definition {
    pub name: Word,
    pub params: List<Word>,
    pub body: Body,
}

/// What a use of a definition must agree with: its name, and the number of its parameters.
#[derive(Clone, Copy, Debug, PartialEq, Eq)]
pub struct Heading {
    pub name: Word,
    pub count: usize,
}
