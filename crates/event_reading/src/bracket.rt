// A bracket of a term whose text is compared.
use formula::TermId;

/// An open bracket: the node of its term, and how many of its arguments were compared.
#[derive(Clone, Copy, Debug)]
pub struct Bracket {
    pub id: TermId,
    pub at: usize,
}
