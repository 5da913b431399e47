// Operators between two parts.
use fort_syntax::{BinOp, RelOp};

/// An operator between two parts.
#[derive(Clone, Copy, Debug, PartialEq, Eq)]
pub enum Joint {
    /// `.OR.`
    Or,
    /// `.AND.`
    And,
    /// A relation.
    Rel(RelOp),
    /// `+`, `-`, `*` or `/`.
    Bin(BinOp),
}
