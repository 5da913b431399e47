// Expressions.
use crate::{BinOp, Name, RelOp};
use edge_io::{Boxed, List};

/// An expression, as it is written: brackets and signs are kept.
#[derive(Debug, Drop, PartialEq, Eq, Hash)]
pub enum Expr {
    /// An unsigned constant.
    Const(u64),
    /// `.TRUE.` or `.FALSE.`
    Truth(bool),
    /// A bare name: a scalar, or a whole array that is passed on.
    Var(Name),
    /// A name and what stands in brackets behind it: an element of an array, or a function with its
    /// arguments.
    Apply(Name, List<Expr>),
    /// An expression in brackets.
    Paren(Boxed<Expr>),
    /// The sign `+`.
    Pos(Boxed<Expr>),
    /// The sign `-`.
    Neg(Boxed<Expr>),
    /// `**` and its exponent, 1 to 9.
    Power(Boxed<Expr>, u8),
    /// A sum, difference, product or quotient.
    Bin(BinOp, Boxed<Expr>, Boxed<Expr>),
    /// A relation between two integers.
    Rel(RelOp, Boxed<Expr>, Boxed<Expr>),
    /// `.NOT.`
    Not(Boxed<Expr>),
    /// `.AND.`
    And(Boxed<Expr>, Boxed<Expr>),
    /// `.OR.`
    Or(Boxed<Expr>, Boxed<Expr>),
}
