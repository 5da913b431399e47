// The dialect, the types of values, and the operators.

/// Which FORTRAN a deck is read as.
#[derive(Clone, Copy, Debug, PartialEq, Eq, Hash)]
pub enum Dialect {
    /// What FORTRAN 66 and 77 have in common: the words without `77`.
    Common,
    /// The second word `77`: block IF, subscripts of any integer form, seven dimensions, and a DO
    /// that may be left before its first round.
    SeventySeven,
}

/// The type of a name or of an expression.
#[derive(Clone, Copy, Debug, PartialEq, Eq, Hash)]
pub enum Sort {
    /// A whole number.
    Integer,
    /// A truth value.
    Logical,
}

/// An operator between integers that gives an integer.
#[derive(Clone, Copy, Debug, PartialEq, Eq, Hash)]
pub enum BinOp {
    /// `+`
    Add,
    /// `-`
    Sub,
    /// `*`
    Mul,
    /// `/`, whose quotient is cut towards zero.
    Div,
}

/// A relation between integers.
#[derive(Clone, Copy, Debug, PartialEq, Eq, Hash)]
pub enum RelOp {
    /// `.LT.`
    Lt,
    /// `.LE.`
    Le,
    /// `.EQ.`
    Eq,
    /// `.NE.`
    Ne,
    /// `.GE.`
    Ge,
    /// `.GT.`
    Gt,
}
