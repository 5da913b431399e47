// Statements.
use crate::{Expr, Name, Sort};
use edge_io::{Boxed, List};

/// A dimension of an array.
#[derive(Clone, Copy, Debug, PartialEq, Eq, Hash)]
pub enum Dim {
    /// A constant.
    Fixed(u64),
    /// An adjustable dimension: the value of a dummy at the entry.
    Named(Name),
}

/// A name in a declaration, with its dimensions; none where it stands without brackets.
#[derive(Debug, Drop, PartialEq, Eq, Hash)]
pub struct Item {
    pub name: Name,
    pub dims: List<Dim>,
}

/// What names the block of a group of a COMMON statement. The first two name blank COMMON.
#[derive(Clone, Copy, Debug, PartialEq, Eq, Hash)]
pub enum BlockName {
    /// Nothing, as the first group may have it.
    Bare,
    /// `//`
    Slashes,
    /// A name between slashes.
    Named(Name),
}

/// A block and the items that a COMMON statement puts into it.
#[derive(Debug, Drop, PartialEq, Eq, Hash)]
pub struct Group {
    pub block: BlockName,
    pub items: List<Item>,
}

/// A parameter of a DO.
#[derive(Clone, Copy, Debug, PartialEq, Eq, Hash)]
pub enum Param {
    /// A constant.
    Fixed(u64),
    /// The value of an integer scalar.
    Named(Name),
}

/// A statement without its label. Labels are numbers from 1.
#[derive(Debug, Drop, PartialEq, Eq, Hash)]
pub enum Stmt {
    /// The head of a SUBROUTINE: its name and its dummies.
    Subroutine(Name, List<Name>),
    /// The head of a FUNCTION: its type, where one is written, its name and its dummies.
    Function(Option<Sort>, Name, List<Name>),
    /// `INTEGER` or `LOGICAL` and items.
    Declare(Sort, List<Item>),
    /// `DIMENSION` and items.
    Dimension(List<Item>),
    /// `COMMON` and groups.
    Common(List<Group>),
    /// The left side, a name or an element, and the right side.
    Assign(Expr, Expr),
    /// `GO TO` a label.
    GoTo(u32),
    /// `GO TO` one of the labels, the one that the name counts from 1.
    Computed(List<u32>, Name),
    /// `IF` and the labels for a negative, a zero and a positive value.
    ArithIf(Expr, u32, u32, u32),
    /// `IF` and the statement that is performed where the condition is true.
    LogicalIf(Expr, Boxed<Stmt>),
    /// The label of the last statement, the variable, the first and the last value, and the step.
    Do(u32, Name, Param, Param, Option<Param>),
    /// `CONTINUE`
    Continue,
    /// The called name and its actuals.
    Call(Name, List<Expr>),
    /// `RETURN`
    Return,
    /// `END`
    End,
    /// `IF` .. `THEN`
    BlockIf(Expr),
    /// `ELSE IF` .. `THEN`
    ElseIf(Expr),
    /// `ELSE`
    Else,
    /// `END IF`
    EndIf,
}
