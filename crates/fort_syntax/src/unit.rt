// Units: subprograms whose declarations are resolved.
use crate::{Dim, Group, Name, Sort, Stmt};
use edge_io::List;

/// An executable statement: its card, its label, 0 where it has none, and the statement.
#[derive(Debug, Drop, PartialEq, Eq, Hash)]
pub struct Line {
    pub card: u32,
    pub label: u32,
    pub stmt: Stmt,
}

/// What a data name is in its unit.
#[derive(Clone, Copy, Debug, PartialEq, Eq, Hash)]
pub enum Role {
    /// A dummy argument.
    Dummy,
    /// An entity of a COMMON block.
    InCommon,
    /// The name of the FUNCTION itself, which holds its value.
    OwnValue,
    /// Any other.
    Local,
}

/// A scalar or an array of a unit; a scalar has no dimensions.
#[derive(Debug, Drop, PartialEq, Eq, Hash)]
pub struct DataName {
    pub name: Name,
    pub sort: Sort,
    pub dims: List<Dim>,
    pub role: Role,
}

/// A function that a unit references, with the type that the unit gives it.
#[derive(Clone, Copy, Debug, PartialEq, Eq, Hash)]
pub struct FunctionName {
    pub name: Name,
    pub sort: Sort,
}

/// A subprogram.
#[derive(Debug, Drop, PartialEq, Eq, Hash)]
pub struct Unit {
    pub name: Name,
    /// The type of a FUNCTION, and None for a SUBROUTINE.
    pub sort: Option<Sort>,
    /// The card of the head.
    pub head: u32,
    /// The dummies in order.
    pub dummies: List<Name>,
    /// The data names in order of first appearance.
    pub names: List<DataName>,
    /// The referenced functions that are not intrinsic, in order of first appearance.
    pub functions: List<FunctionName>,
    /// One group for each COMMON block, in order of first appearance; blank COMMON as `Slashes`.
    pub blocks: List<Group>,
    /// The executable statements.
    pub lines: List<Line>,
    /// The card of END.
    pub end: u32,
}
