// What a statement is in its unit.
ghost use Rattle.std.specs.Prelude.{◌≡◌};
ghost use Rattle.fort_syntax.specs.Units.{class_of};

use crate::Stmt;

/// A head, a declaration, an executable statement, or END.
#[derive(Clone, Copy, Debug, PartialEq, Eq, Hash)]
pub enum Class {
    /// SUBROUTINE or FUNCTION.
    Heading,
    /// A type, DIMENSION or COMMON.
    Declaring,
    /// Any other.
    Performing,
    /// END.
    Ending,
}

impl Stmt {
    /// What the statement is in its unit.
    pub fn class(&self) -> Class
        ensures { result ≡ class_of self.now }
    {
        match self {
            Stmt::Subroutine(..) | Stmt::Function(..) => Class::Heading,
            Stmt::Declare(..) | Stmt::Dimension(..) | Stmt::Common(..) => Class::Declaring,
            Stmt::End => Class::Ending,
            _ => Class::Performing,
        }
    }
}
