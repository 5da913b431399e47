// Names in statements.
ghost use Rattle.std.specs.Prelude.{◌≡◌};
ghost use Rattle.fort_syntax.specs.Uses.{occurrence};
ghost use Rattle.fort_syntax.specs.Units.{is_called};
ghost use Rattle.stmt_names.specs.Usings.{use_by};

use fort_syntax::Name;
use std::marker::Model;

/// How a name stands in an executable statement.
#[derive(Clone, Copy, Debug, PartialEq, Eq, Hash)]
pub enum How {
    /// As a value that is read.
    Read,
    /// As the left side of an assignment.
    Assigned,
    /// As the left side of an assignment, with so many subscripts.
    Element(usize),
    /// As the variable of a DO.
    Counted,
    /// Before so many expressions in brackets.
    Applied(usize),
    /// Bare, in the brackets behind another name.
    Argument(Name),
    /// Bare, as an actual of a CALL.
    Actual,
    /// As what a CALL calls.
    Called,
}

/// A name in a statement, and how it stands there.
#[derive(Drop)]
pub struct Seen {
    name: Name,
    how: How,
}

impl Model for Seen {
    ghost use Rattle.fort_syntax.specs.Uses.{Occurrence};
    ghost use Rattle.stmt_names.specs.Usings.{use_by};

    ghost Value = { Occurrence };

    ghost view = { λ s. record { name = s.name; «use» = use_by s.how } };
}

impl Seen {
    /// A name, and how it stands.
    pub fn new(name: Name, how: How) -> Seen
        ensures { result ≡ occurrence name (use_by how) }
    {
        Seen { name, how }
    }

    /// The name.
    pub fn name(&self) -> Name
        ensures { result ≡ self.now.name }
    {
        self.name
    }

    /// How the name stands.
    pub fn how(&self) -> How
        ensures { use_by result ≡ self.now.«use» }
    {
        self.how
    }

    /// Whether it is what a CALL calls.
    pub fn is_called(&self) -> bool
        ensures { result ≡ is_called self.now.«use» }
    {
        matches!(self.how(), How::Called)
    }
}
