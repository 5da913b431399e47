// A cell in sixteen bytes.
ghost use Rattle.std.specs.Prelude.{◌≡◌};
ghost use Rattle.formula.specs.declared.value.Cell.TheVariants as cell;
ghost use Rattle.fort_model.specs.Cells.{holds, is_defined, num, same};

use std::alloc::AllocError;
use std::marker::Model;

/// What a cell holds.
#[derive(Clone, Copy, Debug)]
enum Content {
    Int(i64),
    Logical(bool),
    Undefined,
}

/// A cell of storage, which contracts see as such. Its number, where it holds one, is an `i64`.
#[derive(Debug)]
pub struct Held {
    content: Content,
}

impl Model for Held {
    ghost use Rattle.formula.specs.declared.value.Cell.{Cell};
    ghost use Rattle.run_held.specs.Held.{cell_of, held_of, held_of_cell};

    ghost Value = { Cell };

    ghost view = { λ h. cell_of h.content };

    ghost inverse = { held_of };

    ghost inverse_ok = { held_of_cell };
}

impl Clone for Held {
    ghost is_clone = { λ a b. b ≡ a };

    fn clone(&self) -> Result<Held, AllocError> {
        Ok(*self)
    }
}

impl Copy for Held {}

impl Held {
    /// A cell that holds nothing.
    pub fn undefined() -> Held
        ensures { result ≡ cell.Undefined }
    {
        Held {
            content: Content::Undefined,
        }
    }

    /// A cell with a truth value.
    pub fn logical(truth: bool) -> Held
        ensures { result ≡ cell.Logical truth }
    {
        Held {
            content: Content::Logical(truth),
        }
    }

    /// A cell with a number.
    pub fn int(number: i64) -> Held
        ensures { result ≡ cell.Int number }
    {
        Held {
            content: Content::Int(number),
        }
    }

    /// The number that it holds; 0 where it holds none.
    pub fn num(&self) -> i64
        ensures { result ≡ num self.now }
    {
        match self.content {
            Content::Int(number) => number,
            _ => 0,
        }
    }

    /// Whether it counts as true: all but `.FALSE.`
    pub fn holds(&self) -> bool
        ensures { result ≡ holds self.now }
    {
        match self.content {
            Content::Logical(truth) => truth,
            _ => true,
        }
    }

    /// Whether it holds a value.
    pub fn is_defined(&self) -> bool
        ensures { result ≡ is_defined self.now }
    {
        match self.content {
            Content::Undefined => false,
            _ => true,
        }
    }

    /// Whether both hold the same.
    pub fn is_same(&self, other: &Held) -> bool
        ensures { result ≡ same self.now other.now }
    {
        match (self.content, other.content) {
            (Content::Int(a), Content::Int(b)) => a == b,
            (Content::Logical(a), Content::Logical(b)) => a == b,
            (Content::Undefined, Content::Undefined) => true,
            _ => false,
        }
    }
}
