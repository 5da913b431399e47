// Where a note stands.
ghost use Rattle.std.specs.Prelude.{◌≡◌, ◌≤◌, ◌<◌, ◌-◌, ◌^◌};
ghost use Rattle.deck_entries.specs.Readings.{top, entered, counted, passed, line_outside, placed_at};

use edge_io::List;
use fort_syntax::{Class, Placed};

/// A place behind some statements: whether a unit is open there, the number of the last unit, and how many of
/// its executable statements stand before the place.
#[derive(Drop)]
pub struct Spot {
    /// Whether a unit is open.
    pub inside: bool,
    /// The number of the last unit, from 1; 0 before the first.
    pub unit: u32,
    /// How many executable statements of that unit stand before the place.
    pub line: u32,
}

fn counted(class: Class, line: u32) -> u32
    requires { line < 2 ^ 32 - 1 }
    ensures { result ≡ counted class line }
{
    if class == Class::Performing {
        line + 1
    } else {
        line
    }
}

fn line_outside(unit: u32) -> u32
    ensures { result ≡ line_outside unit }
{
    if unit == 0 { 0 } else { 1 }
}

impl Spot {
    /// Before the first statement.
    pub(crate) fn top() -> Spot
        ensures { result ≡ top }
    {
        Spot {
            inside: false,
            unit: 0,
            line: 0,
        }
    }

    fn enter(&mut self)
        requires { self.old.unit < 2 ^ 32 - 1 }
        ensures after { self.new ≡ entered self.old }
        ensures line { self.new.line ≤ self.old.line }
    {
        if self.inside {
            return;
        }
        self.unit += 1;
        self.line = 0;
    }

    /// Goes behind one more statement.
    pub(crate) fn pass(&mut self, class: Class)
        requires unit { self.old.unit < 2 ^ 32 - 1 }
        requires line { self.old.line < 2 ^ 32 - 1 }
        ensures { self.new ≡ passed class self.old }
    {
        self.enter();
        self.line = counted(class, self.line);
        self.inside = class != Class::Ending;
    }

    /// A note at this place.
    pub(crate) fn placed(&self, card: u32, text: List<u8>) -> Placed
        ensures { result ≡ placed_at self.now card text }
    {
        if self.inside {
            Placed {
                card,
                text,
                unit: self.unit,
                line: self.line,
            }
        } else {
            Placed {
                card,
                text,
                unit: 0,
                line: line_outside(self.unit),
            }
        }
    }
}
