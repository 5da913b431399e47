// Where notes may stand.
ghost use Rattle.std.specs.Prelude.{◌≡◌, option_copied};
ghost use Rattle.fort_notes.specs.Judging.{last_end, unit_of_number, is_before_units, is_behind_units, is_at_head, has_line, is_alone_at_line};
ghost use Rattle.note_places.specs.Places.{AreMarksOf};

use fort_syntax::{Deck, Placed, Unit};
use note_names::Roles;
use note_places::AssertPlaces;
use std::alloc::Global;

/// What the judgement of notes looks up: the deck, the card of its last END, the places of its
/// ASSERTs, and the roles of the names of the unit that the notes stand in.
pub struct Sites<'a> {
    pub alloc: Global,
    pub deck: &'a Deck,
    pub last_end: u32,
    pub asserts: AssertPlaces,
    pub roles: Roles,
}

// Before all units.
pub(crate) fn is_before_units(note: &Placed) -> bool
    ensures { result ≡ is_before_units note.now }
{
    note.unit == 0 && note.line == 0
}

// In a unit, before its first executable statement.
pub(crate) fn is_at_head(note: &Placed) -> bool
    ensures { result ≡ is_at_head note.now }
{
    0 < note.unit && note.line == 0
}

// The unit that a note stands in.
fn unit_of<'a>(deck: &'a Deck, note: &Placed) -> Option<&'a Unit>
    ensures { option_copied result ≡ unit_of_number deck.now.units note.now.unit }
{
    if note.unit == 0 {
        return None;
    }
    deck.units.as_slice().get(note.unit as usize - 1)
}

// Before an executable statement.
fn has_line(deck: &Deck, note: &Placed) -> bool
    ensures { result ≡ has_line note.now.line (unit_of_number deck.now.units note.now.unit) }
{
    match unit_of(deck, note) {
        Some(unit) => (note.line as usize) < unit.lines.as_slice().len(),
        None => false,
    }
}

// Behind the last END.
pub(crate) fn is_behind_units(deck: &Deck, last: u32, note: &Placed) -> bool
    requires { last ≡ last_end 0 deck.now.units }
    ensures { result ≡ is_behind_units deck.now note.now }
{
    note.unit == 0 && note.line == 1 && last < note.card
}

// Before an executable statement, with no other ASSERT.
pub(crate) fn is_alone_at_line(deck: &Deck, asserts: &AssertPlaces, note: &Placed) -> bool
    requires { AreMarksOf deck.now.notes asserts.now }
    ensures { result ≡ is_alone_at_line deck.now note.now }
{
    has_line(deck, note) && asserts.is_alone(deck.notes.as_slice(), note)
}
