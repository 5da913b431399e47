// The places of ASSERTs.
ghost use Rattle.std.specs.Prelude.{◌≡◌, ◌&&◌, ◌+◌, ◌*◌, ◌<◌, ℕ, [], not, cond, None, Some, nat_eq, ◌==◌, if◌then◌else◌, IfOk, OnOk};
ghost use Rattle.std.specs.List.{list_any};
ghost use Rattle.fort_notes.specs.Judging.{begins_with, is_beside};
ghost use Rattle.fort_notes.specs.Judging as judging;
ghost use Rattle.note_places.specs.Places.{more_marks, has_other, is_at, key, told, marks_from, AreMarksOf};

use crate::first_words::begins_with_assert;
use edge_io::{Keys, NoMemory};
use fort_syntax::Placed;
use indexmap::IndexMap;
use std::alloc::Global;
use std::marker::Model;

/// Where ASSERTs stand: of each place the card of the first, and whether one of the others has
/// another card. Contracts see the list of the numbers of places with these.
#[derive(Drop)]
pub struct AssertPlaces {
    map: IndexMap<u64, (u32, bool), Keys>,
}

impl Model for AssertPlaces {
    ghost use Rattle.std.specs.Prelude.{List, ℕ, Bool};

    ghost Value = { List (ℕ × (ℕ × Bool)) };

    ghost view = { λ t. t.map.entries };
}

// The number of a place: of a unit and of one of its statements.
fn key(unit: u32, line: u32) -> u64
    ensures { result ≡ key unit line }
{
    unit as u64 * 4_294_967_296 + line as u64
}

// What is known of a place where one more ASSERT stands.
fn more_marks(known: Option<(u32, bool)>, card: u32) -> (u32, bool)
    ensures { result ≡ more_marks known card }
{
    match known {
        Some((first, more)) => (first, more || first != card),
        None => (card, false),
    }
}

// Whether an ASSERT of another card stands at a place.
fn has_other(card: u32, known: Option<(u32, bool)>) -> bool
    ensures { result ≡ has_other card known }
{
    match known {
        Some((first, more)) => card != first || more,
        None => false,
    }
}

impl AssertPlaces {
    fn empty(alloc: Global, keys: Keys) -> AssertPlaces
        ensures { result ≡ [] }
    {
        AssertPlaces {
            map: IndexMap::with_hasher(alloc, keys),
        }
    }

    fn put(&mut self, place: u64, marks: (u32, bool)) -> Result<(), NoMemory>
        ensures { OnOk result ((k : ℕ) → told self.new k ≡ cond (nat_eq place k) (Some marks)
            (told self.old k)) }
    {
        match self.map.insert(place, marks) {
            Ok(_) => Ok(()),
            Err(_) => Err(NoMemory),
        }
    }

    // What is known of a place.
    fn marks(&self, unit: u32, line: u32) -> Option<(u32, bool)>
        ensures { result ≡ told self.now (key unit line) }
    {
        self.map.get(&key(unit, line)).copied()
    }

    // An ASSERT more at a place.
    fn add_at(&mut self, unit: u32, line: u32, card: u32) -> Result<(), NoMemory>
        ensures { OnOk result ((u l : ℕ) → l < 4294967296 → told self.new (key u l)
            ≡ (if (unit == u) && (line == l) then Some (more_marks (told self.old (key u l)) card)
            else told self.old (key u l))) }
    {
        let place = key(unit, line);
        let known = self.marks(unit, line);
        let marks = more_marks(known, card);
        self.put(place, marks)?;
        Ok(())
    }

    // A note more; it counts where it is an ASSERT.
    fn add(&mut self, note: &Placed) -> Result<(), NoMemory>
        ensures { OnOk result ((u l : ℕ) → l < 4294967296 → told self.new (key u l)
            ≡ (if begins_with judging.Assert note.now && is_at u l note.now then Some
            (more_marks (told self.old (key u l)) note.now.card) else told self.old (key u l))) }
    {
        if !begins_with_assert(note.text.as_slice()) {
            return Ok(());
        }
        self.add_at(note.unit, note.line, note.card)
    }

    /// The places of the ASSERTs among some notes, in time for the notes. No answer depends on the
    /// keys.
    pub fn of_notes(alloc: Global, keys: Keys, notes: &[Placed]) -> Result<AssertPlaces, NoMemory>
        ensures { IfOk result (AreMarksOf notes.now) }
    {
        let mut places = AssertPlaces::empty(alloc, keys);
        for note in notes {
            places.add(note)?;
        }
        Ok(places)
    }

    // Whether no ASSERT of another card stands at a place.
    fn is_alone_at(&self, notes: &[Placed], unit: u32, line: u32, card: u32) -> bool
        requires { AreMarksOf notes.now self.now }
        ensures { result ≡ not (has_other card (marks_from None unit line notes.now)) }
    {
        !has_other(card, self.marks(unit, line))
    }

    /// Whether no ASSERT of another card stands at the statement of a note, where these are the
    /// places of the ASSERTs among the notes.
    pub fn is_alone(&self, notes: &[Placed], note: &Placed) -> bool
        requires { AreMarksOf notes.now self.now }
        ensures { result ≡ not (list_any (λ m. begins_with judging.Assert m && is_beside note.now m)
            notes.now) }
    {
        self.is_alone_at(notes, note.unit, note.line, note.card)
    }
}
