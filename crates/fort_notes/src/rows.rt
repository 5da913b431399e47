// Notes of small decks.
ghost use Rattle.fort_notes.specs.NoteRows.{FaultsOfNotes, NotesAround, NotesOfUnit};

/// INPUT, OUTPUT, and an ASSERT with a clock.
pub fn notes_of_a_unit()
    ensures { NotesOfUnit }
{}

/// A bound and a definition before the units, and a run behind them.
pub fn notes_around_units()
    ensures { NotesAround }
{}

/// Forms, places and names that are at fault.
pub fn notes_at_fault()
    ensures { FaultsOfNotes }
{}
