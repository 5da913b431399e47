// Notes and the units that they stand in.
ghost use Rattle.note_laws.specs.Laws.{NotesFitUnits};

/// Where no note of a well-formed deck is at fault, each unit has notes that fit it, whatever the
/// table of smashed names: INPUT names bounds, dummies and COMMON entities, OUTPUT the value of a
/// FUNCTION too, and ASSERTs any data names; entry values, in OUTPUT and ASSERTs alone, are those of
/// dummies and COMMON entities; and each ASSERT stands at a statement, as the only one there. It does
/// nothing.
pub fn notes_fit_units()
    ensures { NotesFitUnits }
{}
