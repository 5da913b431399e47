// Entries are those of walks.
ghost use Rattle.entry_frames.specs.Laws.{EntriesAreAtEntry, WellFormedUnitsHaveGoodShapes};

/// What names stand for at the entry is what they do on each walk in the sense of terms. It does
/// nothing.
pub fn entries_are_at_entry()
    ensures { EntriesAreAtEntry }
{}

/// The dimensions of a well-formed unit have good shapes. It does nothing.
pub fn well_formed_units_have_good_shapes()
    ensures { WellFormedUnitsHaveGoodShapes }
{}
