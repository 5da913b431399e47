// Cards of statements and notes.
ghost use Rattle.deck_laws.specs.Laws.{EntriesAscend};

/// The statements and notes of a deck stand on ascending cards, the first on one above 0. It does nothing.
pub fn entries_ascend()
    ensures { EntriesAscend }
{}
