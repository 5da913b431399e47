// The deck and the first fault of entries.
ghost use Rattle.deck_entries.specs.Laws.{DeckOrFirstFault, DecksAreOne, FirstFaultsAreOne};

/// Statements and notes make a deck, or have a first fault, and not both. It does nothing.
pub fn deck_or_first_fault()
    ensures { DeckOrFirstFault }
{}

/// Statements and notes make at most one deck. It does nothing.
pub fn decks_are_one()
    ensures { DecksAreOne }
{}

/// Statements and notes have at most one first fault. It does nothing.
pub fn first_faults_are_one()
    ensures { FirstFaultsAreOne }
{}
