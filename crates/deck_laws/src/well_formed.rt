// Decks that break no rule are well formed.
ghost use Rattle.deck_laws.specs.Laws.{DecksWithoutFaultAreWellFormed};

/// Statements that texts spell and that break no rule on units make, on ascending cards with the notes among them, a deck
/// that is well formed: all that may be asked of its units, with their declarations gone, holds.
/// It does nothing.
pub fn decks_without_fault_are_well_formed()
    ensures { DecksWithoutFaultAreWellFormed }
{}
