// The law of the sizes of decks.
ghost use Rattle.deck_sizes.specs.Laws.{DecksAreShort};

/// A unit of a deck that keeps the rules on cards has at most 1,048,576 statements. It does nothing.
pub fn decks_are_short()
    ensures { DecksAreShort }
{}
