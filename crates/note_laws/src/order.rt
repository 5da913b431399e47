// The order of ASSERTs.
ghost use Rattle.note_laws.specs.Laws.{AssertCardsIncrease, AssertPointsIncrease};

/// The ASSERTs of each unit of a well-formed deck stand on cards that increase. It does nothing.
pub fn assert_cards_increase()
    ensures { AssertCardsIncrease }
{}

/// Where the deck is made of statements and notes in order, the ASSERTs of each unit stand at points
/// that increase. It does nothing.
pub fn assert_points_increase()
    ensures { AssertPointsIncrease }
{}
