// The deck of a text.
ghost use Rattle.judging.specs.Laws.{AssertPointsIncreaseIn, DecksInAreWellFormed};

/// The deck of bytes that keep the rules on cards, statements and units is well formed. It does
/// nothing.
pub fn decks_in_are_well_formed()
    ensures { DecksInAreWellFormed }
{}

/// Where no note of it is at fault, the ASSERTs of each unit stand at points that increase. It does
/// nothing.
pub fn assert_points_increase_in()
    ensures { AssertPointsIncreaseIn }
{}
