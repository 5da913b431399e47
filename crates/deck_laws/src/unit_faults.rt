// The first fault of units is the least of the least stage.
ghost use Rattle.deck_laws.specs.Laws.{FirstUnitFaultIsLeast};

/// Of statements on ascending cards: the fault that is told of units is that of a broken rule at
/// its card, no rule of an earlier stage is broken, and none of its own stage at a lesser card, or
/// at the same card with a lesser number; without a fault no rule on units is broken. Of a deck of
/// no statement it is that it has no head, at card 1. It does nothing.
pub fn first_unit_fault_is_least()
    ensures { FirstUnitFaultIsLeast }
{}
