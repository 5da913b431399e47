// What units of small decks smash.
ghost use Rattle.fort_model.specs.SmashRows.{SmashedByCalls, SmashedInCommon};

/// A unit smashes what it sets, and what it passes to a unit that smashes its dummy.
pub fn smashed_by_calls()
    ensures { SmashedByCalls }
{}

/// A unit smashes a COMMON entity that a called unit smashes.
pub fn smashed_in_common()
    ensures { SmashedInCommon }
{}
