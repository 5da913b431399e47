// The first fault of cards is the least of all.
ghost use Rattle.fort_syntax.specs.CardFaults.{FirstCardFaultIsLeast};

/// The fault that `cards` tells is that of a broken rule at its card, and no rule is broken at a
/// lesser card, or at the same card with a lesser number; without a fault no rule of cards is
/// broken. It does nothing.
pub fn first_card_fault_is_least()
    ensures { FirstCardFaultIsLeast }
{}
