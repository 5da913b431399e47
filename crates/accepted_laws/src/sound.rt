// Soundness of accepted decks.
ghost use Rattle.accepted_laws.specs.Laws.{AcceptedConditionsAreExact, AcceptedDecksAreCorrect};

/// The conditions of a deck that is well formed, whose notes are not at fault, and that keeps all
/// rules, are exact along the list of all its paths: there is one for each check of each path of each
/// unit, in order, and it is false just where the walk fails there. It does nothing.
pub fn accepted_conditions_are_exact()
    ensures { AcceptedConditionsAreExact }
{}

/// Where all of them are valid, the deck is totally correct: each call of each unit on each processor
/// of the dialect that meets the bound ends without error and meets OUTPUT, from each storage that
/// fits and meets INPUT. It does nothing.
pub fn accepted_decks_are_correct()
    ensures { AcceptedDecksAreCorrect }
{}
