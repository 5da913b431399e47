// What is accepted is one, and has no fault.
ghost use Rattle.accepted_laws.specs.Laws.{AcceptedAreOne, AcceptedHaveNoFault, ProgramsAreOne};

/// A well-formed deck whose notes are not at fault has one program in a dialect: its remarks and its
/// table of smashed names are given by the deck. It does nothing.
pub fn programs_are_one()
    ensures { ProgramsAreOne }
{}

/// A deck is accepted as one program, with one list of paths and one list of conditions. It does
/// nothing.
pub fn accepted_are_one()
    ensures { AcceptedAreOne }
{}

/// A deck that is accepted has no first fault among its notes, none in its calls, and none in the
/// later stages of rules. It does nothing.
pub fn accepted_have_no_fault()
    ensures { AcceptedHaveNoFault }
{}
