// What a well-formed unit gives its code.
ghost use Rattle.run_known.specs.Known.{NamesHaveSlots, StatementsAreHere};

/// Each data name of a well-formed unit has a slot. It does nothing.
pub fn names_have_slots()
    ensures { NamesHaveSlots }
{}

/// The names of the statements of a well-formed unit have slots, and its calls stand at their places. It does nothing.
pub fn statements_are_here()
    ensures { StatementsAreHere }
{}
