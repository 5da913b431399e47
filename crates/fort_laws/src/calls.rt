// Calls.
ghost use Rattle.fort_laws.specs.CallLaw.{CallsAreMatched, UnitCallsMatch};

/// Where named values stand for cells, and a called unit ends well from all storage that fits and
/// meets its INPUT, the walk and the run of a call match, whichever arguments pass by copy: either a
/// term of INPUT is false on the walk, and nothing is claimed; or all events of the walk are true for
/// some answer, the run of the call ends, and what the walk then says of the caller's names and of
/// the function's value is what cells hold. It does nothing.
pub fn calls_are_matched()
    ensures { CallsAreMatched }
{}

/// In a unit all of whose calls are of units that end well, all references and CALLs match, as the
/// laws of expressions and of statements take it. It does nothing.
pub fn unit_calls_match()
    ensures { UnitCallsMatch }
{}
