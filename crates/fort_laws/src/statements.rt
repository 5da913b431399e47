// Statements of walks and of runs.
ghost use Rattle.fort_laws.specs.GoodStatements.{StatementsMatch};

/// What a walk by values makes of a statement, and what a strict run makes of it, match where the
/// values stand for the cells: for choices that lead on, either all events of the walk are true,
/// the run makes these choices, and the values that the walk leaves stand for the cells that the
/// run leaves; or the first false event is a check, and it is the error of the run. Calls are taken
/// to match. It does nothing.
pub fn statements_match()
    ensures { StatementsMatch }
{}
