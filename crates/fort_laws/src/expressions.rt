// Expressions of walks and of runs.
ghost use Rattle.fort_laws.specs.Standing.{ExpressionsMatch};

/// What a walk by values makes of an expression, and what a strict run makes of it, match where the
/// values stand for the cells: either all checks of the walk hold, and the run ends with the cell
/// of the walk's value, in the storage as it was; or the first check that does not hold is the
/// error of the run. References to functions are taken to match. It does nothing.
pub fn expressions_match()
    ensures { ExpressionsMatch }
{}
