// Lists of paths.
ghost use Rattle.path_laws.specs.Laws.{AllPathsExist, ConditionsAreOne, PathsExist};

/// A unit in which no cycle goes uncut has a list of its paths in order. The proof makes it: from each
/// cut point it tries all choices of each statement, and goes on up to the next cut point. It does
/// nothing.
pub fn paths_exist()
    ensures { PathsExist }
{}

/// So has each unit of a program that keeps rule 31. It does nothing.
pub fn all_paths_exist()
    ensures { AllPathsExist }
{}

/// A well-formed deck whose notes are not at fault, and whose program keeps all rules, has a list of
/// conditions, and just one. It does nothing.
pub fn conditions_are_one()
    ensures { ConditionsAreOne }
{}
