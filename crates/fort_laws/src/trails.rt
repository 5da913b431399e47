// The points along paths, and what tells a path.
ghost use Rattle.fort_model.specs.OnePath.{AllPathsAreOne, PathsAreOne};
ghost use Rattle.fort_laws.specs.Trails.{ChoicesEnd, FlatChoicesTellPaths, PathsLeadThrough};

/// Along a path the choices lead through just its points, and the last of them is the next cut
/// point behind its start. It does nothing.
pub fn paths_lead_through()
    ensures { PathsLeadThrough }
{}

/// Choices under which a statement leads on are no front of others under which it does. So how many
/// of a list of choices a statement takes is a matter of the text. It does nothing.
pub fn choices_end()
    ensures { ChoicesEnd }
{}

/// Two paths of a unit with one start are equal where their choices, one after the other, are. It
/// does nothing.
pub fn flat_choices_tell_paths()
    ensures { FlatChoicesTellPaths }
{}

/// A unit has one list of its paths in order. It does nothing.
pub fn paths_are_one()
    ensures { PathsAreOne }
{}

/// A program has one list of the paths of its units. It does nothing.
pub fn all_paths_are_one()
    ensures { AllPathsAreOne }
{}
